#![tactic(auto, unfolding(jl_analysis::specs::Rules::rules, jl_analysis::specs::Rules::hit, jl_analysis::specs::Rules::memory_of))]

ghost use Rattle.std.proofs.Common.{rules};
ghost use Rattle.std.specs.Prelude.{◌≡◌, []};
ghost use Rattle.jl_analysis.specs.UseRules.{wrapper_made};

use jl_analysis::{Checker, Rule};
use jl_op::{Callee, Op};
use std::alloc::{AllocError, Global};

/// Rule 18: `String`, `Number` or `Boolean` is called by `new`, which makes an object that stands for a primitive value
/// (15.5.2, 15.6.2, 15.7.2).
#[derive(Drop)]
pub struct MakesWrapper;

/// The checker of wrapper-made.
pub type WrapperMade = Checker<MakesWrapper>;

impl Rule for MakesWrapper {
    ghost NUMBER = { 18 };

    ghost memory = { λ _. [] };

    const NUMBER: u32 = 18;

    fn fresh(_alloc: Global) -> MakesWrapper {
        MakesWrapper
    }

    fn hears(&mut self, op: &Op) -> Result<bool, AllocError> {
        Ok(makes_wrapper(op))
    }

    ghost listed = { Prim.search rules };
}

/// Whether `new` makes an object that stands for a primitive value.
fn makes_wrapper(op: &Op) -> bool
    ensures { result ≡ wrapper_made op.now }
{
    match op {
        Op::InvokePre {
            target: Callee::Native(builtin),
            by_new: true,
            ..
        } => matches!(builtin.name(), "String" | "Number" | "Boolean"),
        _ => false,
    }
}
