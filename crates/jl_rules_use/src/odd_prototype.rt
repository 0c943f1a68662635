#![tactic(auto, unfolding(jl_analysis::specs::Rules::rules, jl_analysis::specs::Rules::hit, jl_analysis::specs::Rules::memory_of))]

ghost use Rattle.std.proofs.Common.{rules};
ghost use Rattle.std.specs.Prelude.{◌≡◌, []};
ghost use Rattle.jl_analysis.specs.UseRules.{odd_prototype};

use crate::prototype::is_prototype_of_function;
use jl_analysis::{Checker, Rule};
use jl_op::Op;
use jl_value::is_object;
use std::alloc::{AllocError, Global};

/// Rule 14: the property `prototype` of a function is set to a value that is no object, which `new` then passes over
/// (13.2.2).
#[derive(Drop)]
pub struct SetsOddPrototype;

/// The checker of odd-prototype.
pub type OddPrototype = Checker<SetsOddPrototype>;

impl Rule for SetsOddPrototype {
    ghost NUMBER = { 14 };

    ghost memory = { λ _. [] };

    const NUMBER: u32 = 14;

    fn fresh(_alloc: Global) -> SetsOddPrototype {
        SetsOddPrototype
    }

    fn hears(&mut self, op: &Op) -> Result<bool, AllocError> {
        Ok(sets_odd_prototype(op))
    }

    ghost listed = { Prim.search rules };
}

/// Whether a function's `prototype` is set to a value that is no object.
fn sets_odd_prototype(op: &Op) -> bool
    ensures { result ≡ odd_prototype op.now }
{
    match op {
        Op::PutField {
            base,
            name,
            value,
            ..
        } => is_prototype_of_function(base, name) && !is_object(&value.value),
        _ => false,
    }
}
