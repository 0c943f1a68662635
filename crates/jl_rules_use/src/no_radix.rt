#![tactic(auto, unfolding(jl_analysis::specs::Rules::rules, jl_analysis::specs::Rules::hit, jl_analysis::specs::Rules::memory_of))]

ghost use Rattle.std.proofs.Common.{rules};
ghost use Rattle.std.specs.Prelude.{◌≡◌, []};
ghost use Rattle.jl_analysis.specs.UseRules.{no_radix};

use jl_analysis::{Checker, Rule};
use jl_op::{Callee, Op};
use std::alloc::{AllocError, Global};

/// Rule 19: `parseInt` is called without its second argument, the radix, which it then guesses by the text (15.1.2.2).
#[derive(Drop)]
pub struct LacksRadix;

/// The checker of no-radix.
pub type NoRadix = Checker<LacksRadix>;

impl Rule for LacksRadix {
    ghost NUMBER = { 19 };

    ghost memory = { λ _. [] };

    const NUMBER: u32 = 19;

    fn fresh(_alloc: Global) -> LacksRadix {
        LacksRadix
    }

    fn hears(&mut self, op: &Op) -> Result<bool, AllocError> {
        Ok(lacks_radix(op))
    }

    ghost listed = { Prim.search rules };
}

/// Whether `parseInt` is called without a radix.
fn lacks_radix(op: &Op) -> bool
    ensures { result ≡ no_radix op.now }
{
    match op {
        Op::InvokePre {
            target: Callee::Native(builtin),
            args,
            ..
        } => builtin.name() == "parseInt" && args.len() < 2,
        _ => false,
    }
}
