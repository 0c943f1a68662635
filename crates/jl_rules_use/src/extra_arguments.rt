#![tactic(auto, unfolding(jl_analysis::specs::Rules::rules, jl_analysis::specs::Rules::hit, jl_analysis::specs::Rules::memory_of))]

ghost use Rattle.std.proofs.Common.{rules};
ghost use Rattle.std.specs.Prelude.{◌≡◌, []};
ghost use Rattle.jl_analysis.specs.UseRules.{extra_arguments};

use jl_analysis::{Checker, Rule};
use jl_op::{Callee, Op};
use std::alloc::{AllocError, Global};

/// Rule 17: a function of the script is called with more arguments than it has parameters, and its body doesn't mention
/// `arguments`, where it would find them.
#[derive(Drop)]
pub struct PassesExtraArguments;

/// The checker of extra-arguments.
pub type ExtraArguments = Checker<PassesExtraArguments>;

impl Rule for PassesExtraArguments {
    ghost NUMBER = { 17 };

    ghost memory = { λ _. [] };

    const NUMBER: u32 = 17;

    fn fresh(_alloc: Global) -> PassesExtraArguments {
        PassesExtraArguments
    }

    fn hears(&mut self, op: &Op) -> Result<bool, AllocError> {
        Ok(passes_extra_arguments(op))
    }

    ghost listed = { Prim.search rules };
}

/// Whether a function of the script is called with arguments that it can't see.
fn passes_extra_arguments(op: &Op) -> bool
    ensures { result ≡ extra_arguments op.now }
{
    match op {
        Op::InvokePre {
            target: Callee::Script {
                params,
                mentions: false,
                ..
            },
            args,
            ..
        } => (*params as usize) < args.len(),
        _ => false,
    }
}
