#![tactic(auto, unfolding(jl_analysis::specs::Rules::rules, jl_analysis::specs::Rules::hit, jl_analysis::specs::Rules::memory_of))]

ghost use Rattle.std.proofs.Common.{rules};
ghost use Rattle.std.specs.Prelude.{◌≡◌, []};
ghost use Rattle.jl_analysis.specs.TypeRules.{nan_made};

use jl_analysis::values::is_nan;
use jl_analysis::{Checker, Rule};
use jl_op::Op;
use std::alloc::{AllocError, Global};

/// Rule 1: an operator makes NaN of operands none of which is NaN.
#[derive(Drop)]
pub struct MakesNan;

/// The checker of nan-made.
pub type NanMade = Checker<MakesNan>;

impl Rule for MakesNan {
    ghost NUMBER = { 1 };

    ghost memory = { λ _. [] };

    const NUMBER: u32 = 1;

    fn fresh(_alloc: Global) -> MakesNan {
        MakesNan
    }

    fn hears(&mut self, op: &Op) -> Result<bool, AllocError> {
        Ok(makes_nan(op))
    }

    ghost listed = { Prim.search rules };
}

/// Whether the operation makes NaN of operands none of which is NaN.
fn makes_nan(op: &Op) -> bool
    ensures { result ≡ nan_made op.now }
{
    match op {
        Op::Binary {
            left,
            right,
            result,
            ..
        } => is_nan(&result.value) && !is_nan(&left.value) && !is_nan(&right.value),
        Op::Unary {
            operand,
            result,
            ..
        } => is_nan(&result.value) && !is_nan(&operand.value),
        _ => false,
    }
}
