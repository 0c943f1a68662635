#![tactic(auto, unfolding(jl_analysis::specs::Rules::rules, jl_analysis::specs::Rules::hit, jl_analysis::specs::Rules::memory_of))]

ghost use Rattle.std.proofs.Common.{rules};
ghost use Rattle.std.specs.Prelude.{◌≡◌, []};
ghost use Rattle.jl_analysis.specs.TypeRules.{odd_compare, is_order};

use jl_analysis::values::{is_number, is_text};
use jl_analysis::{Checker, Rule};
use jl_ast::BinOp;
use jl_op::Op;
use std::alloc::{AllocError, Global};

/// Rule 8: what `<`, `>`, `<=` or `>=` compares are neither two numbers nor two texts (11.8.5).
#[derive(Drop)]
pub struct ComparesOddly;

/// The checker of odd-compare.
pub type OddCompare = Checker<ComparesOddly>;

impl Rule for ComparesOddly {
    ghost NUMBER = { 8 };

    ghost memory = { λ _. [] };

    const NUMBER: u32 = 8;

    fn fresh(_alloc: Global) -> ComparesOddly {
        ComparesOddly
    }

    fn hears(&mut self, op: &Op) -> Result<bool, AllocError> {
        Ok(compares_oddly(op))
    }

    ghost listed = { Prim.search rules };
}

/// Whether the operation compares values in order that are neither two numbers nor two texts.
fn compares_oddly(op: &Op) -> bool
    ensures { result ≡ odd_compare op.now }
{
    match op {
        Op::Binary {
            op,
            left,
            right,
            ..
        } => {
            is_order(*op)
                && !(is_number(&left.value) && is_number(&right.value))
                && !(is_text(&left.value) && is_text(&right.value))
        }
        _ => false,
    }
}

/// Whether the operator is `<`, `>`, `<=` or `>=`.
fn is_order(op: BinOp) -> bool
    ensures { result ≡ is_order op }
{
    matches!(
        op,
        BinOp::Less | BinOp::Greater | BinOp::LessEq | BinOp::GreaterEq
    )
}
