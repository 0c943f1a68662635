#![tactic(auto, unfolding(jl_analysis::specs::Rules::rules, jl_analysis::specs::Rules::hit, jl_analysis::specs::Rules::memory_of))]

ghost use Rattle.std.proofs.Common.{rules};
ghost use Rattle.std.specs.Prelude.{◌≡◌, []};
ghost use Rattle.jl_analysis.specs.TypeRules.{loose_equal, is_loose};

use jl_analysis::values::are_of_one_type;
use jl_analysis::{Checker, Rule};
use jl_ast::BinOp;
use jl_op::Op;
use jl_value::is_nothing;
use std::alloc::{AllocError, Global};

/// Rule 7: `==` or `!=` converts one of its operands, neither of which is undefined or null (11.9.3).
#[derive(Drop)]
pub struct EqualsLoosely;

/// The checker of loose-equal.
pub type LooseEqual = Checker<EqualsLoosely>;

impl Rule for EqualsLoosely {
    ghost NUMBER = { 7 };

    ghost memory = { λ _. [] };

    const NUMBER: u32 = 7;

    fn fresh(_alloc: Global) -> EqualsLoosely {
        EqualsLoosely
    }

    fn hears(&mut self, op: &Op) -> Result<bool, AllocError> {
        Ok(equals_loosely(op))
    }

    ghost listed = { Prim.search rules };
}

/// Whether the operation is a `==` or `!=` of values of two types, neither of which is undefined or null.
fn equals_loosely(op: &Op) -> bool
    ensures { result ≡ loose_equal op.now }
{
    match op {
        Op::Binary {
            op,
            left,
            right,
            ..
        } => {
            is_loose(*op)
                && !is_nothing(&left.value)
                && !is_nothing(&right.value)
                && !are_of_one_type(&left.value, &right.value)
        }
        _ => false,
    }
}

/// Whether the operator is `==` or `!=`.
fn is_loose(op: BinOp) -> bool
    ensures { result ≡ is_loose op }
{
    matches!(op, BinOp::Equal | BinOp::NotEqual)
}
