#![tactic(auto, unfolding(jl_analysis::specs::Rules::rules, jl_analysis::specs::Rules::hit, jl_analysis::specs::Rules::memory_of))]

ghost use Rattle.std.proofs.Common.{rules};
ghost use Rattle.std.specs.Prelude.{◌≡◌, []};
ghost use Rattle.jl_analysis.specs.TypeRules.{bits_of_nothing, is_bitwise, has_no_bits};

use jl_analysis::values::is_nan;
use jl_analysis::{Checker, Rule};
use jl_ast::BinOp;
use jl_op::{Op, UnKind};
use jl_value::{Value, is_undefined};
use std::alloc::{AllocError, Global};

/// Rule 10: an operator takes the bits of undefined or of NaN, which it has none of (9.5, 9.6).
#[derive(Drop)]
pub struct TakesBitsOfNothing;

/// The checker of bits-of-nothing.
pub type BitsOfNothing = Checker<TakesBitsOfNothing>;

impl Rule for TakesBitsOfNothing {
    ghost NUMBER = { 10 };

    ghost memory = { λ _. [] };

    const NUMBER: u32 = 10;

    fn fresh(_alloc: Global) -> TakesBitsOfNothing {
        TakesBitsOfNothing
    }

    fn hears(&mut self, op: &Op) -> Result<bool, AllocError> {
        Ok(takes_bits_of_nothing(op))
    }

    ghost listed = { Prim.search rules };
}

/// Whether the operation takes the bits of a value that is undefined or NaN.
fn takes_bits_of_nothing(op: &Op) -> bool
    ensures { result ≡ bits_of_nothing op.now }
{
    match op {
        Op::Binary {
            op,
            left,
            right,
            ..
        } => is_bitwise(*op) && (has_no_bits(&left.value) || has_no_bits(&right.value)),
        Op::Unary {
            op: UnKind::Tilde,
            operand,
            ..
        } => has_no_bits(&operand.value),
        _ => false,
    }
}

/// Whether the operator works on the bits of its operands (11.7, 11.10).
fn is_bitwise(op: BinOp) -> bool
    ensures { result ≡ is_bitwise op }
{
    matches!(
        op,
        BinOp::BitAnd | BinOp::BitOr | BinOp::BitXor | BinOp::Shl | BinOp::Sar | BinOp::Shr
    )
}

/// Whether the value is undefined or NaN.
fn has_no_bits(value: &Value) -> bool
    ensures { result ≡ has_no_bits value.now }
{
    is_undefined(value) || is_nan(value)
}
