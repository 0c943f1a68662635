#![tactic(auto, unfolding(jl_analysis::specs::Rules::rules, jl_analysis::specs::Rules::hit, jl_analysis::specs::Rules::memory_of))]

ghost use Rattle.std.proofs.Common.{rules};
ghost use Rattle.std.specs.Prelude.{◌≡◌, ◌∷◌, []};
ghost use Rattle.std.specs.List.{list_any};
ghost use Rattle.std.specs.Str.{bytes_eq};
ghost use Rattle.jl_analysis.specs.Memories.{typeof_code};
ghost use Rattle.jl_analysis.specs.TypeRules.{is_equality, is_odd_text, type_names};
ghost use Rattle.jl_rules_type.specs.Sides.{code_of, compares};

use jl_analysis::{Checker, Rule};
use jl_ast::BinOp;
use jl_op::{Op, UnKind};
use jl_text::{Text, is_spelled};
use jl_value::Value;
use std::alloc::{AllocError, Global};

/// Rule 9: `==`, `!=`, `===` or `!==` comes right after a literal text that `typeof` never gives (11.4.3), and that
/// right after a `typeof`.
#[derive(Drop)]
pub struct ComparesTypeof {
    earlier: Side,
    last: Side,
}

/// The checker of typeof-text.
pub type TypeofText = Checker<ComparesTypeof>;

/// What an operation is to a comparison that comes after it.
#[derive(Clone, Copy)]
enum Side {
    /// Any other, or none.
    Neither,
    /// A `typeof`.
    Typeof,
    /// A literal text that `typeof` never gives.
    OddName,
}

impl Rule for ComparesTypeof {
    ghost NUMBER = { 9 };

    ghost memory = { λ it. (code_of it.earlier, code_of it.last) ∷ [] };

    const NUMBER: u32 = 9;

    fn fresh(_alloc: Global) -> ComparesTypeof {
        ComparesTypeof {
            earlier: Side::Neither,
            last: Side::Neither,
        }
    }

    fn hears(&mut self, op: &Op) -> Result<bool, AllocError> {
        let hits = compares(op, self.earlier, self.last);
        self.earlier = self.last;
        self.last = side_of(op);
        Ok(hits)
    }

    ghost listed = { Prim.search rules };
}

/// Whether the operation compares, after a `typeof` and then a literal text that `typeof` never gives.
fn compares(op: &Op, earlier: Side, last: Side) -> bool
    ensures { result ≡ compares op.now (code_of earlier) (code_of last) }
{
    match (op, earlier, last) {
        (Op::Binary { op, .. }, Side::Typeof, Side::OddName) => is_equality(*op),
        _ => false,
    }
}

/// Whether the operator is `==`, `!=`, `===` or `!==` (11.9).
fn is_equality(op: BinOp) -> bool
    ensures { result ≡ is_equality op }
{
    matches!(
        op,
        BinOp::Equal | BinOp::NotEqual | BinOp::StrictEqual | BinOp::StrictNotEqual
    )
}

/// What the operation is to a comparison that comes after it.
fn side_of(op: &Op) -> Side
    ensures { code_of result ≡ typeof_code op.now }
{
    match op {
        Op::TypeofName { .. }
        | Op::Unary {
            op: UnKind::Typeof,
            ..
        } => Side::Typeof,
        Op::Literal { value } => {
            if is_odd_text(&value.value) {
                Side::OddName
            } else {
                Side::Neither
            }
        }
        _ => Side::Neither,
    }
}

/// Whether the value is a text that `typeof` never gives.
fn is_odd_text(value: &Value) -> bool
    ensures { result ≡ is_odd_text value.now }
{
    match value {
        Value::Text(text) => !is_type_name(text),
        _ => false,
    }
}

/// Whether `typeof` can give the text (11.4.3).
fn is_type_name(text: &Text) -> bool
    ensures { result ≡ list_any (bytes_eq text.now) type_names }
{
    is_spelled(text.units(), b"undefined")
        || is_spelled(text.units(), b"object")
        || is_spelled(text.units(), b"boolean")
        || is_spelled(text.units(), b"number")
        || is_spelled(text.units(), b"string")
        || is_spelled(text.units(), b"function")
}
