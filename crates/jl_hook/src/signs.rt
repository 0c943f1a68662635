//! Operators by how they are written.
#![tactic(auto)]

ghost use Rattle.std.specs.Prelude.{◌≡◌, option_map};
ghost use Rattle.std.specs.Str.{bytes_eq};
ghost use Rattle.jl_op.specs.UnaryKinds.{update_kind};
ghost use Rattle.jl_meaning.specs.forms.HookCalls.{assignment_operators, binary_among, binary_named, unary_among};
ghost use Rattle.jl_meaning.specs.forms.HookCalls.{relational_operators, unary_kinds, update_kinds};

use jl_ast::BinOp;
use jl_op::{UnKind, binary_sign};
use jl_text::{Text, is_spelled};

/// The operators of compound assignments (11.13).
const ASSIGNMENT_OPERATORS: [BinOp; 11] = [
    BinOp::Mul,
    BinOp::Div,
    BinOp::Rem,
    BinOp::Add,
    BinOp::Sub,
    BinOp::Shl,
    BinOp::Sar,
    BinOp::Shr,
    BinOp::BitAnd,
    BinOp::BitXor,
    BinOp::BitOr,
];

/// The others, of 11.8 and 11.9.
const RELATIONAL_OPERATORS: [BinOp; 10] = [
    BinOp::Less,
    BinOp::Greater,
    BinOp::LessEq,
    BinOp::GreaterEq,
    BinOp::InstanceOf,
    BinOp::In,
    BinOp::Equal,
    BinOp::NotEqual,
    BinOp::StrictEqual,
    BinOp::StrictNotEqual,
];

const UNARY_KINDS: [UnKind; 8] = [
    UnKind::Minus,
    UnKind::Plus,
    UnKind::Not,
    UnKind::Tilde,
    UnKind::Typeof,
    UnKind::Void,
    UnKind::Up,
    UnKind::Down,
];

/// The operator between two operands that is written so.
pub(crate) fn binary_named(sign: &Text) -> Option<BinOp>
    ensures { result ≡ binary_named sign.now }
{
    match assignment_named(sign) {
        Some(op) => Some(op),
        None => relational_named(sign),
    }
}

/// The operator of a compound assignment that is written so.
#[tactic(auto, unfolding(jl_meaning::specs::forms::HookCalls::assignment_operators))]
pub(crate) fn assignment_named(sign: &Text) -> Option<BinOp>
    ensures { result ≡ binary_among assignment_operators sign.now }
{
    binary_among(&ASSIGNMENT_OPERATORS, sign)
}

#[tactic(auto, unfolding(jl_meaning::specs::forms::HookCalls::relational_operators))]
fn relational_named(sign: &Text) -> Option<BinOp>
    ensures { result ≡ binary_among relational_operators sign.now }
{
    binary_among(&RELATIONAL_OPERATORS, sign)
}

/// The operator on one operand that is written so.
#[tactic(auto, unfolding(jl_meaning::specs::forms::HookCalls::unary_kinds))]
pub(crate) fn unary_named(sign: &Text) -> Option<UnKind>
    ensures { result ≡ unary_among unary_kinds sign.now }
{
    unary_among(&UNARY_KINDS, sign)
}

/// Whether a sign is `++`, which goes up, or `--`, if it is one of them.
pub(crate) fn update_named(sign: &Text) -> Option<bool>
    ensures { option_map update_kind result ≡ unary_among update_kinds sign.now }
{
    if is_written(UnKind::Up.sign(), sign) {
        Some(true)
    } else if is_written(UnKind::Down.sign(), sign) {
        Some(false)
    } else {
        None
    }
}

fn binary_among(mut ops: &[BinOp], sign: &Text) -> Option<BinOp>
    ensures { result ≡ binary_among ops.entry.now sign.now }
{
    while let [op, rest @ ..] = ops {
        if is_written(binary_sign(*op), sign) {
            return Some(*op);
        }
        ops = rest;
    }
    None
}

fn unary_among(mut kinds: &[UnKind], sign: &Text) -> Option<UnKind>
    ensures { result ≡ unary_among kinds.entry.now sign.now }
{
    while let [kind, rest @ ..] = kinds {
        if is_written(kind.sign(), sign) {
            return Some(*kind);
        }
        kinds = rest;
    }
    None
}

/// Whether a text is this sign.
#[tactic(auto, using(crate::proofs::Spelled::either_way))]
fn is_written(sign: &str, text: &Text) -> bool
    ensures { result ≡ bytes_eq sign.now text.now }
{
    is_spelled(text.units(), sign.as_bytes())
}
