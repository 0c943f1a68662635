// Operators and callees at the front of units, as a stored run writes them.
ghost use Rattle.std.specs.Prelude.{◌≡◌, ◌∷◌, ℕ, List, IfOk, MatchOption};
ghost use Rattle.jl_record.specs.Facts.{a_binary, a_unary, a_callee, a_number, a_truth};
ghost use Rattle.jl_record.specs.Reading.{Takes, Fails};

use crate::cuts::after_space;
use crate::facts::{name_front, small_front, truth_front};
use crate::named::{among, builtin_named};
use jl_ast::BinOp;
use jl_op::{Callee, UnKind};
use std::alloc::{AllocError, Global};

const BINARY: [BinOp; 21] = [
    BinOp::Mul,
    BinOp::Div,
    BinOp::Rem,
    BinOp::Add,
    BinOp::Sub,
    BinOp::Shl,
    BinOp::Sar,
    BinOp::Shr,
    BinOp::Less,
    BinOp::Greater,
    BinOp::LessEq,
    BinOp::GreaterEq,
    BinOp::InstanceOf,
    BinOp::In,
    BinOp::Equal,
    BinOp::NotEqual,
    BinOp::StrictEqual,
    BinOp::StrictNotEqual,
    BinOp::BitAnd,
    BinOp::BitXor,
    BinOp::BitOr,
];

const UNARY: [UnKind; 8] = [
    UnKind::Minus,
    UnKind::Plus,
    UnKind::Not,
    UnKind::Tilde,
    UnKind::Typeof,
    UnKind::Void,
    UnKind::Up,
    UnKind::Down,
];

pub(crate) fn binary_front(
    alloc: Global,
    units: &[u16],
) -> Result<Option<(BinOp, &[u16])>, AllocError>
    ensures { IfOk result (λ found. MatchOption found (Fails a_binary units.now)
        (λ x. Takes a_binary units.now x.0 x.1.now)) }
{
    let Some((sign, rest)) = name_front(alloc, units)? else {
        return Ok(None);
    };
    let Some(op) = among(&BINARY, sign.units()) else {
        return Ok(None);
    };
    Ok(Some((op, rest)))
}

pub(crate) fn unary_front(
    alloc: Global,
    units: &[u16],
) -> Result<Option<(UnKind, &[u16])>, AllocError>
    ensures { IfOk result (λ found. MatchOption found (Fails a_unary units.now)
        (λ x. Takes a_unary units.now x.0 x.1.now)) }
{
    let Some((sign, rest)) = name_front(alloc, units)? else {
        return Ok(None);
    };
    let Some(op) = among(&UNARY, sign.units()) else {
        return Ok(None);
    };
    Ok(Some((op, rest)))
}

pub(crate) fn callee_front(
    alloc: Global,
    units: &[u16],
) -> Result<Option<(Callee, &[u16])>, AllocError>
    ensures { IfOk result (λ found. MatchOption found (Fails a_callee units.now)
        (λ x. Takes a_callee units.now x.0 x.1.now)) }
{
    match units {
        [115, rest @ ..] => Ok(script_before(rest)),
        [98, rest @ ..] => native_before(alloc, rest),
        _ => Ok(None),
    }
}

fn script_before(rest: &[u16]) -> Option<(Callee, &[u16])>
    ensures { MatchOption result (Fails a_callee (115 ∷ rest.now)) (λ x. Takes a_callee (115 ∷ rest.now) x.0 x.1.now) }
{
    let Some(first) = after_space(rest) else {
        return None;
    };
    let Some((function, second)) = small_front(first) else {
        return None;
    };
    let Some(third) = after_space(second) else {
        return None;
    };
    let Some((params, fourth)) = small_front(third) else {
        return None;
    };
    let Some(fifth) = after_space(fourth) else {
        return None;
    };
    let Some((mentions, left)) = truth_front(fifth) else {
        return None;
    };
    let callee = Callee::Script {
        function,
        params,
        mentions,
    };
    Some((callee, left))
}

fn native_before(alloc: Global, rest: &[u16]) -> Result<Option<(Callee, &[u16])>, AllocError>
    ensures { IfOk result (λ found. MatchOption found (Fails a_callee (98 ∷ rest.now))
        (λ x. Takes a_callee (98 ∷ rest.now) x.0 x.1.now)) }
{
    let Some(quoted) = after_space(rest) else {
        return Ok(None);
    };
    let Some((name, rest)) = name_front(alloc, quoted)? else {
        return Ok(None);
    };
    let Some(builtin) = builtin_named(name.units()) else {
        return Ok(None);
    };
    Ok(Some((Callee::Native(builtin), rest)))
}
