//! Operators (11.3 to 11.14).
#![tactic(auto, using(jl_ast::proofs::Views::nodes), unfolding(crate::specs::CanonicalTokens::tokens_of_node))]

ghost use Rattle.std.specs.Prelude.{◌≡◌, ◌++◌, ◌∷◌, [], OnOk};
ghost use Rattle.jl_print.specs.Pieces.{operator, prefix_operator};
ghost use Rattle.jl_print.specs.Pieces.{update_operator, assign_punct};
ghost use Rattle.jl_print.specs.inner.Kinds.{assigning};

use crate::piece::Pieces;
use jl_ast::{BinOp, UnOp};
use jl_text::NoMemory;
use jl_token::Punct;

pub(crate) fn add_operator<'a>(op: BinOp, out: &mut Pieces<'a>) -> Result<(), NoMemory>
    ensures { OnOk result (out.new ≡ out.old ++ operator op ∷ []) }
{
    match op {
        BinOp::Mul => out.punct(Punct::Star),
        BinOp::Div => out.punct(Punct::Slash),
        BinOp::Rem => out.punct(Punct::Percent),
        BinOp::Add => out.punct(Punct::Plus),
        BinOp::Sub => out.punct(Punct::Minus),
        BinOp::Shl => out.punct(Punct::ShiftLeft),
        BinOp::Sar => out.punct(Punct::ShiftRight),
        BinOp::Shr => out.punct(Punct::ShiftRightUnsigned),
        BinOp::Less => out.punct(Punct::Less),
        BinOp::Greater => out.punct(Punct::Greater),
        BinOp::LessEq => out.punct(Punct::LessEqual),
        BinOp::GreaterEq => out.punct(Punct::GreaterEqual),
        BinOp::InstanceOf => out.word(b"instanceof"),
        BinOp::In => out.word(b"in"),
        BinOp::Equal => out.punct(Punct::Equal),
        BinOp::NotEqual => out.punct(Punct::NotEqual),
        BinOp::StrictEqual => out.punct(Punct::StrictEqual),
        BinOp::StrictNotEqual => out.punct(Punct::StrictNotEqual),
        BinOp::BitAnd => out.punct(Punct::And),
        BinOp::BitXor => out.punct(Punct::Caret),
        BinOp::BitOr => out.punct(Punct::Or),
    }
}

pub(crate) fn add_prefix<'a>(op: UnOp, out: &mut Pieces<'a>) -> Result<(), NoMemory>
    ensures { OnOk result (out.new ≡ out.old ++ prefix_operator op ∷ []) }
{
    match op {
        UnOp::Minus => out.punct(Punct::Minus),
        UnOp::Plus => out.punct(Punct::Plus),
        UnOp::Not => out.punct(Punct::Bang),
        UnOp::Tilde => out.punct(Punct::Tilde),
        UnOp::Typeof => out.word(b"typeof"),
        UnOp::Void => out.word(b"void"),
        UnOp::Delete => out.word(b"delete"),
    }
}

pub(crate) fn add_update<'a>(up: bool, out: &mut Pieces<'a>) -> Result<(), NoMemory>
    ensures { OnOk result (out.new ≡ out.old ++ update_operator up ∷ []) }
{
    if up {
        out.punct(Punct::PlusPlus)
    } else {
        out.punct(Punct::MinusMinus)
    }
}

pub(crate) fn assign_punct(op: BinOp) -> Punct
    ensures { result ≡ assign_punct op }
{
    match op {
        BinOp::Mul => Punct::StarAssign,
        BinOp::Div => Punct::SlashAssign,
        BinOp::Rem => Punct::PercentAssign,
        BinOp::Add => Punct::PlusAssign,
        BinOp::Sub => Punct::MinusAssign,
        BinOp::Shl => Punct::ShiftLeftAssign,
        BinOp::Sar => Punct::ShiftRightAssign,
        BinOp::Shr => Punct::ShiftRightUnsignedAssign,
        BinOp::BitAnd => Punct::AndAssign,
        BinOp::BitXor => Punct::CaretAssign,
        BinOp::BitOr => Punct::OrAssign,
        _ => Punct::Assign,
    }
}

/// `=`, or a compound assignment operator (11.13).
pub(crate) fn assigning(op: Option<BinOp>) -> Punct
    ensures { result ≡ assigning op }
{
    match op {
        Some(op) => assign_punct(op),
        None => Punct::Assign,
    }
}
