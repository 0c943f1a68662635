ghost use Rattle.jl_grammar.specs.Operators.{assign_operator, binary_operator, level as level_in};
ghost use Rattle.jl_grammar.specs.Terminals.{terminal_of};
ghost use Rattle.jl_grammar.specs.declared.terminal.Terminal.TheVariants as Terminal;
ghost use Rattle.std.specs.Prelude.{◌≡◌};

use crate::terminal::{Terminal, terminal_of};
use crate::word::Word;
use jl_ast::BinOp;
use jl_token::{Punct, TokenKind};

/// The operator between two operands (11.5 to 11.10) that a token is; None where it is none. `&&` and `||` are none.
pub fn binary_op(kind: &TokenKind) -> Option<BinOp>
    ensures { result ≡ binary_operator (terminal_of kind.now) }
{
    match terminal_of(kind) {
        Terminal::Punct(punct) => binary_punct(punct),
        Terminal::Word(Word::InstanceOf) => Some(BinOp::InstanceOf),
        Terminal::Word(Word::In) => Some(BinOp::In),
        _ => None,
    }
}

fn binary_punct(punct: Punct) -> Option<BinOp>
    ensures { result ≡ binary_operator (Terminal.Punct punct) }
{
    match punct {
        Punct::Star => Some(BinOp::Mul),
        Punct::Slash => Some(BinOp::Div),
        Punct::Percent => Some(BinOp::Rem),
        Punct::Plus => Some(BinOp::Add),
        Punct::Minus => Some(BinOp::Sub),
        Punct::ShiftLeft => Some(BinOp::Shl),
        Punct::ShiftRight => Some(BinOp::Sar),
        Punct::ShiftRightUnsigned => Some(BinOp::Shr),
        Punct::Less => Some(BinOp::Less),
        Punct::Greater => Some(BinOp::Greater),
        Punct::LessEqual => Some(BinOp::LessEq),
        Punct::GreaterEqual => Some(BinOp::GreaterEq),
        Punct::Equal => Some(BinOp::Equal),
        Punct::NotEqual => Some(BinOp::NotEqual),
        Punct::StrictEqual => Some(BinOp::StrictEqual),
        Punct::StrictNotEqual => Some(BinOp::StrictNotEqual),
        Punct::And => Some(BinOp::BitAnd),
        Punct::Caret => Some(BinOp::BitXor),
        Punct::Or => Some(BinOp::BitOr),
        _ => None,
    }
}

/// The assignment operator (11.13) that a token is, by the operation that it does: `Some(None)` is `=`. None where it
/// is no assignment operator.
pub fn assign_op(kind: &TokenKind) -> Option<Option<BinOp>>
    ensures { result ≡ assign_operator (terminal_of kind.now) }
{
    match terminal_of(kind) {
        Terminal::Punct(Punct::Assign) => Some(None),
        Terminal::Punct(Punct::StarAssign) => Some(Some(BinOp::Mul)),
        Terminal::Punct(Punct::SlashAssign) => Some(Some(BinOp::Div)),
        Terminal::Punct(Punct::PercentAssign) => Some(Some(BinOp::Rem)),
        Terminal::Punct(Punct::PlusAssign) => Some(Some(BinOp::Add)),
        Terminal::Punct(Punct::MinusAssign) => Some(Some(BinOp::Sub)),
        Terminal::Punct(Punct::ShiftLeftAssign) => Some(Some(BinOp::Shl)),
        Terminal::Punct(Punct::ShiftRightAssign) => Some(Some(BinOp::Sar)),
        Terminal::Punct(Punct::ShiftRightUnsignedAssign) => Some(Some(BinOp::Shr)),
        Terminal::Punct(Punct::AndAssign) => Some(Some(BinOp::BitAnd)),
        Terminal::Punct(Punct::CaretAssign) => Some(Some(BinOp::BitXor)),
        Terminal::Punct(Punct::OrAssign) => Some(Some(BinOp::BitOr)),
        _ => None,
    }
}

/// How tightly an operator binds, from 1 for `|` to 8 for `*`, `/` and `%` (11.5 to 11.10).
pub fn level(op: BinOp) -> u32
    ensures { result ≡ level_in op }
{
    match op {
        BinOp::Mul | BinOp::Div | BinOp::Rem => 8,
        BinOp::Add | BinOp::Sub => 7,
        BinOp::Shl | BinOp::Sar | BinOp::Shr => 6,
        BinOp::Less | BinOp::Greater | BinOp::LessEq | BinOp::GreaterEq => 5,
        BinOp::InstanceOf | BinOp::In => 5,
        BinOp::Equal | BinOp::NotEqual | BinOp::StrictEqual | BinOp::StrictNotEqual => 4,
        BinOp::BitAnd => 3,
        BinOp::BitXor => 2,
        BinOp::BitOr => 1,
    }
}
