//! The operators (11.2 to 11.11) that tokens are.
ghost use Rattle.std.specs.Prelude.{◌≡◌, ◌≤◌};
ghost use Rattle.jl_grammar.specs.Next.{continues_left};
ghost use Rattle.jl_grammar.specs.Operators.{unary_operator, update_operator, infix_precedence, infix_node};
ghost use Rattle.jl_ast.specs.View.{view_expression, view_expression_kind};
ghost use Rattle.jl_parse.specs.inner.Steps.{infix_operator_of};
ghost use Rattle.jl_text.specs.declared.span.Span.{Span};

use jl_ast::{BinOp, Expr, ExprKind, UnOp};
use jl_grammar::{Terminal, Word, level};
use jl_token::Punct;

/// What stands between two operands: an operator, or a logical one (11.11).
#[derive(Clone, Copy, PartialEq, Eq, Debug)]
pub enum InfixOperator {
    Plain(BinOp),
    And,
    Or,
}

impl InfixOperator {
    /// Its precedence, from 1 for products to 10 for `||`.
    pub fn infix_precedence(self) -> u32
        ensures is { result ≡ infix_precedence (infix_operator_of self) }
        ensures some { 1 ≤ result }
    {
        match self {
            InfixOperator::Plain(op) => 9 - level(op),
            InfixOperator::And => 9,
            InfixOperator::Or => 10,
        }
    }

    /// The expression that joins two operands.
    #[tactic(auto, using(jl_ast::proofs::Views::nodes))]
    pub fn join(self, a: Box<Expr>, b: Box<Expr>) -> ExprKind
        ensures { (s : Span) → view_expression_kind result s ≡ infix_node (infix_operator_of self)
            (view_expression a.value) (view_expression b.value) s }
    {
        match self {
            InfixOperator::Plain(op) => ExprKind::Binary(op, a, b),
            InfixOperator::And => ExprKind::And(a, b),
            InfixOperator::Or => ExprKind::Or(a, b),
        }
    }
}

/// The operator before one operand (11.4) but `++` and `--`.
pub fn unary_op(terminal: Terminal) -> Option<UnOp>
    ensures { result ≡ unary_operator terminal }
{
    match terminal {
        Terminal::Punct(Punct::Minus) => Some(UnOp::Minus),
        Terminal::Punct(Punct::Plus) => Some(UnOp::Plus),
        Terminal::Punct(Punct::Bang) => Some(UnOp::Not),
        Terminal::Punct(Punct::Tilde) => Some(UnOp::Tilde),
        Terminal::Word(Word::Typeof) => Some(UnOp::Typeof),
        Terminal::Word(Word::Void) => Some(UnOp::Void),
        Terminal::Word(Word::Delete) => Some(UnOp::Delete),
        _ => None,
    }
}

/// `++` and `--` (11.3, 11.4), by whether they count up.
pub fn update_op(terminal: Terminal) -> Option<bool>
    ensures { result ≡ update_operator terminal }
{
    match terminal {
        Terminal::Punct(Punct::PlusPlus) => Some(true),
        Terminal::Punct(Punct::MinusMinus) => Some(false),
        _ => None,
    }
}

/// Whether it continues a member expression, and with `calls` a left-hand side expression (11.2).
pub fn continues_left(terminal: Terminal, calls: bool) -> bool
    ensures { result ≡ continues_left calls terminal }
{
    match terminal {
        Terminal::Punct(Punct::Dot) | Terminal::Punct(Punct::LeftBracket) => true,
        Terminal::Punct(Punct::LeftParen) => calls,
        _ => false,
    }
}
