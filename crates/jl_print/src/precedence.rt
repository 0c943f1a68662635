ghost use Rattle.std.specs.Prelude.{◌≡◌, pred};
ghost use Rattle.jl_ast.specs.View.{view_expression};
ghost use Rattle.jl_grammar.specs.Operators.{infix_precedence, plain};
ghost use Rattle.jl_print.specs.Precedence.{fits, is_in, operator_precedence, precedence_of};
ghost use Rattle.jl_print.specs.CanonicalTokens.{is_string};

use jl_ast::{BinOp, Expr, ExprKind};
use jl_grammar::level;

/// Whether it is `in`, which stands in brackets wherever it is (11.8, 12.6.3).
pub(crate) fn is_in(op: BinOp) -> bool
    ensures { result ≡ is_in op }
{
    match op {
        BinOp::In => true,
        _ => false,
    }
}

/// The precedence of an operator, and so the loosest that its left operand may have (11.5 to 11.10).
#[tactic(auto, using(crate::proofs::Levels::at_most_eight))]
pub(crate) fn operator_precedence(op: BinOp) -> u32
    ensures { result ≡ operator_precedence op }
{
    2 + (9 - level(op))
}

/// The loosest precedence of an operator's right operand: one less, since all of them group to the left.
#[tactic(auto, using(crate::proofs::Levels::at_most_eight))]
pub(crate) fn right_precedence(op: BinOp) -> u32
    ensures { result ≡ pred (operator_precedence op) }
{
    1 + (9 - level(op))
}

/// The precedence of an expression as it is printed (11.1 to 11.14), tightest first.
#[tactic(auto, using(jl_ast::proofs::Views::nodes))]
pub(crate) fn precedence_of(e: &Expr) -> u32
    ensures { result ≡ precedence_of (view_expression e.now) }
{
    match &e.kind {
        ExprKind::This | ExprKind::Name(_) | ExprKind::Num(_) | ExprKind::Str(_) => 0,
        ExprKind::Bool(_) | ExprKind::Null | ExprKind::Array(_) | ExprKind::Object(_) => 0,
        ExprKind::Function(_) | ExprKind::Dot(_, _) | ExprKind::Index(_, _) => 0,
        ExprKind::Call(_, _) | ExprKind::New(_, _) => 0,
        ExprKind::Update { prefix: false, .. } => 1,
        ExprKind::Update { prefix: true, .. } => 2,
        ExprKind::Unary(_, _) => 2,
        ExprKind::Binary(BinOp::In, _, _) => 0,
        ExprKind::Binary(op, _, _) => operator_precedence(*op),
        ExprKind::And(_, _) => 11,
        ExprKind::Or(_, _) => 12,
        ExprKind::Cond(_, _, _) | ExprKind::Assign(_, _, _) => 13,
        ExprKind::Comma(_, _) => 14,
    }
}

/// Whether it needs no brackets where something as loose as `most` may stand.
pub(crate) fn fits(e: &Expr, most: u32) -> bool
    ensures { result ≡ fits (view_expression e.now) most }
{
    precedence_of(e) <= most
}

#[tactic(auto, using(jl_ast::proofs::Views::nodes))]
pub(crate) fn is_string(e: &Expr) -> bool
    ensures { result ≡ is_string (view_expression e.now) }
{
    match &e.kind {
        ExprKind::Str(_) => true,
        _ => false,
    }
}
