#![tactic(auto, using(jl_ast::proofs::Views::nodes, crate::proofs::Writing::beginnings), unfolding(crate::specs::CanonicalTokens::tokens_of_node))]

ghost use Rattle.std.specs.Prelude.{◌≡◌, not, ◌||◌};
ghost use Rattle.jl_ast.specs.View.{view_expression, view_target};
ghost use Rattle.jl_grammar.specs.Next.{bars_expression};
ghost use Rattle.jl_grammar.specs.Terminals.{terminal_of};
ghost use Rattle.jl_grammar.specs.declared.terminal.Terminal.TheVariants as Terminal;
ghost use Rattle.jl_print.specs.Pieces.{name, in_parens_unless};
ghost use Rattle.jl_print.specs.Precedence.{fits};
ghost use Rattle.jl_print.specs.CanonicalTokens.{begins_otherwise, is_string, tokens_of_node};

use crate::precedence::{fits, is_in, is_string, operator_precedence};
use jl_ast::{Expr, ExprKind, Target};
use jl_grammar::{Word, reserved_word};
use jl_text::Text;

/// Whether an expression may be a statement with no brackets (12.4, 14.1). It goes down the left edge of the
/// expression.
pub(crate) fn stands_alone(e: &Expr) -> bool
    ensures { result ≡ not (begins_otherwise (tokens_of_node (view_expression e.now)) || is_string
        (view_expression e.now)) }
{
    !(begins_otherwise(e) || is_string(e))
}

#[tactic(auto, using(crate::proofs::Writing::word_bars, crate::proofs::Writing::no_word_bars))]
fn is_function(text: &Text) -> bool
    ensures { result ≡ bars_expression (terminal_of (name text.now)) }
{
    match reserved_word(text.units()) {
        Some(word) => is_function_word(word),
        None => false,
    }
}

fn is_function_word(word: Word) -> bool
    ensures { result ≡ bars_expression (Terminal.Word word) }
{
    match word {
        Word::Function => true,
        _ => false,
    }
}

/// Whether it would be read as a block or as a function declaration (12.4).
#[cycle(begins)]
fn begins_otherwise(e: &Expr) -> bool
    ensures { result ≡ begins_otherwise (tokens_of_node (view_expression e.now)) }
{
    match &e.kind {
        ExprKind::Name(text) => is_function(text),
        ExprKind::Object(_) | ExprKind::Function(_) => true,
        ExprKind::This | ExprKind::Num(_) | ExprKind::Str(_) | ExprKind::Null => false,
        ExprKind::Bool(true) => false,
        ExprKind::Bool(false) => false,
        ExprKind::Array(_) | ExprKind::New(_, _) | ExprKind::Unary(_, _) => false,
        ExprKind::Update { prefix: true, .. } => false,
        ExprKind::Update {
            prefix: false,
            target,
            ..
        } => target_begins_otherwise(target),
        ExprKind::Dot(a, _) => operand_begins_otherwise(a, 0),
        ExprKind::Index(a, _) => operand_begins_otherwise(a, 0),
        ExprKind::Call(a, _) => operand_begins_otherwise(a, 0),
        ExprKind::Binary(op, a, _) => {
            if is_in(*op) {
                false
            } else {
                operand_begins_otherwise(a, operator_precedence(*op))
            }
        }
        ExprKind::And(a, _) => operand_begins_otherwise(a, 11),
        ExprKind::Or(a, _) => operand_begins_otherwise(a, 12),
        ExprKind::Cond(a, _, _) => operand_begins_otherwise(a, 12),
        ExprKind::Assign(_, target, _) => target_begins_otherwise(target),
        ExprKind::Comma(a, _) => begins_otherwise(a),
    }
}

/// The same of an expression where something as loose as `most` may stand: in brackets it begins with one.
#[cycle(begins)]
fn operand_begins_otherwise(e: &Expr, most: u32) -> bool
    ensures { result ≡ begins_otherwise
        (in_parens_unless (fits (view_expression e.now) most) (tokens_of_node (view_expression e.now))) }
{
    if fits(e, most) {
        begins_otherwise(e)
    } else {
        false
    }
}

#[cycle(begins)]
fn target_begins_otherwise(target: &Target) -> bool
    ensures { result ≡ begins_otherwise (tokens_of_node (view_target target.now)) }
{
    match target {
        Target::Name(name) => is_function(&name.text),
        Target::Dot(a, _, _) => operand_begins_otherwise(a, 0),
        Target::Index(a, _, _) => operand_begins_otherwise(a, 0),
    }
}
