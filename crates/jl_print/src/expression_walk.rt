//! Expressions and functions (clause 11, clause 13).
#![tactic(auto, using(jl_ast::proofs::Views::nodes), unfolding(crate::specs::CanonicalTokens::tokens_of_node))]

ghost use Rattle.std.specs.Prelude.{◌≡◌, ◌++◌, OnOk, option_map};
ghost use Rattle.jl_ast.specs.View.{view_expression, view_expressions, view_optional, view_items};
ghost use Rattle.jl_ast.specs.View.{view_target, view_entry};
ghost use Rattle.jl_ast.specs.View.{view_entries, view_function};
ghost use Rattle.jl_ast.specs.View.{item};
ghost use Rattle.jl_print.specs.Pieces.{in_parens_unless, in_parens};
ghost use Rattle.jl_print.specs.Precedence.{fits};
ghost use Rattle.jl_print.specs.CanonicalTokens.{tokens_of_node, tokens_of_optional};
ghost use Rattle.jl_print.specs.CanonicalTokens.{tokens_of_arguments};
ghost use Rattle.jl_print.specs.CanonicalTokens.{tokens_of_entries, tokens_of_items};
ghost use Rattle.jl_print.specs.inner.Kinds.{after_name, for_part, initializer};
ghost use Rattle.jl_print.specs.inner.Kinds.{item_with_comma};

use crate::name_lists::{add_comma_unless, add_optional_name, add_parameters};
use crate::operator_words::{add_operator, add_prefix, add_update, assigning};
use crate::piece::Pieces;
use crate::precedence::{fits, is_in, operator_precedence, right_precedence};
use crate::statement_walk::add_code;
use jl_ast::{Entry, Expr, ExprKind, Function, Target, is_name};
use jl_text::{List, NoMemory};
use jl_token::Punct;

/// An expression where something as loose as `most` may stand.
#[cycle(print)]
pub(crate) fn add_operand<'a>(e: &'a Expr, most: u32, out: &mut Pieces<'a>) -> Result<(), NoMemory>
    ensures { OnOk result (out.new ≡ out.old ++ in_parens_unless (fits (view_expression e.now) most)
        (tokens_of_node (view_expression e.now))) }
{
    add_in_parens_unless(e, fits(e, most), out)
}

/// An expression, in brackets unless it fits.
#[cycle(print)]
pub(crate) fn add_in_parens_unless<'a>(
    e: &'a Expr,
    fits: bool,
    out: &mut Pieces<'a>,
) -> Result<(), NoMemory>
    ensures { OnOk result (out.new ≡ out.old ++ in_parens_unless fits (tokens_of_node (view_expression e.now))) }
{
    if fits {
        add_expression(e, out)
    } else {
        out.punct(Punct::LeftParen)?;
        add_expression(e, out)?;
        out.punct(Punct::RightParen)
    }
}

#[cycle(print)]
pub(crate) fn add_expression<'a>(e: &'a Expr, out: &mut Pieces<'a>) -> Result<(), NoMemory>
    ensures { OnOk result (out.new ≡ out.old ++ tokens_of_node (view_expression e.now)) }
{
    match &e.kind {
        ExprKind::This => out.word(b"this"),
        ExprKind::Name(text) => out.name(text),
        ExprKind::Num(number) => out.number(number),
        ExprKind::Str(text) => out.string(text),
        ExprKind::Bool(true) => out.word(b"true"),
        ExprKind::Bool(false) => out.word(b"false"),
        ExprKind::Null => out.word(b"null"),
        ExprKind::Array(items) => {
            out.punct(Punct::LeftBracket)?;
            add_items(items, out)?;
            out.punct(Punct::RightBracket)
        }
        ExprKind::Object(entries) => {
            out.punct(Punct::LeftBrace)?;
            add_entries(entries, out)?;
            out.punct(Punct::RightBrace)
        }
        ExprKind::Function(f) => add_function(f, out),
        ExprKind::Dot(a, text) => {
            add_operand(a, 0, out)?;
            out.punct(Punct::Dot)?;
            out.name(text)
        }
        ExprKind::Index(a, b) => {
            add_operand(a, 0, out)?;
            out.punct(Punct::LeftBracket)?;
            add_expression(b, out)?;
            out.punct(Punct::RightBracket)
        }
        ExprKind::Call(f, arguments) => {
            add_operand(f, 0, out)?;
            add_arguments(arguments, out)?;
            Ok(())
        }
        ExprKind::New(f, arguments) => {
            out.word(b"new")?;
            add_in_parens_unless(f, is_name(f), out)?;
            add_arguments(arguments, out)?;
            Ok(())
        }
        ExprKind::Unary(op, a) => {
            add_prefix(*op, out)?;
            add_operand(a, 2, out)
        }
        ExprKind::Update {
            up,
            prefix: true,
            target,
        } => {
            add_update(*up, out)?;
            add_target(target, out)
        }
        ExprKind::Update {
            up,
            prefix: false,
            target,
        } => {
            add_target(target, out)?;
            add_update(*up, out)
        }
        ExprKind::Binary(op, a, b) => {
            if is_in(*op) {
                out.punct(Punct::LeftParen)?;
                add_operand(a, operator_precedence(*op), out)?;
                add_operator(*op, out)?;
                add_operand(b, right_precedence(*op), out)?;
                out.punct(Punct::RightParen)
            } else {
                add_operand(a, operator_precedence(*op), out)?;
                add_operator(*op, out)?;
                add_operand(b, right_precedence(*op), out)?;
                Ok(())
            }
        }
        ExprKind::And(a, b) => {
            add_operand(a, 11, out)?;
            out.punct(Punct::AndAnd)?;
            add_operand(b, 10, out)?;
            Ok(())
        }
        ExprKind::Or(a, b) => {
            add_operand(a, 12, out)?;
            out.punct(Punct::OrOr)?;
            add_operand(b, 11, out)?;
            Ok(())
        }
        ExprKind::Cond(a, b, c) => {
            add_operand(a, 12, out)?;
            out.punct(Punct::Question)?;
            add_operand(b, 13, out)?;
            out.punct(Punct::Colon)?;
            add_operand(c, 13, out)?;
            Ok(())
        }
        ExprKind::Assign(op, target, a) => {
            add_target(target, out)?;
            out.punct(assigning(*op))?;
            add_operand(a, 13, out)?;
            Ok(())
        }
        ExprKind::Comma(a, b) => {
            add_expression(a, out)?;
            out.punct(Punct::Comma)?;
            add_operand(b, 13, out)?;
            Ok(())
        }
    }
}

#[cycle(print)]
pub(crate) fn add_target<'a>(target: &'a Target, out: &mut Pieces<'a>) -> Result<(), NoMemory>
    ensures { OnOk result (out.new ≡ out.old ++ tokens_of_node (view_target target.now)) }
{
    match target {
        Target::Name(name) => out.name(&name.text),
        Target::Dot(a, text, _) => {
            add_operand(a, 0, out)?;
            out.punct(Punct::Dot)?;
            out.name(text)
        }
        Target::Index(a, b, _) => {
            add_operand(a, 0, out)?;
            out.punct(Punct::LeftBracket)?;
            add_expression(b, out)?;
            out.punct(Punct::RightBracket)
        }
    }
}

/// What is called with, in its brackets (11.2.4).
#[cycle(print)]
pub(crate) fn add_arguments<'a>(
    arguments: &'a List<Expr>,
    out: &mut Pieces<'a>,
) -> Result<(), NoMemory>
    ensures { OnOk result (out.new ≡ out.old ++ in_parens (tokens_of_arguments (view_expressions arguments.now))) }
{
    out.punct(Punct::LeftParen)?;
    add_expressions(arguments.items(), out)?;
    out.punct(Punct::RightParen)
}

#[cycle(print)]
pub(crate) fn add_expressions<'a>(
    expressions: &'a [Expr],
    out: &mut Pieces<'a>,
) -> Result<(), NoMemory>
    ensures { OnOk result (out.new ≡ out.old ++ tokens_of_arguments (view_expressions expressions.now)) }
{
    let mut first = true;
    for e in expressions {
        add_comma_unless(first, out)?;
        add_operand(e, 13, out)?;
        first = false;
    }
    Ok(())
}

#[cycle(print)]
pub(crate) fn add_items<'a>(
    items: &'a List<Option<Expr>>,
    out: &mut Pieces<'a>,
) -> Result<(), NoMemory>
    ensures { OnOk result (out.new ≡ out.old ++ tokens_of_items (view_items items.now)) }
{
    let mut left = items.len();
    for e in items.items() {
        left -= 1;
        add_item(e, left == 0, out)?;
    }
    Ok(())
}

/// An element of an array literal (11.1.4): after the last one a comma stands only where it is left out.
#[cycle(print)]
pub(crate) fn add_item<'a>(
    e: &'a Option<Expr>,
    last: bool,
    out: &mut Pieces<'a>,
) -> Result<(), NoMemory>
    ensures { OnOk result (out.new ≡ out.old ++ item_with_comma (item (option_map view_expression e.now)) last) }
{
    match e {
        Some(e) => {
            add_operand(e, 13, out)?;
            add_comma_unless(last, out)
        }
        None => out.punct(Punct::Comma),
    }
}

#[cycle(print)]
pub(crate) fn add_entries<'a>(
    entries: &'a List<Entry>,
    out: &mut Pieces<'a>,
) -> Result<(), NoMemory>
    ensures { OnOk result (out.new ≡ out.old ++ tokens_of_entries (view_entries entries.now)) }
{
    let mut first = true;
    for entry in entries.items() {
        add_comma_unless(first, out)?;
        add_entry(entry, out)?;
        first = false;
    }
    Ok(())
}

#[cycle(print)]
pub(crate) fn add_entry<'a>(entry: &'a Entry, out: &mut Pieces<'a>) -> Result<(), NoMemory>
    ensures { OnOk result (out.new ≡ out.old ++ tokens_of_node (view_entry entry.now)) }
{
    match entry {
        Entry::Value(key, e) => {
            out.key(&key.text)?;
            out.punct(Punct::Colon)?;
            add_operand(e, 13, out)
        }
        Entry::Get(key, f) => {
            out.word(b"get")?;
            out.key(&key.text)?;
            add_rest(f, out)
        }
        Entry::Set(key, f) => {
            out.word(b"set")?;
            out.key(&key.text)?;
            add_rest(f, out)
        }
    }
}

#[cycle(print)]
pub(crate) fn add_function<'a>(f: &'a Function, out: &mut Pieces<'a>) -> Result<(), NoMemory>
    ensures { OnOk result (out.new ≡ out.old ++ tokens_of_node (view_function f.now)) }
{
    out.word(b"function")?;
    add_optional_name(&f.name, out)?;
    add_parameters(&f.params, out)?;
    add_code(&f.body, out)
}

/// What stands after a function's name: its parameters, and what it holds.
#[cycle(print)]
pub(crate) fn add_rest<'a>(f: &'a Function, out: &mut Pieces<'a>) -> Result<(), NoMemory>
    ensures { OnOk result (out.new ≡ out.old ++ after_name (view_function f.now)) }
{
    add_parameters(&f.params, out)?;
    add_code(&f.body, out)
}

/// A semicolon in the head of a `for`, and the expression after it, if there is one (12.6.3).
#[cycle(print)]
pub(crate) fn add_part<'a>(e: &'a Option<Expr>, out: &mut Pieces<'a>) -> Result<(), NoMemory>
    ensures { OnOk result (out.new ≡ out.old ++ for_part (view_optional e.now)) }
{
    out.punct(Punct::Semicolon)?;
    add_optional(e, out)
}

/// What a variable is declared with (12.2).
#[cycle(print)]
pub(crate) fn add_initializer<'a>(e: &'a Option<Expr>, out: &mut Pieces<'a>) -> Result<(), NoMemory>
    ensures { OnOk result (out.new ≡ out.old ++ initializer (view_optional e.now)) }
{
    match e {
        Some(e) => {
            out.punct(Punct::Assign)?;
            add_operand(e, 13, out)
        }
        None => Ok(()),
    }
}

#[cycle(print)]
pub(crate) fn add_optional<'a>(e: &'a Option<Expr>, out: &mut Pieces<'a>) -> Result<(), NoMemory>
    ensures { OnOk result (out.new ≡ out.old ++ tokens_of_optional (view_optional e.now)) }
{
    match e {
        Some(e) => add_expression(e, out),
        None => Ok(()),
    }
}
