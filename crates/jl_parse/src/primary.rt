//! Primary expressions, members, calls and `new` (11.1, 11.2).
ghost use Rattle.std.specs.Prelude.{◌≡◌, false, true, length};
ghost use Rattle.jl_ast.specs.View.{view_expression, view_expressions, view_items};
ghost use Rattle.jl_grammar.specs.Reader.{succeed, head_at, primary_at, primary_by, items_from, arguments_at};
ghost use Rattle.jl_grammar.specs.Reader.{arguments_from, new_at, start_at, left_at, left_by};
ghost use Rattle.jl_grammar.specs.Tokens.{terminal_at};
ghost use Rattle.jl_grammar.specs.declared.terminal.Terminal.TheVariants as Terminal;
ghost use Rattle.jl_parse.specs.inner.Steps.{Gives, GivesExpression, is_end, within};

use crate::depth::Depth;
use crate::expressions::{expression, inner_assignment};
use crate::functions::{entries, function_expression};
use crate::nodes::{array_node, call_node, dot_node, index_node, leaf, new_node, object_node};
use crate::operators::continues_left;
use crate::part::{Part, push_argument, push_hole, push_item};
use crate::refusal::{Read, Stop};
use crate::terminals::{
    is_close_bracket, is_close_paren, is_comma, is_name, is_new, is_open_paren,
};
use crate::tokens::Tokens;
use jl_ast::{Expr, ExprKind};
use jl_grammar::{Terminal, Word};
use jl_text::List;
use jl_token::Punct;
use std::alloc::Global;

/// An expression in parentheses.
#[cycle(parser)]
#[tactic(auto, unfolding(jl_grammar::specs::Reader::head_at, jl_grammar::specs::Reader::then_close_paren))]
pub fn head(alloc: Global, tokens: &Tokens, depth: Depth, at: usize) -> Read<Part<Box<Expr>>>
    ensures { GivesExpression result (head_at tokens.now (within tokens.now depth) at) }
{
    if !is_open_paren(tokens.terminal(at)) {
        return Err(Stop::At(at));
    }
    let (e, end) = expression(alloc, tokens, depth, false, tokens.after(at))?;
    if is_close_paren(tokens.terminal(end)) {
        Ok((e, tokens.after(end)))
    } else {
        Err(Stop::At(end))
    }
}

// The items of an array literal (11.1.4) and the `]` after them.
#[cycle(parser)]
#[tactic(auto, using(crate::proofs::Turns::items_loop))]
fn items(alloc: Global, tokens: &Tokens, depth: Depth, at: usize) -> Read<Part<List<Option<Expr>>>>
    ensures { Gives (λ x. (view_items x.0, x.1)) result
        (items_from tokens.now (within tokens.now depth) (length tokens.now) at) }
{
    let mut items = Part::flat(List::new(alloc));
    let mut next = at;
    let mut room = tokens.len();
    'parts: loop {
        let terminal = tokens.terminal(next);
        if is_close_bracket(terminal) {
            return Ok((items, tokens.after(next)));
        }
        if room == 0 {
            return Err(Stop::At(next));
        }
        room -= 1;
        if is_comma(terminal) {
            push_hole(&mut items)?;
            next = tokens.after(next);
        } else {
            let (e, end) = inner_assignment(alloc, tokens, depth, false, next)?;
            push_item(&mut items, e)?;
            let terminal = tokens.terminal(end);
            if is_close_bracket(terminal) {
                return Ok((items, tokens.after(end)));
            }
            if !is_comma(terminal) {
                return Err(Stop::At(end));
            }
            next = tokens.after(end);
        }
    }
}

// A primary expression (11.1) that begins with a punctuator.
#[cycle(parser)]
#[tactic(auto, using(jl_ast::proofs::Views::nodes), unfolding(jl_grammar::specs::Reader::primary_by, jl_grammar::specs::Reader::head_at))]
fn punct_primary(
    alloc: Global,
    tokens: &Tokens,
    depth: Depth,
    at: usize,
    punct: Punct,
) -> Read<Part<Box<Expr>>>
    requires { terminal_at tokens.now at ≡ Terminal.Punct punct }
    ensures { GivesExpression result (primary_by tokens.now (within tokens.now depth) at (Terminal.Punct punct)) }
{
    match punct {
        Punct::LeftParen => head(alloc, tokens, depth, at),
        Punct::LeftBracket => {
            let (items, end) = items(alloc, tokens, depth, tokens.after(at))?;
            array_node(alloc, tokens, depth, at, items, end)
        }
        Punct::LeftBrace => {
            let (entries, end) = entries(alloc, tokens, depth, tokens.after(at))?;
            object_node(alloc, tokens, depth, at, entries, end)
        }
        _ => Err(Stop::At(at)),
    }
}

// A primary expression (11.1) that begins with a reserved word.
#[cycle(parser)]
#[tactic(auto, using(jl_ast::proofs::Views::nodes), unfolding(jl_grammar::specs::Reader::primary_by))]
fn word_primary(
    alloc: Global,
    tokens: &Tokens,
    depth: Depth,
    at: usize,
    word: Word,
) -> Read<Part<Box<Expr>>>
    requires { terminal_at tokens.now at ≡ Terminal.Word word }
    ensures { GivesExpression result (primary_by tokens.now (within tokens.now depth) at (Terminal.Word word)) }
{
    match word {
        Word::This => leaf(alloc, tokens, at, ExprKind::This),
        Word::Null => leaf(alloc, tokens, at, ExprKind::Null),
        Word::True => leaf(alloc, tokens, at, ExprKind::Bool(true)),
        Word::False => leaf(alloc, tokens, at, ExprKind::Bool(false)),
        Word::Function => function_expression(alloc, tokens, depth, at),
        _ => Err(Stop::At(at)),
    }
}

// A primary expression (11.1).
#[cycle(parser)]
#[tactic(auto, using(jl_ast::proofs::Views::nodes), unfolding(jl_grammar::specs::Reader::primary_at, jl_grammar::specs::Reader::primary_by))]
fn primary(alloc: Global, tokens: &Tokens, depth: Depth, at: usize) -> Read<Part<Box<Expr>>>
    ensures { GivesExpression result (primary_at tokens.now (within tokens.now depth) at) }
{
    match tokens.terminal(at) {
        Terminal::Punct(punct) => punct_primary(alloc, tokens, depth, at, punct),
        Terminal::Word(word) => word_primary(alloc, tokens, depth, at, word),
        Terminal::Identifier | Terminal::Get | Terminal::Set => {
            let name = tokens.text(alloc, at)?;
            leaf(alloc, tokens, at, ExprKind::Name(name))
        }
        Terminal::Number => leaf(alloc, tokens, at, ExprKind::Num(tokens.number(at))),
        Terminal::Str => {
            let text = tokens.text(alloc, at)?;
            leaf(alloc, tokens, at, ExprKind::Str(text))
        }
        Terminal::EscapedWord | Terminal::End => Err(Stop::At(at)),
    }
}

// The arguments of a call (11.2) after its `(`, of which there is one at least, and the `)` after them.
#[cycle(parser)]
#[tactic(auto, using(crate::proofs::Turns::arguments_loop))]
fn some_arguments(alloc: Global, tokens: &Tokens, depth: Depth, at: usize) -> Read<Part<List<Expr>>>
    ensures { Gives (λ x. (view_expressions x.0, x.1)) result
        (arguments_from tokens.now (within tokens.now depth) (length tokens.now) at) }
{
    let mut arguments = Part::flat(List::new(alloc));
    let mut next = at;
    let mut room = tokens.len();
    'parts: loop {
        if room == 0 {
            return Err(Stop::At(next));
        }
        room -= 1;
        let (e, end) = inner_assignment(alloc, tokens, depth, false, next)?;
        push_argument(&mut arguments, e)?;
        let terminal = tokens.terminal(end);
        if is_close_paren(terminal) {
            return Ok((arguments, tokens.after(end)));
        }
        if !is_comma(terminal) {
            return Err(Stop::At(end));
        }
        next = tokens.after(end);
    }
}

// The arguments of a call (11.2) after its `(`, and the `)` after them.
#[cycle(parser)]
#[tactic(auto, unfolding(jl_grammar::specs::Reader::arguments_at))]
fn arguments(alloc: Global, tokens: &Tokens, depth: Depth, at: usize) -> Read<Part<List<Expr>>>
    ensures { Gives (λ x. (view_expressions x.0, x.1)) result (arguments_at tokens.now (within tokens.now depth) at) }
{
    if is_close_paren(tokens.terminal(at)) {
        Ok((Part::flat(List::new(alloc)), tokens.after(at)))
    } else {
        some_arguments(alloc, tokens, depth, at)
    }
}

// `new` with its operand, and its arguments if there are any (11.2).
#[cycle(parser)]
#[tactic(auto, using(jl_ast::proofs::Views::nodes), unfolding(jl_grammar::specs::Reader::new_at))]
fn new_expression(alloc: Global, tokens: &Tokens, depth: Depth, at: usize) -> Read<Part<Box<Expr>>>
    requires { is_end (terminal_at tokens.now at) ≡ false }
    ensures { GivesExpression result (new_at tokens.now (within tokens.now depth) at) }
{
    let (callee, end) = member(alloc, tokens, depth, tokens.after(at))?;
    if is_open_paren(tokens.terminal(end)) {
        let (arguments, end) = arguments(alloc, tokens, depth, tokens.after(end))?;
        new_node(alloc, tokens, depth, at, callee, arguments, end)
    } else {
        let arguments = Part::flat(List::new(alloc));
        new_node(alloc, tokens, depth, at, callee, arguments, end)
    }
}

// A MemberExpression (11.2) one level deeper.
#[cycle(parser)]
#[tactic(auto, using(crate::proofs::Levels::levels))]
fn member(alloc: Global, tokens: &Tokens, depth: Depth, at: usize) -> Read<Part<Box<Expr>>>
    ensures { GivesExpression result ((within tokens.now depth).member at) }
{
    if !tokens.has_room(depth, at) {
        return Err(Stop::At(at));
    }
    left(alloc, tokens, depth.inside(), false, at)
}

#[cycle(parser)]
#[tactic(auto, unfolding(jl_grammar::specs::Reader::start_at))]
fn start(alloc: Global, tokens: &Tokens, depth: Depth, at: usize) -> Read<Part<Box<Expr>>>
    ensures { GivesExpression result (start_at tokens.now (within tokens.now depth) at) }
{
    if is_new(tokens.terminal(at)) {
        new_expression(alloc, tokens, depth, at)
    } else {
        primary(alloc, tokens, depth, at)
    }
}

// A member or a call of an expression that began at `at` and ends before `end` (11.2); no more where none follows.
#[cycle(parser)]
#[tactic(auto, using(jl_ast::proofs::Views::nodes), unfolding(jl_grammar::specs::Reader::left_by))]
fn longer(
    alloc: Global,
    tokens: &Tokens,
    depth: Depth,
    at: usize,
    left: Part<Box<Expr>>,
    end: usize,
) -> Read<Part<Box<Expr>>>
    ensures { GivesExpression result
        (left_by tokens.now (within tokens.now depth) true succeed at (view_expression left.value) end
        (terminal_at tokens.now end)) }
{
    match tokens.terminal(end) {
        Terminal::Punct(Punct::Dot) => {
            let name = tokens.after(end);
            if !is_name(tokens.terminal(name)) {
                return Err(Stop::At(name));
            }
            let next = tokens.after(name);
            let name = tokens.text(alloc, name)?;
            dot_node(alloc, tokens, depth, at, left, name, next)
        }
        Terminal::Punct(Punct::LeftBracket) => {
            let (key, end) = expression(alloc, tokens, depth, false, tokens.after(end))?;
            if !is_close_bracket(tokens.terminal(end)) {
                return Err(Stop::At(end));
            }
            let next = tokens.after(end);
            index_node(alloc, tokens, depth, at, left, key, next)
        }
        Terminal::Punct(Punct::LeftParen) => {
            let (arguments, next) = arguments(alloc, tokens, depth, tokens.after(end))?;
            call_node(alloc, tokens, depth, at, left, arguments, next)
        }
        _ => Ok((left, end)),
    }
}

/// A MemberExpression, and with `calls` a LeftHandSideExpression (11.2).
#[cycle(parser)]
#[tactic(auto, using(jl_ast::proofs::Views::nodes, crate::proofs::Turns::left_loop), unfolding(jl_grammar::specs::Reader::left_at))]
pub fn left(
    alloc: Global,
    tokens: &Tokens,
    depth: Depth,
    calls: bool,
    at: usize,
) -> Read<Part<Box<Expr>>>
    ensures { GivesExpression result (left_at tokens.now (within tokens.now depth) calls depth.levels at) }
{
    let (mut left, mut end) = start(alloc, tokens, depth, at)?;
    let mut room = depth.levels;
    'parts: loop {
        let terminal = tokens.terminal(end);
        if !continues_left(terminal, calls) {
            return Ok((left, end));
        }
        if room == 0 {
            return Err(Stop::At(end));
        }
        room -= 1;
        let (more, next) = longer(alloc, tokens, depth, at, left, end)?;
        left = more;
        end = next;
    }
}
