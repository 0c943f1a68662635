//! Functions, what they hold (clauses 13 and 14), and object literals (11.1.5).
ghost use Rattle.std.specs.Prelude.{◌≡◌, false, length, map};
ghost use Rattle.jl_ast.specs.Tree as tree;
ghost use Rattle.jl_ast.specs.View.{view_body, view_entries, view_entry, view_function, view_ident};
ghost use Rattle.jl_grammar.specs.Reader.{accessor_at, body_from, elements_from, entries_from, entry_at, function_at};
ghost use Rattle.jl_grammar.specs.Reader.{getter_by, parameters_at, rest_at, setter_by, value_at};
ghost use Rattle.jl_grammar.specs.Tokens.{terminal_at};
ghost use Rattle.jl_parse.specs.inner.Steps.{Gives, GivesExpression, GivesRest, is_end, declaration_of, with_elements};
ghost use Rattle.jl_parse.specs.inner.Steps.{within};

use crate::depth::Depth;
use crate::expressions::inner_assignment;
use crate::nodes::{
    body_of, function_expression_node, function_node, getter_entry, setter_entry, value_entry,
};
use crate::part::{Part, push_entry, push_function, push_statement};
use crate::refusal::{Read, Stop};
use crate::statements::{ends, statement};
use crate::terminals::{
    ends_list, is_close_brace, is_close_paren, is_colon, is_comma, is_function, is_identifier,
    is_key, is_open_brace, is_open_paren,
};
use crate::tokens::Tokens;
use jl_ast::{Body, Entry, Expr, Function, Ident};
use jl_grammar::Terminal;
use jl_text::List;
use std::alloc::Global;

// The parameters of a function after its `(`, and the `)` after them.
#[tactic(auto, using(crate::proofs::Lists::parameters_loop), unfolding(jl_grammar::specs::Reading::parameters_at))]
fn parameters(alloc: Global, tokens: &Tokens, at: usize) -> Read<List<Ident>>
    ensures { Gives (λ x. (map view_ident x.0, x.1)) result (parameters_at tokens.now at) }
{
    let mut parameters = List::new(alloc);
    if is_close_paren(tokens.terminal(at)) {
        return Ok((parameters, tokens.after(at)));
    }
    let mut next = at;
    let mut room = tokens.len();
    'parts: loop {
        if room == 0 || !is_identifier(tokens.terminal(next)) {
            return Err(Stop::At(next));
        }
        room -= 1;
        parameters.push(tokens.ident(alloc, next)?)?;
        let end = tokens.after(next);
        let terminal = tokens.terminal(end);
        if is_close_paren(terminal) {
            return Ok((parameters, tokens.after(end)));
        }
        if !is_comma(terminal) {
            return Err(Stop::At(end));
        }
        next = tokens.after(end);
    }
}

// The parameters and the body of a function, from its `(` to its `}`.
#[cycle(parser)]
#[tactic(auto, unfolding(jl_grammar::specs::Reader::rest_at))]
fn rest(alloc: Global, tokens: &Tokens, depth: Depth, at: usize) -> Read<(List<Ident>, Part<Body>)>
    ensures { GivesRest result (rest_at tokens.now (within tokens.now depth) at) }
{
    if !is_open_paren(tokens.terminal(at)) {
        return Err(Stop::At(at));
    }
    let (parameters, end) = parameters(alloc, tokens, tokens.after(at))?;
    if !is_open_brace(tokens.terminal(end)) {
        return Err(Stop::At(end));
    }
    let (body, end) = body(alloc, tokens, depth, tokens.after(end))?;
    if is_close_brace(tokens.terminal(end)) {
        Ok(((parameters, body), tokens.after(end)))
    } else {
        Err(Stop::At(end))
    }
}

#[cycle(parser)]
#[tactic(auto, using(crate::proofs::Levels::levels))]
fn inner_rest(
    alloc: Global,
    tokens: &Tokens,
    depth: Depth,
    at: usize,
) -> Read<(List<Ident>, Part<Body>)>
    ensures { GivesRest result ((within tokens.now depth).rest at) }
{
    if !tokens.has_room(depth, at) {
        return Err(Stop::At(at));
    }
    rest(alloc, tokens, depth.inside(), at)
}

/// A function expression (clause 13).
#[cycle(parser)]
#[tactic(auto, using(jl_ast::proofs::Views::nodes), unfolding(jl_grammar::specs::Reader::function_at))]
pub fn function_expression(
    alloc: Global,
    tokens: &Tokens,
    depth: Depth,
    at: usize,
) -> Read<Part<Box<Expr>>>
    requires { is_end (terminal_at tokens.now at) ≡ false }
    ensures { GivesExpression result (function_at tokens.now (within tokens.now depth) at) }
{
    let name = tokens.after(at);
    if is_identifier(tokens.terminal(name)) {
        let ((params, body), end) = rest(alloc, tokens, depth, tokens.after(name))?;
        let name = Some(tokens.ident(alloc, name)?);
        function_expression_node(alloc, tokens, depth, at, name, params, body, end)
    } else {
        let ((params, body), end) = rest(alloc, tokens, depth, name)?;
        function_expression_node(alloc, tokens, depth, at, None, params, body, end)
    }
}

// A function declaration (clause 13).
#[cycle(parser)]
#[tactic(auto, using(jl_ast::proofs::Views::nodes))]
fn declaration(alloc: Global, tokens: &Tokens, depth: Depth, at: usize) -> Read<Part<Function>>
    requires { is_end (terminal_at tokens.now at) ≡ false }
    ensures { Gives (λ x. (view_function x.0, x.1)) result (declaration_of tokens.now (within tokens.now depth) at) }
{
    let name = tokens.after(at);
    if !is_identifier(tokens.terminal(name)) {
        return Err(Stop::At(name));
    }
    let ((params, body), end) = inner_rest(alloc, tokens, depth, tokens.after(name))?;
    let name = Some(tokens.ident(alloc, name)?);
    function_node(tokens, depth, at, name, params, body, end)
}

// The function declarations and statements of a body (clause 14), after its directives.
#[cycle(parser)]
#[tactic(auto, using(jl_ast::proofs::Views::nodes, crate::proofs::Lists::elements_loop))]
fn elements(
    alloc: Global,
    tokens: &Tokens,
    depth: Depth,
    at: usize,
    strict: bool,
) -> Read<Part<Body>>
    ensures { Gives (λ x. (view_body x.0, x.1)) result (with_elements strict tree.end tree.end
        (elements_from tokens.now (within tokens.now depth) (length tokens.now) at)) }
{
    let mut functions = Part::flat(List::new(alloc));
    let mut statements = Part::flat(List::new(alloc));
    let mut next = at;
    let mut room = tokens.len();
    'parts: loop {
        let terminal = tokens.terminal(next);
        if ends_list(terminal) {
            return Ok((body_of(strict, functions, statements), next));
        }
        if room == 0 {
            return Err(Stop::At(next));
        }
        room -= 1;
        if is_function(terminal) {
            let (f, end) = declaration(alloc, tokens, depth, next)?;
            push_function(&mut functions, f)?;
            next = end;
        } else {
            let (s, end) = statement(alloc, tokens, depth, next)?;
            push_statement(&mut statements, s)?;
            next = end;
        }
    }
}

/// What a function or a program holds (clause 14), up to what ends it. A directive leaves no statement.
#[cycle(parser)]
#[tactic(auto, using(crate::proofs::Lists::body_loop))]
pub fn body(alloc: Global, tokens: &Tokens, depth: Depth, at: usize) -> Read<Part<Body>>
    ensures { Gives (λ x. (view_body x.0, x.1)) result
        (body_from tokens.now (within tokens.now depth) (length tokens.now) at) }
{
    let mut strict = false;
    let mut next = at;
    let mut room = tokens.len();
    'parts: loop {
        if !tokens.is_directive(next) {
            return elements(alloc, tokens, depth, next, strict);
        }
        if room == 0 {
            return Err(Stop::At(next));
        }
        room -= 1;
        strict = strict || tokens.is_strict(next);
        let after = tokens.after(next);
        let Some(end) = ends(tokens, after) else {
            return Err(Stop::At(after));
        };
        next = end;
    }
}

// A property that is a value under a key (11.1.5).
#[cycle(parser)]
#[tactic(auto, using(jl_ast::proofs::Views::nodes), unfolding(jl_grammar::specs::Reader::value_at))]
fn value(alloc: Global, tokens: &Tokens, depth: Depth, at: usize) -> Read<Part<Entry>>
    ensures { Gives (λ x. (view_entry x.0, x.1)) result (value_at tokens.now (within tokens.now depth) at) }
{
    if !is_key(tokens.terminal(at)) {
        return Err(Stop::At(at));
    }
    let colon = tokens.after(at);
    if !is_colon(tokens.terminal(colon)) {
        return Err(Stop::At(colon));
    }
    let (e, end) = inner_assignment(alloc, tokens, depth, false, tokens.after(colon))?;
    let key = tokens.key(alloc, at)?;
    Ok((value_entry(key, e), end))
}

// A property that begins with `get` (11.1.5).
#[cycle(parser)]
#[tactic(auto, using(jl_ast::proofs::Views::nodes, crate::proofs::Lists::getters), unfolding(jl_grammar::specs::Reader::accessor_at))]
fn getter(alloc: Global, tokens: &Tokens, depth: Depth, at: usize) -> Read<Part<Entry>>
    requires { is_end (terminal_at tokens.now at) ≡ false }
    ensures { Gives (λ x. (view_entry x.0, x.1)) result (accessor_at tokens.now (within tokens.now depth)
        (getter_by tokens.now (within tokens.now depth)) at) }
{
    let name = tokens.after(at);
    if is_colon(tokens.terminal(name)) {
        return value(alloc, tokens, depth, at);
    }
    if !is_key(tokens.terminal(name)) {
        return Err(Stop::At(name));
    }
    let open = tokens.after(name);
    let ((params, body), end) = rest(alloc, tokens, depth, open)?;
    if params.len() != 0 {
        return Err(Stop::At(open));
    }
    let (function, end) = function_node(tokens, depth, at, None, params, body, end)?;
    let key = tokens.key(alloc, name)?;
    Ok((getter_entry(key, function), end))
}

// A property that begins with `set` (11.1.5).
#[cycle(parser)]
#[tactic(auto, using(jl_ast::proofs::Views::nodes, crate::proofs::Lists::setters), unfolding(jl_grammar::specs::Reader::accessor_at))]
fn setter(alloc: Global, tokens: &Tokens, depth: Depth, at: usize) -> Read<Part<Entry>>
    requires { is_end (terminal_at tokens.now at) ≡ false }
    ensures { Gives (λ x. (view_entry x.0, x.1)) result (accessor_at tokens.now (within tokens.now depth)
        (setter_by tokens.now (within tokens.now depth)) at) }
{
    let name = tokens.after(at);
    if is_colon(tokens.terminal(name)) {
        return value(alloc, tokens, depth, at);
    }
    if !is_key(tokens.terminal(name)) {
        return Err(Stop::At(name));
    }
    let open = tokens.after(name);
    let ((params, body), end) = rest(alloc, tokens, depth, open)?;
    if params.len() != 1 {
        return Err(Stop::At(open));
    }
    let (function, end) = function_node(tokens, depth, at, None, params, body, end)?;
    let key = tokens.key(alloc, name)?;
    Ok((setter_entry(key, function), end))
}

#[cycle(parser)]
#[tactic(auto, unfolding(jl_grammar::specs::Reader::entry_at, jl_grammar::specs::Reader::entry_by))]
fn entry(alloc: Global, tokens: &Tokens, depth: Depth, at: usize) -> Read<Part<Entry>>
    ensures { Gives (λ x. (view_entry x.0, x.1)) result (entry_at tokens.now (within tokens.now depth) at) }
{
    match tokens.terminal(at) {
        Terminal::Get => getter(alloc, tokens, depth, at),
        Terminal::Set => setter(alloc, tokens, depth, at),
        _ => value(alloc, tokens, depth, at),
    }
}

/// The properties of an object literal (11.1.5) and the `}` after them.
#[cycle(parser)]
#[tactic(auto, using(crate::proofs::Lists::entries_loop))]
pub fn entries(alloc: Global, tokens: &Tokens, depth: Depth, at: usize) -> Read<Part<List<Entry>>>
    ensures { Gives (λ x. (view_entries x.0, x.1)) result
        (entries_from tokens.now (within tokens.now depth) (length tokens.now) at) }
{
    let mut entries = Part::flat(List::new(alloc));
    let mut next = at;
    let mut room = tokens.len();
    'parts: loop {
        if is_close_brace(tokens.terminal(next)) {
            return Ok((entries, tokens.after(next)));
        }
        if room == 0 {
            return Err(Stop::At(next));
        }
        room -= 1;
        let (e, end) = entry(alloc, tokens, depth, next)?;
        push_entry(&mut entries, e)?;
        let terminal = tokens.terminal(end);
        if is_close_brace(terminal) {
            return Ok((entries, tokens.after(end)));
        }
        if !is_comma(terminal) {
            return Err(Stop::At(end));
        }
        next = tokens.after(end);
    }
}
