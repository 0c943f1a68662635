//! `switch` and `try` statements (12.11, 12.14).
#![tactic(auto, using(jl_ast::proofs::Views::nodes))]

ghost use Rattle.std.specs.Prelude.{◌≡◌, false, length, true};
ghost use Rattle.jl_ast.specs.Tree as tree;
ghost use Rattle.jl_ast.specs.View.{view_case, view_cases, view_ident, view_statements};
ghost use Rattle.jl_grammar.specs.Reader.{catch_at, clauses_from, finally_from, switch_at, try_at};
ghost use Rattle.jl_grammar.specs.Tokens.{terminal_at};
ghost use Rattle.jl_parse.specs.inner.Steps.{Gives, GivesStatement, clause_of, is_end, within};

use crate::depth::Depth;
use crate::expressions::expression;
use crate::part::{Part, push_case};
use crate::primary::head;
use crate::refusal::{Read, Stop};
use crate::statement_nodes::{
    case_of, catch_of, default_case, switch_node, try_both_node, try_catch_node, try_finally_node,
};
use crate::statements::{block, statements};
use crate::terminals::{
    is_case, is_catch, is_close_brace, is_close_paren, is_colon, is_default, is_finally,
    is_identifier, is_open_brace, is_open_paren,
};
use crate::tokens::Tokens;
use jl_ast::{Case, Ident, Stmt};
use jl_text::List;
use std::alloc::Global;

// A clause of a `switch` (12.11); a default one only where `fresh`.
#[cycle(parser)]
#[tactic(auto, using(jl_ast::proofs::Views::nodes), unfolding(crate::specs::inner::Steps::clause_of))]
fn clause(alloc: Global, tokens: &Tokens, depth: Depth, fresh: bool, at: usize) -> Read<Part<Case>>
    ensures { Gives (λ x. (view_case x.0, x.1)) result (clause_of tokens.now (within tokens.now depth) fresh at) }
{
    let terminal = tokens.terminal(at);
    if is_case(terminal) {
        let (test, end) = expression(alloc, tokens, depth, false, tokens.after(at))?;
        if !is_colon(tokens.terminal(end)) {
            return Err(Stop::At(end));
        }
        let (body, end) = statements(alloc, tokens, depth, tokens.after(end))?;
        return Ok((case_of(test, body), end));
    }
    if !is_default(terminal) || !fresh {
        return Err(Stop::At(at));
    }
    let colon = tokens.after(at);
    if !is_colon(tokens.terminal(colon)) {
        return Err(Stop::At(colon));
    }
    let (body, end) = statements(alloc, tokens, depth, tokens.after(colon))?;
    Ok((default_case(body), end))
}

// The clauses of a `switch` (12.11), up to the `}` after them.
#[cycle(parser)]
#[tactic(auto, using(crate::proofs::Lists::clauses_loop))]
fn clauses(alloc: Global, tokens: &Tokens, depth: Depth, at: usize) -> Read<Part<List<Case>>>
    ensures { Gives (λ x. (view_cases x.0, x.1)) result
        (clauses_from tokens.now (within tokens.now depth) (length tokens.now) true at) }
{
    let mut clauses = Part::flat(List::new(alloc));
    let mut fresh = true;
    let mut next = at;
    let mut room = tokens.len();
    'parts: loop {
        let terminal = tokens.terminal(next);
        if is_close_brace(terminal) {
            return Ok((clauses, next));
        }
        if room == 0 {
            return Err(Stop::At(next));
        }
        room -= 1;
        let (c, end) = clause(alloc, tokens, depth, fresh, next)?;
        push_case(&mut clauses, c)?;
        fresh = fresh && is_case(terminal);
        next = end;
    }
}

/// A `switch` statement (12.11).
#[cycle(parser)]
#[tactic(auto, using(jl_ast::proofs::Views::nodes), unfolding(jl_grammar::specs::Reader::switch_at))]
pub fn switch_statement(alloc: Global, tokens: &Tokens, depth: Depth, at: usize) -> Read<Part<Stmt>>
    requires { is_end (terminal_at tokens.now at) ≡ false }
    ensures { GivesStatement result (switch_at tokens.now (within tokens.now depth) at) }
{
    let (e, end) = head(alloc, tokens, depth, tokens.after(at))?;
    if !is_open_brace(tokens.terminal(end)) {
        return Err(Stop::At(end));
    }
    let (clauses, end) = clauses(alloc, tokens, depth, tokens.after(end))?;
    if !is_close_brace(tokens.terminal(end)) {
        return Err(Stop::At(end));
    }
    let end = tokens.after(end);
    switch_node(tokens, depth, at, e, clauses, end)
}

// The `catch` of a `try` (12.14).
#[cycle(parser)]
#[tactic(auto, unfolding(jl_grammar::specs::Reader::catch_at))]
fn catch(alloc: Global, tokens: &Tokens, depth: Depth, at: usize) -> Read<Part<(Ident, List<Stmt>)>>
    requires { is_end (terminal_at tokens.now at) ≡ false }
    ensures { Gives (λ x. (tree.catch (view_ident x.0.0) (view_statements x.0.1), x.1)) result
        (catch_at tokens.now (within tokens.now depth) at) }
{
    let open = tokens.after(at);
    if !is_open_paren(tokens.terminal(open)) {
        return Err(Stop::At(open));
    }
    let name = tokens.after(open);
    if !is_identifier(tokens.terminal(name)) {
        return Err(Stop::At(name));
    }
    let close = tokens.after(name);
    if !is_close_paren(tokens.terminal(close)) {
        return Err(Stop::At(close));
    }
    let (body, end) = block(alloc, tokens, depth, tokens.after(close))?;
    let name = tokens.ident(alloc, name)?;
    Ok((catch_of(name, body), end))
}

/// A `try` statement (12.14).
#[cycle(parser)]
#[tactic(auto, using(jl_ast::proofs::Views::nodes), unfolding(jl_grammar::specs::Reader::try_at, jl_grammar::specs::Reader::finally_from))]
pub fn try_statement(alloc: Global, tokens: &Tokens, depth: Depth, at: usize) -> Read<Part<Stmt>>
    requires { is_end (terminal_at tokens.now at) ≡ false }
    ensures { GivesStatement result (try_at tokens.now (within tokens.now depth) at) }
{
    let (body, end) = block(alloc, tokens, depth, tokens.after(at))?;
    let terminal = tokens.terminal(end);
    if is_catch(terminal) {
        let (caught, end) = catch(alloc, tokens, depth, end)?;
        return finally(alloc, tokens, depth, at, body, caught, end);
    }
    if !is_finally(terminal) {
        return Err(Stop::At(end));
    }
    let (last, end) = block(alloc, tokens, depth, tokens.after(end))?;
    try_finally_node(tokens, depth, at, body, last, end)
}

// The `finally` of a `try` with a `catch`, if there is one (12.14).
#[cycle(parser)]
#[tactic(auto, using(jl_ast::proofs::Views::nodes), unfolding(jl_grammar::specs::Reader::finally_from))]
fn finally(
    alloc: Global,
    tokens: &Tokens,
    depth: Depth,
    at: usize,
    body: Part<List<Stmt>>,
    caught: Part<(Ident, List<Stmt>)>,
    end: usize,
) -> Read<Part<Stmt>>
    ensures { GivesStatement result (finally_from tokens.now (within tokens.now depth) at (view_statements body)
        (tree.catch (view_ident caught.0) (view_statements caught.1), end)) }
{
    if is_finally(tokens.terminal(end)) {
        let (last, end) = block(alloc, tokens, depth, tokens.after(end))?;
        try_both_node(tokens, depth, at, body, caught, last, end)
    } else {
        try_catch_node(tokens, depth, at, body, caught, end)
    }
}
