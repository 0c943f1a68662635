//! The `for` statements (12.6.3, 12.6.4). What reads a part of a head stays a function of its own when it is compiled,
//! so that it takes no room on the stack while the body is read, as deep as statements stand in one another.
#![tactic(auto, using(jl_ast::proofs::Views::nodes))]

ghost use Rattle.std.specs.Prelude.{◌≡◌, ◌&&◌, false, suc, true};
ghost use Rattle.jl_ast.specs.View.{view_expression, view_ident, view_init, view_optional};
ghost use Rattle.jl_grammar.specs.Next.{is_identifier, is_semicolon};
ghost use Rattle.jl_grammar.specs.Reader.{for_at, for_expression_at, for_from, for_in_from, for_var_at};
ghost use Rattle.jl_grammar.specs.Reader.{is_close_paren, is_in, name_of};
ghost use Rattle.jl_grammar.specs.Tokens.{terminal_at};
ghost use Rattle.jl_parse.specs.inner.Steps.{Gives, GivesStatement, for_head_from, is_end, optional_until};
ghost use Rattle.jl_parse.specs.inner.Steps.{test_and_step_at, within};

use crate::depth::Depth;
use crate::expressions::expression;
use crate::part::Part;
use crate::refusal::{Read, Stop};
use crate::statement_nodes::{ForHead, for_in_node, for_node, init_expression, init_var, present};
use crate::statements::{declarators, sub};
use crate::terminals::{is_close_paren, is_identifier, is_in, is_open_paren, is_semicolon, is_var};
use crate::tokens::Tokens;
use jl_ast::{Expr, ExprKind, ForInit, Ident, Stmt};
use std::alloc::Global;

// An expression, or none, and the semicolon after it.
#[inline(never)]
#[cycle(parser)]
#[tactic(auto, unfolding(jl_grammar::specs::Reader::optional_at, crate::specs::inner::Steps::optional_until))]
fn until_semicolon(
    alloc: Global,
    tokens: &Tokens,
    depth: Depth,
    at: usize,
) -> Read<Part<Option<Expr>>>
    ensures { Gives (λ x. (view_optional x.0, x.1)) result
        (optional_until tokens.now (within tokens.now depth) is_semicolon at) }
{
    if is_semicolon(tokens.terminal(at)) {
        return Ok((Part::flat(None), tokens.after(at)));
    }
    let (e, end) = expression(alloc, tokens, depth, false, at)?;
    if is_semicolon(tokens.terminal(end)) {
        Ok((present(e), tokens.after(end)))
    } else {
        Err(Stop::At(end))
    }
}

// An expression, or none, and the `)` after it.
#[inline(never)]
#[cycle(parser)]
#[tactic(auto, unfolding(jl_grammar::specs::Reader::optional_at, crate::specs::inner::Steps::optional_until))]
fn until_close(alloc: Global, tokens: &Tokens, depth: Depth, at: usize) -> Read<Part<Option<Expr>>>
    ensures { Gives (λ x. (view_optional x.0, x.1)) result
        (optional_until tokens.now (within tokens.now depth) is_close_paren at) }
{
    if is_close_paren(tokens.terminal(at)) {
        return Ok((Part::flat(None), tokens.after(at)));
    }
    let (e, end) = expression(alloc, tokens, depth, false, at)?;
    if is_close_paren(tokens.terminal(end)) {
        Ok((present(e), tokens.after(end)))
    } else {
        Err(Stop::At(end))
    }
}

// The test and the step of a `for`, with the semicolon between them and the `)` after them. They are read before they
// stand beside the first part, since each form of a part that is let go of is a path of its own in the proof.
#[cycle(parser)]
#[tactic(auto, unfolding(crate::specs::inner::Steps::test_and_step_at))]
fn test_and_step(
    alloc: Global,
    tokens: &Tokens,
    depth: Depth,
    at: usize,
) -> Read<(Part<Option<Expr>>, Part<Option<Expr>>)>
    ensures { Gives (λ x. ((view_optional x.0.0, view_optional x.0.1), x.1)) result
        (test_and_step_at tokens.now (within tokens.now depth) at) }
{
    let (test, end) = until_semicolon(alloc, tokens, depth, at)?;
    let (step, end) = until_close(alloc, tokens, depth, end)?;
    Ok(((test, step), end))
}

// The head of a `for` from its first semicolon to behind its `)`.
#[inline(never)]
#[cycle(parser)]
#[tactic(auto, unfolding(crate::specs::inner::Steps::for_head_from))]
fn for_head(
    alloc: Global,
    tokens: &Tokens,
    depth: Depth,
    init: Part<ForInit>,
    end: usize,
) -> Read<ForHead>
    ensures { Gives (λ x. ((view_init x.0.init, (view_optional x.0.test, view_optional x.0.step)), x.1)) result
        (for_head_from tokens.now (within tokens.now depth) (view_init init, end)) }
{
    if !is_semicolon(tokens.terminal(end)) {
        return Err(Stop::At(end));
    }
    let ((test, step), end) = test_and_step(alloc, tokens, depth, tokens.after(end))?;
    Ok((ForHead { init, test, step }, end))
}

// A `for` from its first semicolon on.
#[inline(never)]
#[cycle(parser)]
#[tactic(auto, using(crate::proofs::Heads::for_steps))]
fn for_rest(
    alloc: Global,
    tokens: &Tokens,
    depth: Depth,
    at: usize,
    init: Part<ForInit>,
    end: usize,
) -> Read<Part<Stmt>>
    ensures { GivesStatement result (for_from tokens.now (within tokens.now depth) at (view_init init, end)) }
{
    let (head, end) = for_head(alloc, tokens, depth, init, end)?;
    match sub(alloc, tokens, depth, end) {
        Ok((body, end)) => for_node(tokens, depth, at, head, body, end),
        Err(stop) => {
            // A call is one path in the proof, where letting go at the end is a path for each form of the three parts.
            drop(head);
            Err(stop)
        }
    }
}

// A `for` after its `in`, which stands before `next`.
#[cycle(parser)]
#[tactic(auto, using(jl_ast::proofs::Views::nodes), unfolding(jl_grammar::specs::Reader::for_in_from))]
fn for_in_rest(
    alloc: Global,
    tokens: &Tokens,
    depth: Depth,
    at: usize,
    is_var: bool,
    name: Ident,
    next: usize,
) -> Read<Part<Stmt>>
    ensures { GivesStatement result
        (for_in_from tokens.now (within tokens.now depth) at is_var (view_ident name) next) }
{
    let (object, end) = expression(alloc, tokens, depth, false, next)?;
    if !is_close_paren(tokens.terminal(end)) {
        return Err(Stop::At(end));
    }
    let (body, end) = sub(alloc, tokens, depth, tokens.after(end))?;
    for_in_node(tokens, depth, at, is_var, name, object, body, end)
}

// Whether a name and an `in` stand there.
fn is_name_in(tokens: &Tokens, at: usize) -> bool
    ensures is { result ≡ (is_identifier (terminal_at tokens.now at) && is_in (terminal_at tokens.now (suc at))) }
    ensures first { result ≡ true → is_end (terminal_at tokens.now at) ≡ false }
    ensures second { result ≡ true → is_end (terminal_at tokens.now (suc at)) ≡ false }
{
    is_identifier(tokens.terminal(at)) && is_in(tokens.terminal(tokens.after(at)))
}

// A `for` whose head begins with a `var`, which stands at `var`.
#[inline(never)]
#[cycle(parser)]
#[tactic(auto, using(jl_ast::proofs::Views::nodes), unfolding(jl_grammar::specs::Reader::for_var_at))]
fn for_var(alloc: Global, tokens: &Tokens, depth: Depth, at: usize, var: usize) -> Read<Part<Stmt>>
    requires place { var ≡ suc (suc at) }
    requires there { is_end (terminal_at tokens.now var) ≡ false }
    ensures { GivesStatement result (for_var_at tokens.now (within tokens.now depth) at) }
{
    let first = tokens.after(var);
    if is_name_in(tokens, first) {
        let name = tokens.ident(alloc, first)?;
        let next = tokens.after(tokens.after(first));
        return for_in_rest(alloc, tokens, depth, at, true, name, next);
    }
    let (declarators, end) = declarators(alloc, tokens, depth, true, first)?;
    for_rest(alloc, tokens, depth, at, init_var(declarators), end)
}

// The name that an expression is; where it is none, nothing can be read at the token with index `at`.
fn name(e: Part<Box<Expr>>, at: usize) -> Result<Ident, Stop>
    ensures { Gives view_ident result (name_of (view_expression e.value)) }
{
    let (kind, span) = Box::into_inner(e.into_node()).into_parts();
    match kind {
        ExprKind::Name(text) => Ok(Ident { text, span }),
        _ => Err(Stop::At(at)),
    }
}

// A `for` whose head begins with an expression, which stands at `first`.
#[inline(never)]
#[cycle(parser)]
#[tactic(auto, using(jl_ast::proofs::Views::nodes), unfolding(jl_grammar::specs::Reader::for_expression_at))]
fn for_expression(
    alloc: Global,
    tokens: &Tokens,
    depth: Depth,
    at: usize,
    first: usize,
) -> Read<Part<Stmt>>
    requires { first ≡ suc (suc at) }
    ensures { GivesStatement result (for_expression_at tokens.now (within tokens.now depth) at) }
{
    let (e, end) = expression(alloc, tokens, depth, true, first)?;
    if is_in(tokens.terminal(end)) {
        let name = name(e, end)?;
        return for_in_rest(alloc, tokens, depth, at, false, name, tokens.after(end));
    }
    for_rest(alloc, tokens, depth, at, init_expression(e), end)
}

/// A `for` statement (12.6.3, 12.6.4).
#[cycle(parser)]
#[tactic(auto, using(jl_ast::proofs::Views::nodes), unfolding(jl_grammar::specs::Reader::for_at))]
pub fn for_statement(alloc: Global, tokens: &Tokens, depth: Depth, at: usize) -> Read<Part<Stmt>>
    requires { is_end (terminal_at tokens.now at) ≡ false }
    ensures { GivesStatement result (for_at tokens.now (within tokens.now depth) at) }
{
    let open = tokens.after(at);
    if !is_open_paren(tokens.terminal(open)) {
        return Err(Stop::At(open));
    }
    let first = tokens.after(open);
    let terminal = tokens.terminal(first);
    if is_semicolon(terminal) {
        let nothing = Part::flat(ForInit::Nothing);
        return for_rest(alloc, tokens, depth, at, nothing, first);
    }
    if is_var(terminal) {
        return for_var(alloc, tokens, depth, at, first);
    }
    for_expression(alloc, tokens, depth, at, first)
}
