//! Operators and what they stand between (11.3 to 11.14).
ghost use Rattle.jl_grammar.specs.Reader.{postfix_at, unary_at, binary_at, conditional_at, assignment_at};
ghost use Rattle.jl_parse.specs.inner.Steps.{GivesExpression, within};

use crate::depth::Depth;
use crate::nodes::{
    assign_node, comma_node, conditional_node, infix_operator_node, postfix_node, prefix_node,
    target, unary_node,
};
use crate::operators::{unary_op, update_op};
use crate::part::Part;
use crate::primary::left;
use crate::refusal::{Read, Stop};
use crate::terminals::{is_colon, is_comma, is_question};
use crate::tokens::Tokens;
use jl_ast::Expr;
use std::alloc::Global;

/// An AssignmentExpression (11.13) one level deeper.
#[cycle(parser)]
#[tactic(auto, using(crate::proofs::Levels::levels))]
pub fn inner_assignment(
    alloc: Global,
    tokens: &Tokens,
    depth: Depth,
    no_in: bool,
    at: usize,
) -> Read<Part<Box<Expr>>>
    ensures { GivesExpression result ((within tokens.now depth).assignment no_in at) }
{
    if !tokens.has_room(depth, at) {
        return Err(Stop::At(at));
    }
    assignment(alloc, tokens, depth.inside(), no_in, at)
}

#[cycle(parser)]
#[tactic(auto, using(crate::proofs::Levels::levels))]
fn inner_unary(alloc: Global, tokens: &Tokens, depth: Depth, at: usize) -> Read<Part<Box<Expr>>>
    ensures { GivesExpression result ((within tokens.now depth).unary at) }
{
    if !tokens.has_room(depth, at) {
        return Err(Stop::At(at));
    }
    unary(alloc, tokens, depth.inside(), at)
}

#[cycle(parser)]
#[tactic(auto, using(crate::proofs::Levels::levels))]
fn inner_binary(
    alloc: Global,
    tokens: &Tokens,
    depth: Depth,
    no_in: bool,
    loosest: u32,
    at: usize,
) -> Read<Part<Box<Expr>>>
    ensures { GivesExpression result ((within tokens.now depth).binary no_in loosest at) }
{
    if !tokens.has_room(depth, at) {
        return Err(Stop::At(at));
    }
    binary(alloc, tokens, depth.inside(), no_in, loosest, at)
}

// A PostfixExpression (11.3).
#[cycle(parser)]
#[tactic(auto, using(jl_ast::proofs::Views::nodes), unfolding(jl_grammar::specs::Reader::postfix_at, jl_grammar::specs::Reader::postfix_by))]
fn postfix(alloc: Global, tokens: &Tokens, depth: Depth, at: usize) -> Read<Part<Box<Expr>>>
    ensures { GivesExpression result (postfix_at tokens.now (within tokens.now depth) depth.levels at) }
{
    let (operand, end) = left(alloc, tokens, depth, true, at)?;
    let Some(up) = update_op(tokens.terminal(end)) else {
        return Ok((operand, end));
    };
    if tokens.line_before(end) {
        return Ok((operand, end));
    }
    let target = target(alloc, operand, end)?;
    let next = tokens.after(end);
    postfix_node(alloc, tokens, depth, at, up, target, next)
}

// A UnaryExpression (11.4).
#[cycle(parser)]
#[tactic(auto, using(jl_ast::proofs::Views::nodes), unfolding(jl_grammar::specs::Reader::unary_at, jl_grammar::specs::Reader::unary_by))]
fn unary(alloc: Global, tokens: &Tokens, depth: Depth, at: usize) -> Read<Part<Box<Expr>>>
    ensures { GivesExpression result (unary_at tokens.now (within tokens.now depth) depth.levels at) }
{
    let terminal = tokens.terminal(at);
    if let Some(op) = unary_op(terminal) {
        let (operand, end) = inner_unary(alloc, tokens, depth, tokens.after(at))?;
        return unary_node(alloc, tokens, depth, at, op, operand, end);
    }
    let Some(up) = update_op(terminal) else {
        return postfix(alloc, tokens, depth, at);
    };
    let (operand, end) = left(alloc, tokens, depth, true, tokens.after(at))?;
    let target = target(alloc, operand, at)?;
    prefix_node(alloc, tokens, depth, at, up, target, end)
}

// Operands with infix operators between them that are no looser than `loosest` (11.5 to 11.11).
#[cycle(parser)]
#[tactic(auto, using(jl_ast::proofs::Views::nodes, crate::proofs::Turns::binary_loop), unfolding(jl_grammar::specs::Reader::binary_at))]
fn binary(
    alloc: Global,
    tokens: &Tokens,
    depth: Depth,
    no_in: bool,
    loosest: u32,
    at: usize,
) -> Read<Part<Box<Expr>>>
    ensures { GivesExpression result (binary_at tokens.now (within tokens.now depth) no_in depth.levels loosest at) }
{
    let (mut operand, mut end) = unary(alloc, tokens, depth, at)?;
    let mut room = depth.levels;
    'parts: loop {
        let Some(infix_operator) = tokens.infix_operator(end, no_in) else {
            return Ok((operand, end));
        };
        let infix_precedence = infix_operator.infix_precedence();
        if infix_precedence > loosest {
            return Ok((operand, end));
        }
        if room == 0 {
            return Err(Stop::At(end));
        }
        room -= 1;
        let next = tokens.after(end);
        let (other, next) = inner_binary(alloc, tokens, depth, no_in, infix_precedence - 1, next)?;
        let (more, next) = infix_operator_node(
            alloc,
            tokens,
            depth,
            at,
            infix_operator,
            operand,
            other,
            next,
        )?;
        operand = more;
        end = next;
    }
}

// A ConditionalExpression (11.12).
#[cycle(parser)]
#[tactic(auto, using(jl_ast::proofs::Views::nodes), unfolding(jl_grammar::specs::Reader::conditional_at, jl_grammar::specs::Reader::conditional_from))]
fn conditional(
    alloc: Global,
    tokens: &Tokens,
    depth: Depth,
    no_in: bool,
    at: usize,
) -> Read<Part<Box<Expr>>>
    ensures { GivesExpression result (conditional_at tokens.now (within tokens.now depth) no_in depth.levels at) }
{
    let (test, end) = binary(alloc, tokens, depth, no_in, 10, at)?;
    if !is_question(tokens.terminal(end)) {
        return Ok((test, end));
    }
    let (first, end) = inner_assignment(alloc, tokens, depth, false, tokens.after(end))?;
    if !is_colon(tokens.terminal(end)) {
        return Err(Stop::At(end));
    }
    let (second, end) = inner_assignment(alloc, tokens, depth, no_in, tokens.after(end))?;
    conditional_node(alloc, tokens, depth, at, test, first, second, end)
}

// An AssignmentExpression (11.13).
#[cycle(parser)]
#[tactic(auto, using(jl_ast::proofs::Views::nodes), unfolding(jl_grammar::specs::Reader::assignment_at, jl_grammar::specs::Reader::assignment_by))]
fn assignment(
    alloc: Global,
    tokens: &Tokens,
    depth: Depth,
    no_in: bool,
    at: usize,
) -> Read<Part<Box<Expr>>>
    ensures { GivesExpression result (assignment_at tokens.now (within tokens.now depth) no_in depth.levels at) }
{
    let (left, end) = conditional(alloc, tokens, depth, no_in, at)?;
    let Some(op) = tokens.assign_op(end) else {
        return Ok((left, end));
    };
    let target = target(alloc, left, end)?;
    let (value, end) = inner_assignment(alloc, tokens, depth, no_in, tokens.after(end))?;
    assign_node(alloc, tokens, depth, at, op, target, value, end)
}

/// An Expression (11.14) one level deeper.
#[cycle(parser)]
#[tactic(auto, using(jl_ast::proofs::Views::nodes, crate::proofs::Levels::levels, crate::proofs::Turns::comma_loop), unfolding(jl_grammar::specs::Reader::expression_at))]
pub fn expression(
    alloc: Global,
    tokens: &Tokens,
    depth: Depth,
    no_in: bool,
    at: usize,
) -> Read<Part<Box<Expr>>>
    ensures { GivesExpression result ((within tokens.now depth).expression no_in at) }
{
    if !tokens.has_room(depth, at) {
        return Err(Stop::At(at));
    }
    let inside = depth.inside();
    let (mut left, mut end) = assignment(alloc, tokens, inside, no_in, at)?;
    let mut room = inside.levels;
    'parts: loop {
        if !is_comma(tokens.terminal(end)) {
            return Ok((left, end));
        }
        if room == 0 {
            return Err(Stop::At(end));
        }
        room -= 1;
        let next = tokens.after(end);
        let (right, next) = inner_assignment(alloc, tokens, inside, no_in, next)?;
        let (more, next) = comma_node(alloc, tokens, inside, at, left, right, next)?;
        left = more;
        end = next;
    }
}
