//! Statements (clause 12) but those with a head of three parts and those with clauses.
#![tactic(auto, using(jl_ast::proofs::Views::nodes))]

ghost use Rattle.std.specs.Prelude.{◌≡◌, false, length, option_map, suc, true};
ghost use Rattle.jl_ast.specs.Tree as tree;
ghost use Rattle.jl_ast.specs.View.{view_declarator, view_declarators, view_ident, view_statement, view_statements};
ghost use Rattle.jl_grammar.specs.Next.{is_colon};
ghost use Rattle.jl_grammar.specs.Reader.{Deeper, block_at, break_at, continue_at, declaration_at, declarations_from};
ghost use Rattle.jl_grammar.specs.Reader.{do_at, ends_at, express_at, if_at, label_at, named_at, return_at};
ghost use Rattle.jl_grammar.specs.Reader.{statement_by, statements_from, sub_at, throw_at, var_at, while_at};
ghost use Rattle.jl_grammar.specs.Tokens.{terminal_at, span};
ghost use Rattle.jl_grammar.specs.declared.terminal.Terminal.TheVariants as Terminal;
ghost use Rattle.jl_grammar.specs.declared.word.Word.TheVariants as Word;
ghost use Rattle.jl_token.specs.declared.punct.Punct.TheVariants as Punct;
ghost use Rattle.jl_parse.specs.inner.Steps.{Gives, GivesStatement, is_end, within};

use crate::clauses::{switch_statement, try_statement};
use crate::depth::Depth;
use crate::expressions::{expression, inner_assignment};
use crate::loops::for_statement;
use crate::part::{Part, push_declarator, push_statement};
use crate::primary::head;
use crate::refusal::{Read, Stop};
use crate::statement_nodes::{
    bare_declarator, block_node, do_node, expression_statement_node, if_else_node, if_node,
    initialised_declarator, labelled_node, leaf_statement, return_node, throw_node, var_node,
    while_node,
};
use crate::terminals::{
    ends_list, ends_statement, is_close_brace, is_colon, is_comma, is_else, is_equals,
    is_identifier, is_open_brace, is_semicolon, is_while,
};
use crate::tokens::Tokens;
use jl_ast::{Expr, Ident, Stmt, StmtKind};
use jl_grammar::{Terminal, Word};
use jl_text::List;
use jl_token::Punct;
use std::alloc::Global;

/// The place after a semicolon that is there or is inserted (7.9.1).
#[tactic(auto, unfolding(jl_grammar::specs::Reading::ends_at))]
pub fn ends(tokens: &Tokens, at: usize) -> Option<usize>
    ensures { result ≡ ends_at tokens.now at }
{
    let terminal = tokens.terminal(at);
    if is_semicolon(terminal) {
        return Some(tokens.after(at));
    }
    if ends_statement(terminal) || tokens.line_before(at) {
        Some(at)
    } else {
        None
    }
}

/// The statements up to what ends their list.
#[cycle(parser)]
#[tactic(auto, using(crate::proofs::Lists::statements_loop))]
pub fn statements(alloc: Global, tokens: &Tokens, depth: Depth, at: usize) -> Read<Part<List<Stmt>>>
    ensures { Gives (λ x. (view_statements x.0, x.1)) result
        (statements_from tokens.now (within tokens.now depth) (length tokens.now) at) }
{
    let mut statements = Part::flat(List::new(alloc));
    let mut next = at;
    let mut room = tokens.len();
    'parts: loop {
        if ends_list(tokens.terminal(next)) {
            return Ok((statements, next));
        }
        if room == 0 {
            return Err(Stop::At(next));
        }
        room -= 1;
        let (s, end) = statement(alloc, tokens, depth, next)?;
        push_statement(&mut statements, s)?;
        next = end;
    }
}

/// The statements between `{` and `}` (12.1).
#[cycle(parser)]
#[tactic(auto, unfolding(jl_grammar::specs::Reader::block_at))]
pub fn block(alloc: Global, tokens: &Tokens, depth: Depth, at: usize) -> Read<Part<List<Stmt>>>
    ensures { Gives (λ x. (view_statements x.0, x.1)) result (block_at tokens.now (within tokens.now depth) at) }
{
    if !is_open_brace(tokens.terminal(at)) {
        return Err(Stop::At(at));
    }
    let (body, end) = statements(alloc, tokens, depth, tokens.after(at))?;
    if is_close_brace(tokens.terminal(end)) {
        Ok((body, tokens.after(end)))
    } else {
        Err(Stop::At(end))
    }
}

/// A statement under another: the statements of a block, or the one statement.
#[cycle(parser)]
#[tactic(auto, unfolding(jl_grammar::specs::Reader::sub_at))]
pub fn sub(alloc: Global, tokens: &Tokens, depth: Depth, at: usize) -> Read<Part<List<Stmt>>>
    ensures { Gives (λ x. (view_statements x.0, x.1)) result (sub_at tokens.now (within tokens.now depth) at) }
{
    if is_open_brace(tokens.terminal(at)) {
        return block(alloc, tokens, depth, at);
    }
    let (s, end) = statement(alloc, tokens, depth, at)?;
    let mut body = Part::flat(List::new(alloc));
    push_statement(&mut body, s)?;
    Ok((body, end))
}

// A variable with its initialiser (12.2).
#[cycle(parser)]
#[tactic(auto, unfolding(jl_grammar::specs::Reader::declaration_at))]
fn declarator(
    alloc: Global,
    tokens: &Tokens,
    depth: Depth,
    no_in: bool,
    at: usize,
) -> Read<Part<(Ident, Option<Expr>)>>
    ensures { Gives (λ x. (view_declarator x.0, x.1)) result
        (declaration_at tokens.now (within tokens.now depth) no_in at) }
{
    if !is_identifier(tokens.terminal(at)) {
        return Err(Stop::At(at));
    }
    let name = tokens.ident(alloc, at)?;
    let end = tokens.after(at);
    if is_equals(tokens.terminal(end)) {
        let (e, end) = inner_assignment(alloc, tokens, depth, no_in, tokens.after(end))?;
        Ok((initialised_declarator(name, e), end))
    } else {
        Ok((bare_declarator(name), end))
    }
}

/// The variables of a `var` (12.2).
#[cycle(parser)]
#[tactic(auto, using(crate::proofs::Lists::declarations_loop))]
pub fn declarators(
    alloc: Global,
    tokens: &Tokens,
    depth: Depth,
    no_in: bool,
    at: usize,
) -> Read<Part<List<(Ident, Option<Expr>)>>>
    ensures { Gives (λ x. (view_declarators x.0, x.1)) result
        (declarations_from tokens.now (within tokens.now depth) no_in (length tokens.now) at) }
{
    let mut declarators = Part::flat(List::new(alloc));
    let mut next = at;
    let mut room = tokens.len();
    'parts: loop {
        if room == 0 {
            return Err(Stop::At(next));
        }
        room -= 1;
        let (d, end) = declarator(alloc, tokens, depth, no_in, next)?;
        push_declarator(&mut declarators, d)?;
        if !is_comma(tokens.terminal(end)) {
            return Ok((declarators, end));
        }
        next = tokens.after(end);
    }
}

// A `var` statement (12.2).
#[cycle(parser)]
#[tactic(auto, using(jl_ast::proofs::Views::nodes), unfolding(jl_grammar::specs::Reader::var_at))]
fn var_statement(alloc: Global, tokens: &Tokens, depth: Depth, at: usize) -> Read<Part<Stmt>>
    requires { is_end (terminal_at tokens.now at) ≡ false }
    ensures { GivesStatement result (var_at tokens.now (within tokens.now depth) at) }
{
    let (declarators, end) = declarators(alloc, tokens, depth, false, tokens.after(at))?;
    let Some(next) = ends(tokens, end) else {
        return Err(Stop::At(end));
    };
    var_node(tokens, depth, at, declarators, next)
}

// An expression statement (12.4).
#[cycle(parser)]
#[tactic(auto, using(jl_ast::proofs::Views::nodes), unfolding(jl_grammar::specs::Reader::express_at))]
fn expression_statement(alloc: Global, tokens: &Tokens, depth: Depth, at: usize) -> Read<Part<Stmt>>
    ensures { GivesStatement result (express_at tokens.now (within tokens.now depth) at) }
{
    let (e, end) = expression(alloc, tokens, depth, false, at)?;
    let Some(next) = ends(tokens, end) else {
        return Err(Stop::At(end));
    };
    expression_statement_node(tokens, depth, at, e, next)
}

// An `if` statement (12.5).
#[cycle(parser)]
#[tactic(auto, using(jl_ast::proofs::Views::nodes), unfolding(jl_grammar::specs::Reader::if_at, jl_grammar::specs::Reader::else_from))]
fn if_statement(alloc: Global, tokens: &Tokens, depth: Depth, at: usize) -> Read<Part<Stmt>>
    requires { is_end (terminal_at tokens.now at) ≡ false }
    ensures { GivesStatement result (if_at tokens.now (within tokens.now depth) at) }
{
    let (test, end) = head(alloc, tokens, depth, tokens.after(at))?;
    let (body, end) = sub(alloc, tokens, depth, end)?;
    if is_else(tokens.terminal(end)) {
        let (other, end) = sub(alloc, tokens, depth, tokens.after(end))?;
        if_else_node(tokens, depth, at, test, body, other, end)
    } else {
        if_node(tokens, depth, at, test, body, end)
    }
}

// A `do` statement (12.6.1).
#[cycle(parser)]
#[tactic(auto, using(jl_ast::proofs::Views::nodes), unfolding(jl_grammar::specs::Reader::do_at))]
fn do_statement(alloc: Global, tokens: &Tokens, depth: Depth, at: usize) -> Read<Part<Stmt>>
    requires { is_end (terminal_at tokens.now at) ≡ false }
    ensures { GivesStatement result (do_at tokens.now (within tokens.now depth) at) }
{
    let (body, end) = sub(alloc, tokens, depth, tokens.after(at))?;
    if !is_while(tokens.terminal(end)) {
        return Err(Stop::At(end));
    }
    let (test, end) = head(alloc, tokens, depth, tokens.after(end))?;
    let Some(after) = ends(tokens, end) else {
        return Err(Stop::At(end));
    };
    do_node(tokens, depth, at, body, test, after)
}

// A `while` statement (12.6.2).
#[cycle(parser)]
#[tactic(auto, using(jl_ast::proofs::Views::nodes), unfolding(jl_grammar::specs::Reader::while_at))]
fn while_statement(alloc: Global, tokens: &Tokens, depth: Depth, at: usize) -> Read<Part<Stmt>>
    requires { is_end (terminal_at tokens.now at) ≡ false }
    ensures { GivesStatement result (while_at tokens.now (within tokens.now depth) at) }
{
    let (test, end) = head(alloc, tokens, depth, tokens.after(at))?;
    let (body, end) = sub(alloc, tokens, depth, end)?;
    while_node(tokens, depth, at, test, body, end)
}

// The label of a `continue` or `break`, if there is one, and the end of the statement (12.7, 12.8).
#[tactic(auto, unfolding(jl_grammar::specs::Reading::label_at))]
fn label(alloc: Global, tokens: &Tokens, at: usize) -> Read<Option<Ident>>
    ensures { Gives (λ x. (option_map view_ident x.0, x.1)) result (label_at tokens.now at) }
{
    if is_identifier(tokens.terminal(at)) && !tokens.line_before(at) {
        let end = tokens.after(at);
        let Some(next) = ends(tokens, end) else {
            return Err(Stop::At(end));
        };
        Ok((Some(tokens.ident(alloc, at)?), next))
    } else {
        let Some(next) = ends(tokens, at) else {
            return Err(Stop::At(at));
        };
        Ok((None, next))
    }
}

// A `continue` statement (12.7).
#[tactic(auto, using(jl_ast::proofs::Views::nodes), unfolding(jl_grammar::specs::Reader::continue_at))]
fn continue_statement(alloc: Global, tokens: &Tokens, at: usize) -> Read<Part<Stmt>>
    requires { is_end (terminal_at tokens.now at) ≡ false }
    ensures { (d : Deeper) → GivesStatement result (continue_at tokens.now d at) }
{
    let (label, end) = label(alloc, tokens, tokens.after(at))?;
    let kind = StmtKind::Continue(label);
    Ok((leaf_statement(tokens, at, end, kind), end))
}

// A `break` statement (12.8).
#[tactic(auto, using(jl_ast::proofs::Views::nodes), unfolding(jl_grammar::specs::Reader::break_at))]
fn break_statement(alloc: Global, tokens: &Tokens, at: usize) -> Read<Part<Stmt>>
    requires { is_end (terminal_at tokens.now at) ≡ false }
    ensures { (d : Deeper) → GivesStatement result (break_at tokens.now d at) }
{
    let (label, end) = label(alloc, tokens, tokens.after(at))?;
    let kind = StmtKind::Break(label);
    Ok((leaf_statement(tokens, at, end, kind), end))
}

// A `return` statement (12.9).
#[cycle(parser)]
#[tactic(auto, using(jl_ast::proofs::Views::nodes), unfolding(jl_grammar::specs::Reader::return_at, jl_grammar::specs::Reader::return_by))]
fn return_statement(alloc: Global, tokens: &Tokens, depth: Depth, at: usize) -> Read<Part<Stmt>>
    requires { is_end (terminal_at tokens.now at) ≡ false }
    ensures { GivesStatement result (return_at tokens.now (within tokens.now depth) at) }
{
    let inside = tokens.after(at);
    if let Some(next) = ends(tokens, inside) {
        let kind = StmtKind::Return(None);
        return Ok((leaf_statement(tokens, at, next, kind), next));
    }
    let (e, end) = expression(alloc, tokens, depth, false, inside)?;
    let Some(next) = ends(tokens, end) else {
        return Err(Stop::At(end));
    };
    return_node(tokens, depth, at, e, next)
}

// A `throw` statement (12.13).
#[cycle(parser)]
#[tactic(auto, using(jl_ast::proofs::Views::nodes), unfolding(jl_grammar::specs::Reader::throw_at))]
fn throw_statement(alloc: Global, tokens: &Tokens, depth: Depth, at: usize) -> Read<Part<Stmt>>
    requires { is_end (terminal_at tokens.now at) ≡ false }
    ensures { GivesStatement result (throw_at tokens.now (within tokens.now depth) at) }
{
    let inside = tokens.after(at);
    if tokens.line_before(inside) {
        return Err(Stop::At(inside));
    }
    let (e, end) = expression(alloc, tokens, depth, false, inside)?;
    let Some(next) = ends(tokens, end) else {
        return Err(Stop::At(end));
    };
    throw_node(tokens, depth, at, e, next)
}

// A statement with a label (12.12), whose colon stands at `colon`.
#[inline(never)]
#[cycle(parser)]
#[tactic(auto, unfolding(jl_grammar::specs::Reader::named_at))]
fn labelled_statement(
    alloc: Global,
    tokens: &Tokens,
    depth: Depth,
    at: usize,
    colon: usize,
) -> Read<Part<Stmt>>
    requires place { colon ≡ suc at }
    requires name { is_end (terminal_at tokens.now at) ≡ false }
    requires colon { is_colon (terminal_at tokens.now colon) ≡ true }
    requires there { is_end (terminal_at tokens.now colon) ≡ false }
    ensures { GivesStatement result (named_at tokens.now (within tokens.now depth) at) }
{
    let label = tokens.ident(alloc, at)?;
    let (s, end) = statement(alloc, tokens, depth, tokens.after(colon))?;
    labelled_node(alloc, tokens, depth, at, label, s, end)
}

// A statement that begins with an identifier: with a label (12.12), or an expression.
#[inline(never)]
#[cycle(parser)]
#[tactic(auto, unfolding(jl_grammar::specs::Reader::named_at))]
fn named_statement(alloc: Global, tokens: &Tokens, depth: Depth, at: usize) -> Read<Part<Stmt>>
    requires { is_end (terminal_at tokens.now at) ≡ false }
    ensures { GivesStatement result (named_at tokens.now (within tokens.now depth) at) }
{
    let colon = tokens.after(at);
    if is_colon(tokens.terminal(colon)) {
        labelled_statement(alloc, tokens, depth, at, colon)
    } else {
        expression_statement(alloc, tokens, depth, at)
    }
}

// A block as a statement (12.1).
#[cycle(parser)]
#[tactic(auto, using(jl_ast::proofs::Views::nodes), unfolding(jl_grammar::specs::Reader::statement_by))]
fn block_statement(alloc: Global, tokens: &Tokens, depth: Depth, at: usize) -> Read<Part<Stmt>>
    ensures { GivesStatement result
        (statement_by tokens.now (within tokens.now depth) at (Terminal.Punct Punct.LeftBrace)) }
{
    let (body, end) = block(alloc, tokens, depth, at)?;
    block_node(tokens, depth, at, body, end)
}

// The empty statement (12.3).
fn empty_statement(tokens: &Tokens, at: usize) -> (Part<Stmt>, usize)
    requires { is_end (terminal_at tokens.now at) ≡ false }
    ensures place { result.1 ≡ suc at }
    ensures is { view_statement result.0 ≡ tree.empty (span tokens.now at (suc at)) }
{
    let end = tokens.after(at);
    (leaf_statement(tokens, at, end, StmtKind::Empty), end)
}

// A `debugger` statement (12.15).
#[tactic(auto, using(jl_ast::proofs::Views::nodes), unfolding(jl_grammar::specs::Reader::statement_by))]
fn debugger_statement(tokens: &Tokens, at: usize) -> Read<Part<Stmt>>
    requires { is_end (terminal_at tokens.now at) ≡ false }
    ensures { (d : Deeper) → GivesStatement result (statement_by tokens.now d at (Terminal.Word Word.Debugger)) }
{
    let end = tokens.after(at);
    let Some(next) = ends(tokens, end) else {
        return Err(Stop::At(end));
    };
    Ok((leaf_statement(tokens, at, next, StmtKind::Debugger), next))
}

/// A statement (clause 12) one level deeper.
#[cycle(parser)]
#[tactic(auto, using(crate::proofs::Levels::levels), unfolding(jl_grammar::specs::Reader::statement_at, jl_grammar::specs::Reader::statement_by))]
pub fn statement(alloc: Global, tokens: &Tokens, depth: Depth, at: usize) -> Read<Part<Stmt>>
    ensures { GivesStatement result ((within tokens.now depth).statement at) }
{
    if !tokens.has_room(depth, at) {
        return Err(Stop::At(at));
    }
    let inside = depth.inside();
    match tokens.terminal(at) {
        Terminal::Punct(Punct::LeftBrace) => block_statement(alloc, tokens, inside, at),
        Terminal::Punct(Punct::Semicolon) => Ok(empty_statement(tokens, at)),
        Terminal::Identifier | Terminal::Get | Terminal::Set => named_statement(
            alloc, tokens, inside, at,
        ),
        Terminal::Word(word) => word_statement(alloc, tokens, inside, at, word),
        _ => expression_statement(alloc, tokens, inside, at),
    }
}

// A statement that begins with a reserved word.
#[inline(never)]
#[cycle(parser)]
#[tactic(auto, unfolding(jl_grammar::specs::Reader::statement_by))]
fn word_statement(
    alloc: Global,
    tokens: &Tokens,
    depth: Depth,
    at: usize,
    word: Word,
) -> Read<Part<Stmt>>
    requires { terminal_at tokens.now at ≡ Terminal.Word word }
    ensures { GivesStatement result (statement_by tokens.now (within tokens.now depth) at (Terminal.Word word)) }
{
    match word {
        Word::Var => var_statement(alloc, tokens, depth, at),
        Word::If => if_statement(alloc, tokens, depth, at),
        Word::Do => do_statement(alloc, tokens, depth, at),
        Word::While => while_statement(alloc, tokens, depth, at),
        Word::For => for_statement(alloc, tokens, depth, at),
        Word::Continue => continue_statement(alloc, tokens, at),
        Word::Break => break_statement(alloc, tokens, at),
        Word::Return => return_statement(alloc, tokens, depth, at),
        Word::Switch => switch_statement(alloc, tokens, depth, at),
        Word::Throw => throw_statement(alloc, tokens, depth, at),
        Word::Try => try_statement(alloc, tokens, depth, at),
        Word::Debugger => debugger_statement(tokens, at),
        Word::Function => Err(Stop::At(at)),
        _ => expression_statement(alloc, tokens, depth, at),
    }
}
