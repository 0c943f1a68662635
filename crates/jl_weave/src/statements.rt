//! The walk over statements (clause 12). Each function gives the woven part, of one whose ids are the next ones; that
//! of a form is handed the statement with its parts.
#![tactic(auto, using(jl_ast::proofs::Views::nodes))]

ghost use Rattle.std.specs.Prelude.{◌≡◌, ◌+◌, IfOk, OnOk};
ghost use Rattle.jl_ast.specs.View.{view_branch, view_case, view_catch, view_declarator, view_init, view_statement};
ghost use Rattle.jl_op.specs.Ids.{id_count, optional_id_count};
ghost use Rattle.jl_weave.specs.inner.Bare.{bare_branch, bare_case, bare_catch, bare_declarator, bare_init};
ghost use Rattle.jl_weave.specs.inner.Bare.{bare_statement};
ghost use Rattle.jl_weave.specs.inner.Woven.{chosen_of, handler_at, woven_at, woven_if_present_at, HasIds};

use crate::copies::{copy_if_present, copy_of};
use crate::expressions::{weave_expression, weave_optional, weave_test};
use crate::ids::Ids;
use crate::lists::{weave_block, weave_cases, weave_declarators, weave_statements};
use crate::loops::{weave_do_while, weave_for, weave_for_in, weave_while};
use crate::statement_nodes as nodes;
use crate::weaver::Weaver;
use jl_ast::{Case, Expr, ForInit, Ident, Stmt, StmtKind};
use jl_op::OpKind;
use jl_text::{List, NoMemory};

/// A statement (clause 12).
#[cycle(weaving)]
pub fn weave_statement(w: &Weaver, s: &Stmt, ids: &mut Ids) -> Result<Stmt, NoMemory>
    requires few { HasIds ids.old.next (id_count (view_statement s.now)) }
    ensures woven { IfOk result (λ made. bare_statement made
        ≡ woven_at (chosen_of w.now) ids.old.next (view_statement s.now)) }
    ensures counted { OnOk result (ids.new.next ≡ ids.old.next + id_count (view_statement s.now)) }
{
    let span = s.span;
    match &s.kind {
        StmtKind::Var(declarators) => {
            let declarators = weave_declarators(w, declarators.items(), ids)?;
            Ok(nodes::var_statement(declarators, span))
        }
        StmtKind::Empty => Ok(nodes::empty_statement(span)),
        StmtKind::Expr(e) => {
            let e = weave_expression(w, e, ids)?;
            Ok(nodes::expression_statement(e, span))
        }
        StmtKind::Block(body) => {
            let body = weave_block(w, body, ids)?;
            Ok(nodes::block(body, span))
        }
        StmtKind::If(test, body, other) => weave_if(w, s, test, body, other, ids),
        StmtKind::DoWhile(body, test) => weave_do_while(w, s, body, test, ids),
        StmtKind::While(test, body) => weave_while(w, s, test, body, ids),
        StmtKind::For(init, test, step, body) => weave_for(w, s, init, test, step, body, ids),
        StmtKind::ForIn {
            is_var,
            name,
            object,
            body,
        } => weave_for_in(w, s, *is_var, name, object, body, ids),
        StmtKind::Continue(label) => {
            let label = copy_if_present(w.alloc, label)?;
            Ok(nodes::continue_statement(label, span))
        }
        StmtKind::Break(label) => {
            let label = copy_if_present(w.alloc, label)?;
            Ok(nodes::break_statement(label, span))
        }
        StmtKind::Return(e) => weave_return(w, s, e, ids),
        StmtKind::Labelled(label, body) => weave_labelled(w, s, label, body, ids),
        StmtKind::Switch(e, cases) => weave_switch(w, s, e, cases, ids),
        StmtKind::Throw(e) => weave_throw(w, s, e, ids),
        StmtKind::Try {
            body,
            catch,
            finally,
        } => weave_try(w, s, body, catch, finally, ids),
        StmtKind::Debugger => Ok(nodes::debugger_statement(span)),
    }
}

/// `if` (12.5).
#[cycle(weaving)]
fn weave_if(
    w: &Weaver,
    s: &Stmt,
    test: &Expr,
    body: &List<Stmt>,
    other: &Option<List<Stmt>>,
    ids: &mut Ids,
) -> Result<Stmt, NoMemory>
    requires is { s.now.kind ≡ StmtKind.If test.now body.now other.now }
    requires few { HasIds ids.old.next (id_count (view_statement s.now)) }
    ensures woven { IfOk result (λ made. bare_statement made
        ≡ woven_at (chosen_of w.now) ids.old.next (view_statement s.now)) }
    ensures counted { OnOk result (ids.new.next ≡ ids.old.next + id_count (view_statement s.now)) }
{
    let test = weave_test(w, test, ids)?;
    let body = weave_block(w, body, ids)?;
    let other = weave_branch(w, other, ids)?;
    Ok(nodes::if_statement(test, body, other, s.span))
}

/// `return` (12.9).
#[cycle(weaving)]
fn weave_return(w: &Weaver, s: &Stmt, e: &Option<Expr>, ids: &mut Ids) -> Result<Stmt, NoMemory>
    requires is { s.now.kind ≡ StmtKind.Return e.now }
    requires few { HasIds ids.old.next (id_count (view_statement s.now)) }
    ensures woven { IfOk result (λ made. bare_statement made
        ≡ woven_at (chosen_of w.now) ids.old.next (view_statement s.now)) }
    ensures counted { OnOk result (ids.new.next ≡ ids.old.next + id_count (view_statement s.now)) }
{
    let id = ids.take_one_if(e.is_some());
    let e = weave_optional(w, e, ids)?;
    let e = w.told_if_present(OpKind::Return, "V", id, e, s.span)?;
    Ok(nodes::return_statement(e, s.span))
}

/// A statement with a label (12.12).
#[cycle(weaving)]
fn weave_labelled(
    w: &Weaver,
    s: &Stmt,
    label: &Ident,
    body: &Box<Stmt>,
    ids: &mut Ids,
) -> Result<Stmt, NoMemory>
    requires is { s.now.kind ≡ StmtKind.Labelled label.now body.now }
    requires few { HasIds ids.old.next (id_count (view_statement s.now)) }
    ensures woven { IfOk result (λ made. bare_statement made
        ≡ woven_at (chosen_of w.now) ids.old.next (view_statement s.now)) }
    ensures counted { OnOk result (ids.new.next ≡ ids.old.next + id_count (view_statement s.now)) }
{
    let label = copy_of(w.alloc, label)?;
    let body = weave_statement(w, body, ids)?;
    nodes::labelled_statement(w.alloc, label, body, s.span)
}

/// `switch` (12.11).
#[cycle(weaving)]
fn weave_switch(
    w: &Weaver,
    s: &Stmt,
    e: &Expr,
    cases: &List<Case>,
    ids: &mut Ids,
) -> Result<Stmt, NoMemory>
    requires is { s.now.kind ≡ StmtKind.Switch e.now cases.now }
    requires few { HasIds ids.old.next (id_count (view_statement s.now)) }
    ensures woven { IfOk result (λ made. bare_statement made
        ≡ woven_at (chosen_of w.now) ids.old.next (view_statement s.now)) }
    ensures counted { OnOk result (ids.new.next ≡ ids.old.next + id_count (view_statement s.now)) }
{
    let e = weave_expression(w, e, ids)?;
    let cases = weave_cases(w, cases.items(), ids)?;
    Ok(nodes::switch_statement(e, cases, s.span))
}

/// `throw` (12.13).
#[cycle(weaving)]
fn weave_throw(w: &Weaver, s: &Stmt, e: &Expr, ids: &mut Ids) -> Result<Stmt, NoMemory>
    requires is { s.now.kind ≡ StmtKind.Throw e.now }
    requires few { HasIds ids.old.next (id_count (view_statement s.now)) }
    ensures woven { IfOk result (λ made. bare_statement made
        ≡ woven_at (chosen_of w.now) ids.old.next (view_statement s.now)) }
    ensures counted { OnOk result (ids.new.next ≡ ids.old.next + id_count (view_statement s.now)) }
{
    let id = ids.take(1);
    let e = weave_expression(w, e, ids)?;
    let e = w.hook_value(OpKind::Throw, "K", id, e, s.span)?;
    Ok(nodes::throw_statement(e, s.span))
}

/// `try` (12.14).
#[cycle(weaving)]
fn weave_try(
    w: &Weaver,
    s: &Stmt,
    body: &List<Stmt>,
    catch: &Option<(Ident, List<Stmt>)>,
    finally: &Option<List<Stmt>>,
    ids: &mut Ids,
) -> Result<Stmt, NoMemory>
    requires is { s.now.kind ≡ StmtKind.Try body.now catch.now finally.now }
    requires few { HasIds ids.old.next (id_count (view_statement s.now)) }
    ensures woven { IfOk result (λ made. bare_statement made
        ≡ woven_at (chosen_of w.now) ids.old.next (view_statement s.now)) }
    ensures counted { OnOk result (ids.new.next ≡ ids.old.next + id_count (view_statement s.now)) }
{
    let id = ids.take_one_if(catch.is_some());
    let body = weave_block(w, body, ids)?;
    let catch = weave_catch(w, catch, id, ids)?;
    let finally = weave_branch(w, finally, ids)?;
    Ok(nodes::try_statement(body, catch, finally, s.span))
}

/// The statements after `else` or `finally`.
#[cycle(weaving)]
fn weave_branch(
    w: &Weaver,
    branch: &Option<List<Stmt>>,
    ids: &mut Ids,
) -> Result<Option<List<Stmt>>, NoMemory>
    requires few { HasIds ids.old.next (optional_id_count (view_branch branch.now)) }
    ensures woven { IfOk result (λ made. bare_branch made
        ≡ woven_if_present_at (chosen_of w.now) ids.old.next (view_branch branch.now)) }
    ensures counted { OnOk result (ids.new.next ≡ ids.old.next + optional_id_count (view_branch branch.now)) }
{
    match branch {
        Some(body) => Ok(Some(weave_block(w, body, ids)?)),
        None => Ok(None),
    }
}

/// The `catch` of a `try`, whose name has this id.
#[cycle(weaving)]
fn weave_catch(
    w: &Weaver,
    catch: &Option<(Ident, List<Stmt>)>,
    id: u32,
    ids: &mut Ids,
) -> Result<Option<(Ident, List<Stmt>)>, NoMemory>
    requires few { HasIds ids.old.next (optional_id_count (view_catch catch.now)) }
    ensures woven { IfOk result (λ made. bare_catch made
        ≡ handler_at (chosen_of w.now) id ids.old.next (view_catch catch.now)) }
    ensures counted { OnOk result (ids.new.next ≡ ids.old.next + optional_id_count (view_catch catch.now)) }
{
    match catch {
        Some((x, body)) => {
            let first = w.catch_hook(id, &x.text, x.span)?;
            let body = weave_statements(w, body.items(), first, ids)?;
            Ok(Some((copy_of(w.alloc, x)?, body)))
        }
        None => Ok(None),
    }
}

/// What stands first in the head of a `for`.
#[cycle(weaving)]
pub fn weave_init(w: &Weaver, init: &ForInit, ids: &mut Ids) -> Result<ForInit, NoMemory>
    requires few { HasIds ids.old.next (id_count (view_init init.now)) }
    ensures woven { IfOk result (λ made. bare_init made
        ≡ woven_at (chosen_of w.now) ids.old.next (view_init init.now)) }
    ensures counted { OnOk result (ids.new.next ≡ ids.old.next + id_count (view_init init.now)) }
{
    match init {
        ForInit::Nothing => Ok(nodes::nothing()),
        ForInit::Expr(e) => {
            let e = weave_expression(w, e, ids)?;
            Ok(nodes::init_expression(e))
        }
        ForInit::Var(declarators) => {
            let declarators = weave_declarators(w, declarators.items(), ids)?;
            Ok(nodes::init_var(declarators))
        }
    }
}

/// A variable (12.2), whose initialiser is written to it.
#[cycle(weaving)]
pub fn weave_declarator(
    w: &Weaver,
    d: &(Ident, Option<Expr>),
    ids: &mut Ids,
) -> Result<(Ident, Option<Expr>), NoMemory>
    requires few { HasIds ids.old.next (id_count (view_declarator d.now)) }
    ensures woven { IfOk result (λ made. bare_declarator made
        ≡ woven_at (chosen_of w.now) ids.old.next (view_declarator d.now)) }
    ensures counted { OnOk result (ids.new.next ≡ ids.old.next + id_count (view_declarator d.now)) }
{
    let id = ids.take_one_if(d.1.is_some());
    let x = copy_of(w.alloc, &d.0)?;
    let e = weave_optional(w, &d.1, ids)?;
    let e = w.initialiser(id, &d.0.text, e, d.0.span)?;
    Ok((x, e))
}

/// A clause of a `switch` (12.11).
#[cycle(weaving)]
pub fn weave_case(w: &Weaver, c: &Case, ids: &mut Ids) -> Result<Case, NoMemory>
    requires few { HasIds ids.old.next (id_count (view_case c.now)) }
    ensures woven { IfOk result (λ made. bare_case made ≡ woven_at (chosen_of w.now) ids.old.next (view_case c.now)) }
    ensures counted { OnOk result (ids.new.next ≡ ids.old.next + id_count (view_case c.now)) }
{
    let test = weave_optional(w, &c.test, ids)?;
    let body = weave_block(w, &c.body, ids)?;
    Ok(nodes::case(test, body))
}
