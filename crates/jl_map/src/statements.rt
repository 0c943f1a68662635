//! The walk over statements (clause 12).
#![tactic(auto, using(jl_ast::proofs::Views::nodes))]

ghost use Rattle.std.specs.Prelude.{◌≡◌, ◌+◌, ◌++◌, length, OnOk};
ghost use Rattle.jl_ast.specs.Tree as tree;
ghost use Rattle.jl_ast.specs.View.{view_branch, view_case, view_catch, view_declarator, view_init, view_optional};
ghost use Rattle.jl_ast.specs.View.{view_statement};
ghost use Rattle.jl_op.specs.IdMap.{entries, optional_entries, place_of};
ghost use Rattle.jl_op.specs.Ids.{id_count, optional_id_count};
ghost use Rattle.jl_map.specs.inner.Rows.{HasRoom};

use crate::expressions::{add_expression, add_optional, add_test, add_with};
use crate::lists::{add_cases, add_declarators, add_statements};
use crate::rows::{add_caught, add_row, add_tested};
use jl_ast::{Case, Expr, ForInit, Ident, Stmt, StmtKind};
use jl_op::{OpKind, OpMap};
use jl_text::{List, NoMemory, Span};

/// The rows of a statement (clause 12).
#[cycle(mapping)]
pub fn add_statement(map: &mut OpMap, s: &Stmt) -> Result<(), NoMemory>
    requires few { HasRoom map.old (id_count (view_statement s.now)) }
    ensures added { OnOk result (map.new ≡ map.old ++ entries place_of (view_statement s.now)) }
    ensures counted { OnOk result (length map.new ≡ length map.old + id_count (view_statement s.now)) }
{
    match &s.kind {
        StmtKind::Empty | StmtKind::Continue(_) | StmtKind::Break(_) | StmtKind::Debugger => Ok(()),
        StmtKind::Var(declarators) => add_declarators(map, declarators),
        StmtKind::Expr(e) => add_expression(map, e),
        StmtKind::Block(body) => add_statements(map, body),
        StmtKind::If(test, body, other) => {
            add_test(map, test)?;
            add_statements(map, body)?;
            add_branch(map, other)
        }
        StmtKind::DoWhile(body, test) => {
            add_row(map, OpKind::Conditional, test.span)?;
            add_statements(map, body)?;
            add_expression(map, test)
        }
        StmtKind::While(test, body) => {
            add_test(map, test)?;
            add_statements(map, body)
        }
        StmtKind::For(init, test, step, body) => {
            add_tested(map, test)?;
            add_init(map, init)?;
            add_optional(map, test)?;
            add_optional(map, step)?;
            add_statements(map, body)
        }
        StmtKind::ForIn { object, body, .. } => {
            add_with(map, OpKind::ForIn, s.span, object)?;
            add_statements(map, body)
        }
        StmtKind::Return(e) => add_return(map, e, s.span),
        StmtKind::Labelled(_, s) => add_statement(map, s),
        StmtKind::Switch(e, cases) => {
            add_expression(map, e)?;
            add_cases(map, cases)
        }
        StmtKind::Throw(e) => add_with(map, OpKind::Throw, s.span, e),
        StmtKind::Try {
            body,
            catch,
            finally,
        } => {
            add_caught(map, catch)?;
            add_statements(map, body)?;
            add_catch(map, catch)?;
            add_branch(map, finally)
        }
    }
}

/// A `return` (12.9), which has a row where it gives a value.
#[cycle(mapping)]
fn add_return(map: &mut OpMap, e: &Option<Expr>, span: Span) -> Result<(), NoMemory>
    requires few { HasRoom map.old (id_count (tree.return (view_optional e.now) span)) }
    ensures added { OnOk result (map.new ≡ map.old ++ entries place_of (tree.return (view_optional e.now) span)) }
    ensures counted { OnOk result (length map.new
        ≡ length map.old + id_count (tree.return (view_optional e.now) span)) }
{
    match e {
        Some(e) => add_with(map, OpKind::Return, span, e),
        None => Ok(()),
    }
}

/// The statements after `else` or `finally`.
#[cycle(mapping)]
fn add_branch(map: &mut OpMap, branch: &Option<List<Stmt>>) -> Result<(), NoMemory>
    requires few { HasRoom map.old (optional_id_count (view_branch branch.now)) }
    ensures added { OnOk result (map.new ≡ map.old ++ optional_entries place_of (view_branch branch.now)) }
    ensures counted { OnOk result (length map.new ≡ length map.old + optional_id_count (view_branch branch.now)) }
{
    match branch {
        Some(body) => add_statements(map, body),
        None => Ok(()),
    }
}

/// The statements of a `catch` (12.14). The row of its name comes before those of the whole `try`.
#[cycle(mapping)]
fn add_catch(map: &mut OpMap, catch: &Option<(Ident, List<Stmt>)>) -> Result<(), NoMemory>
    requires few { HasRoom map.old (optional_id_count (view_catch catch.now)) }
    ensures added { OnOk result (map.new ≡ map.old ++ optional_entries place_of (view_catch catch.now)) }
    ensures counted { OnOk result (length map.new ≡ length map.old + optional_id_count (view_catch catch.now)) }
{
    match catch {
        Some((_, body)) => add_statements(map, body),
        None => Ok(()),
    }
}

/// What stands first in the head of a `for` (12.6.3).
#[cycle(mapping)]
fn add_init(map: &mut OpMap, init: &ForInit) -> Result<(), NoMemory>
    requires few { HasRoom map.old (id_count (view_init init.now)) }
    ensures added { OnOk result (map.new ≡ map.old ++ entries place_of (view_init init.now)) }
    ensures counted { OnOk result (length map.new ≡ length map.old + id_count (view_init init.now)) }
{
    match init {
        ForInit::Nothing => Ok(()),
        ForInit::Expr(e) => add_expression(map, e),
        ForInit::Var(declarators) => add_declarators(map, declarators),
    }
}

/// A variable (12.2), whose initialiser is written to it.
#[cycle(mapping)]
pub fn add_declarator(map: &mut OpMap, d: &(Ident, Option<Expr>)) -> Result<(), NoMemory>
    requires few { HasRoom map.old (id_count (view_declarator d.now)) }
    ensures added { OnOk result (map.new ≡ map.old ++ entries place_of (view_declarator d.now)) }
    ensures counted { OnOk result (length map.new ≡ length map.old + id_count (view_declarator d.now)) }
{
    match &d.1 {
        Some(e) => add_with(map, OpKind::Write, d.0.span, e),
        None => Ok(()),
    }
}

/// A clause of a `switch` (12.11).
#[cycle(mapping)]
pub fn add_case(map: &mut OpMap, c: &Case) -> Result<(), NoMemory>
    requires few { HasRoom map.old (id_count (view_case c.now)) }
    ensures added { OnOk result (map.new ≡ map.old ++ entries place_of (view_case c.now)) }
    ensures counted { OnOk result (length map.new ≡ length map.old + id_count (view_case c.now)) }
{
    add_optional(map, &c.test)?;
    add_statements(map, &c.body)
}
