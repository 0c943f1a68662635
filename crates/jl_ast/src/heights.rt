#![tactic(auto, using(crate::proofs::Views::nodes))]

ghost use Rattle.std.specs.Prelude.{◌≡◌, ◌+◌};
ghost use Rattle.jl_ast.specs.Height.{height, forest_height, optional_height, program_height};
ghost use Rattle.jl_ast.specs.Saturated.{saturate_u32};
ghost use Rattle.jl_ast.specs.View.{view, view_expression, view_expressions, view_optional, view_items};
ghost use Rattle.jl_ast.specs.View.{view_target, view_entries, view_functions, view_body, view_statement};
ghost use Rattle.jl_ast.specs.View.{view_statements, view_init, view_declarators, view_cases};

use crate::tree::{
    Body, Case, Entry, Expr, ExprKind, ForInit, Function, Ident, Program, Stmt, StmtKind, Target,
};

/// The height of a program: that of its highest function or statement, and 0 where it has none. A node is one higher
/// than the highest of its parts; a function expression and its function are one node. A height past 2^32 - 1 is given
/// as 2^32 - 1. It recurses as deep as the program is high.
pub fn height(p: &Program) -> u32
    ensures { result ≡ saturate_u32 (program_height (view p.now)) }
{
    body_height(&p.body)
}

/// The height of a node whose highest part has this height.
fn above(parts: u32) -> u32
    ensures { result ≡ saturate_u32 (parts + 1) }
{
    parts.saturating_add(1)
}

#[cycle(height)]
fn body_height(b: &Body) -> u32
    ensures { result ≡ saturate_u32 (height (view_body b.now)) }
{
    functions_height(b.functions.items()).max(statements_height(b.statements.items()))
}

#[cycle(height)]
fn functions_height(functions: &[Function]) -> u32
    ensures { result ≡ saturate_u32 (forest_height (view_functions functions.now)) }
{
    let mut most = 0;
    for f in functions {
        most = most.max(body_height(&f.body).saturating_add(1));
    }
    most
}

#[cycle(height)]
fn statements_height(statements: &[Stmt]) -> u32
    ensures { result ≡ saturate_u32 (forest_height (view_statements statements.now)) }
{
    let mut most = 0;
    for s in statements {
        most = most.max(statement_height(s));
    }
    most
}

#[cycle(height)]
fn statement_height(s: &Stmt) -> u32
    ensures { result ≡ saturate_u32 (height (view_statement s.now)) }
{
    match &s.kind {
        StmtKind::Empty | StmtKind::Continue(_) | StmtKind::Break(_) | StmtKind::Debugger => 1,
        StmtKind::Var(declarators) => above(declarators_height(declarators.items())),
        StmtKind::Expr(e) => above(expression_height(e)),
        StmtKind::Block(body) => above(statements_height(body.items())),
        StmtKind::If(test, body, None) => {
            above(expression_height(test).max(statements_height(body.items())))
        }
        StmtKind::If(test, body, Some(other)) => {
            let held = statements_height(body.items()).max(statements_height(other.items()));
            above(expression_height(test).max(held))
        }
        StmtKind::DoWhile(body, test) | StmtKind::While(test, body) => {
            above(expression_height(test).max(statements_height(body.items())))
        }
        StmtKind::For(init, test, step, body) => {
            let turn = held_height(step).max(statements_height(body.items()));
            above(init_height(init).max(held_height(test).max(turn)))
        }
        StmtKind::ForIn { object, body, .. } => {
            above(expression_height(object).max(statements_height(body.items())))
        }
        StmtKind::Return(e) => above(held_height(e)),
        StmtKind::Labelled(_, s) => above(statement_height(s)),
        StmtKind::Switch(e, cases) => above(expression_height(e).max(cases_height(cases.items()))),
        StmtKind::Throw(e) => above(expression_height(e)),
        StmtKind::Try {
            body,
            catch,
            finally,
        } => {
            let caught = match catch {
                Some((_, body)) => statements_height(body.items()),
                None => 0,
            };
            let last = match finally {
                Some(body) => statements_height(body.items()),
                None => 0,
            };
            above(statements_height(body.items()).max(caught).max(last))
        }
    }
}

#[cycle(height)]
fn init_height(init: &ForInit) -> u32
    ensures { result ≡ saturate_u32 (height (view_init init.now)) }
{
    match init {
        ForInit::Nothing => 0,
        ForInit::Expr(e) => expression_height(e),
        ForInit::Var(declarators) => declarators_height(declarators.items()),
    }
}

#[cycle(height)]
fn declarators_height(declarators: &[(Ident, Option<Expr>)]) -> u32
    ensures { result ≡ saturate_u32 (forest_height (view_declarators declarators.now)) }
{
    let mut most = 0;
    for d in declarators {
        if let Some(e) = &d.1 {
            most = most.max(expression_height(e));
        }
    }
    most
}

#[cycle(height)]
fn cases_height(cases: &[Case]) -> u32
    ensures { result ≡ saturate_u32 (forest_height (view_cases cases.now)) }
{
    let mut most = 0;
    for c in cases {
        most = most.max(held_height(&c.test).max(statements_height(c.body.items())));
    }
    most
}

#[cycle(height)]
fn held_height(e: &Option<Expr>) -> u32
    ensures { result ≡ saturate_u32 (optional_height (view_optional e.now)) }
{
    match e {
        Some(e) => expression_height(e),
        None => 0,
    }
}

#[cycle(height)]
fn expression_height(e: &Expr) -> u32
    ensures { result ≡ saturate_u32 (height (view_expression e.now)) }
{
    match &e.kind {
        ExprKind::This | ExprKind::Name(_) | ExprKind::Num(_) => 1,
        ExprKind::Str(_) | ExprKind::Bool(_) | ExprKind::Null => 1,
        ExprKind::Array(items) => above(items_height(items.items())),
        ExprKind::Object(entries) => above(entries_height(entries.items())),
        ExprKind::Function(f) => above(body_height(&f.body)),
        ExprKind::Dot(o, _) => above(expression_height(o)),
        ExprKind::Call(f, arguments) | ExprKind::New(f, arguments) => {
            above(expression_height(f).max(expressions_height(arguments.items())))
        }
        ExprKind::Unary(_, e) => above(expression_height(e)),
        ExprKind::Update { target, .. } => above(target_height(target)),
        ExprKind::Index(a, b)
        | ExprKind::Binary(_, a, b)
        | ExprKind::And(a, b)
        | ExprKind::Or(a, b)
        | ExprKind::Comma(a, b) => above(expression_height(a).max(expression_height(b))),
        ExprKind::Cond(a, b, c) => {
            above(
                expression_height(a)
                    .max(expression_height(b))
                    .max(expression_height(c)),
            )
        }
        ExprKind::Assign(_, t, e) => above(target_height(t).max(expression_height(e))),
    }
}

#[cycle(height)]
fn target_height(t: &Target) -> u32
    ensures { result ≡ saturate_u32 (height (view_target t.now)) }
{
    match t {
        Target::Name(_) => 0,
        Target::Dot(o, _, _) => above(expression_height(o)),
        Target::Index(o, k, _) => above(expression_height(o).max(expression_height(k))),
    }
}

#[cycle(height)]
fn items_height(items: &[Option<Expr>]) -> u32
    ensures { result ≡ saturate_u32 (forest_height (view_items items.now)) }
{
    let mut most = 0;
    for e in items {
        if let Some(e) = e {
            most = most.max(expression_height(e));
        }
    }
    most
}

#[cycle(height)]
fn entries_height(entries: &[Entry]) -> u32
    ensures { result ≡ saturate_u32 (forest_height (view_entries entries.now)) }
{
    let mut most = 0;
    for entry in entries {
        let here = match entry {
            Entry::Value(_, e) => expression_height(e),
            Entry::Get(_, f) => body_height(&f.body).saturating_add(1),
            Entry::Set(_, f) => body_height(&f.body).saturating_add(1),
        };
        most = most.max(here);
    }
    most
}

#[cycle(height)]
fn expressions_height(expressions: &[Expr]) -> u32
    ensures { result ≡ saturate_u32 (forest_height (view_expressions expressions.now)) }
{
    let mut most = 0;
    for e in expressions {
        most = most.max(expression_height(e));
    }
    most
}
