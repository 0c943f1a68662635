#![tactic(auto, using(jl_ast::proofs::Views::nodes))]

ghost use Rattle.std.specs.Prelude.{◌≡◌};
ghost use Rattle.jl_ast.specs.View.{view_body, view_functions, view_statement, view_statements, view_init};
ghost use Rattle.jl_ast.specs.View.{view_declarators, view_cases, view_optional, view_expression, view_expressions};
ghost use Rattle.jl_ast.specs.View.{view_target, view_items, view_entries};
ghost use Rattle.jl_scope.specs.Hoisting.{function_names};
ghost use Rattle.jl_scope.specs.Mentions.{mentions, forest_mentions, optional_mentions};
ghost use Rattle.jl_scope.specs.Names.{among, arguments_name};

use crate::names::is_arguments;
use jl_ast::{Body, Case, Entry, Expr, ExprKind, ForInit, Function, Ident, Stmt, StmtKind, Target};

/// Whether a body mentions `arguments`: as an expression, as what is assigned to, in the head of a `for-in`, or where a
/// variable, a function or the parameter of a `catch` is declared. What functions in it hold is not looked at. It takes
/// no memory, and recurses as deep as the body is high.
pub fn mentions_arguments(body: &Body) -> bool
    ensures { result ≡ mentions arguments_name (view_body body.now) }
{
    declares_arguments(body.functions.items()) || statements_mention(body.statements.items())
}

fn declares_arguments(functions: &[Function]) -> bool
    ensures { result ≡ among arguments_name (function_names (view_functions functions.now)) }
{
    for f in functions {
        if let Some(name) = &f.name {
            if is_arguments(name.text.units()) {
                return true;
            }
        }
    }
    false
}

#[cycle(statements)]
fn statements_mention(statements: &[Stmt]) -> bool
    ensures { result ≡ forest_mentions arguments_name (view_statements statements.now) }
{
    for s in statements {
        if statement_mentions(s) {
            return true;
        }
    }
    false
}

#[cycle(statements)]
fn statement_mentions(s: &Stmt) -> bool
    ensures { result ≡ mentions arguments_name (view_statement s.now) }
{
    match &s.kind {
        StmtKind::Empty | StmtKind::Continue(_) | StmtKind::Break(_) | StmtKind::Debugger => false,
        StmtKind::Var(declarators) => declarators_mention(declarators.items()),
        StmtKind::Expr(e) | StmtKind::Throw(e) => expression_mentions(e),
        StmtKind::Block(body) => statements_mention(body.items()),
        StmtKind::If(test, body, None) => {
            expression_mentions(test) || statements_mention(body.items())
        }
        StmtKind::If(test, body, Some(other)) => {
            expression_mentions(test)
                || statements_mention(body.items())
                || statements_mention(other.items())
        }
        StmtKind::DoWhile(body, test) => {
            statements_mention(body.items()) || expression_mentions(test)
        }
        StmtKind::While(test, body) => {
            expression_mentions(test) || statements_mention(body.items())
        }
        StmtKind::For(init, test, step, body) => {
            let in_body = statements_mention(body.items());
            init_mentions(init) || held_mentions(test) || held_mentions(step) || in_body
        }
        StmtKind::ForIn {
            name,
            object,
            body,
            ..
        } => {
            is_arguments(name.text.units())
                || expression_mentions(object)
                || statements_mention(body.items())
        }
        StmtKind::Return(e) => held_mentions(e),
        StmtKind::Labelled(_, s) => statement_mentions(s),
        StmtKind::Switch(e, cases) => expression_mentions(e) || cases_mention(cases.items()),
        StmtKind::Try {
            body,
            catch,
            finally,
        } => {
            let caught = match catch {
                Some((name, body)) => {
                    is_arguments(name.text.units()) || statements_mention(body.items())
                }
                None => false,
            };
            let last = match finally {
                Some(body) => statements_mention(body.items()),
                None => false,
            };
            statements_mention(body.items()) || caught || last
        }
    }
}

fn init_mentions(init: &ForInit) -> bool
    ensures { result ≡ mentions arguments_name (view_init init.now) }
{
    match init {
        ForInit::Nothing => false,
        ForInit::Expr(e) => expression_mentions(e),
        ForInit::Var(declarators) => declarators_mention(declarators.items()),
    }
}

fn declarators_mention(declarators: &[(Ident, Option<Expr>)]) -> bool
    ensures { result ≡ forest_mentions arguments_name (view_declarators declarators.now) }
{
    for d in declarators {
        if is_arguments(d.0.text.units()) || held_mentions(&d.1) {
            return true;
        }
    }
    false
}

#[cycle(statements)]
fn cases_mention(cases: &[Case]) -> bool
    ensures { result ≡ forest_mentions arguments_name (view_cases cases.now) }
{
    for c in cases {
        if held_mentions(&c.test) || statements_mention(c.body.items()) {
            return true;
        }
    }
    false
}

fn held_mentions(e: &Option<Expr>) -> bool
    ensures { result ≡ optional_mentions arguments_name (view_optional e.now) }
{
    match e {
        Some(e) => expression_mentions(e),
        None => false,
    }
}

#[cycle(expressions)]
fn expression_mentions(e: &Expr) -> bool
    ensures { result ≡ mentions arguments_name (view_expression e.now) }
{
    match &e.kind {
        ExprKind::This | ExprKind::Num(_) | ExprKind::Str(_) | ExprKind::Bool(_) => false,
        ExprKind::Null | ExprKind::Function(_) => false,
        ExprKind::Name(name) => is_arguments(name.units()),
        ExprKind::Array(items) => items_mention(items.items()),
        ExprKind::Object(entries) => entries_mention(entries.items()),
        ExprKind::Dot(e, _) | ExprKind::Unary(_, e) => expression_mentions(e),
        ExprKind::Call(f, arguments) | ExprKind::New(f, arguments) => {
            expression_mentions(f) || expressions_mention(arguments.items())
        }
        ExprKind::Update { target, .. } => target_mentions(target),
        ExprKind::Index(a, b)
        | ExprKind::Binary(_, a, b)
        | ExprKind::And(a, b)
        | ExprKind::Or(a, b)
        | ExprKind::Comma(a, b) => expression_mentions(a) || expression_mentions(b),
        ExprKind::Cond(a, b, c) => {
            expression_mentions(a) || expression_mentions(b) || expression_mentions(c)
        }
        ExprKind::Assign(_, t, e) => target_mentions(t) || expression_mentions(e),
    }
}

#[cycle(expressions)]
fn target_mentions(t: &Target) -> bool
    ensures { result ≡ mentions arguments_name (view_target t.now) }
{
    match t {
        Target::Name(name) => is_arguments(name.text.units()),
        Target::Dot(o, _, _) => expression_mentions(o),
        Target::Index(o, k, _) => expression_mentions(o) || expression_mentions(k),
    }
}

#[cycle(expressions)]
fn items_mention(items: &[Option<Expr>]) -> bool
    ensures { result ≡ forest_mentions arguments_name (view_items items.now) }
{
    for e in items {
        if let Some(e) = e {
            if expression_mentions(e) {
                return true;
            }
        }
    }
    false
}

#[cycle(expressions)]
fn entries_mention(entries: &[Entry]) -> bool
    ensures { result ≡ forest_mentions arguments_name (view_entries entries.now) }
{
    for entry in entries {
        if let Entry::Value(_, e) = entry {
            if expression_mentions(e) {
                return true;
            }
        }
    }
    false
}

#[cycle(expressions)]
fn expressions_mention(expressions: &[Expr]) -> bool
    ensures { result ≡ forest_mentions arguments_name (view_expressions expressions.now) }
{
    for e in expressions {
        if expression_mentions(e) {
            return true;
        }
    }
    false
}
