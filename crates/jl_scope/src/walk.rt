#![tactic(auto, using(jl_ast::proofs::Views::nodes, crate::proofs::Firsts::lists))]

ghost use Rattle.std.specs.Prelude.{◌≡◌, ◌++◌, OnOk};
ghost use Rattle.jl_ast.specs.View.{view_body, view_function, view_functions, view_statement, view_statements};
ghost use Rattle.jl_ast.specs.View.{view_init, view_declarators, view_cases, view_optional, view_expression};
ghost use Rattle.jl_ast.specs.View.{view_expressions, view_target, view_items, view_entry, view_entries};
ghost use Rattle.jl_scope.specs.EarlyErrors.{early_errors, forest_early_errors, optional_early_errors};
ghost use Rattle.jl_scope.specs.EarlyErrors.{label_early_errors, written_early_errors};
ghost use Rattle.jl_scope.specs.Scope.{is_loop, under_label, in_catch};
ghost use Rattle.jl_scope.specs.Kinds.{first_from};
ghost use Rattle.jl_scope.specs.inner.Steps.{scope_of};

use crate::found::Found;
use crate::heads::offer_head;
use crate::hoisting::is_strict;
use crate::keys::offer_keys;
use crate::scope::{Label, Scope, bind, bound_in_function, is_loop, with_label};
use jl_ast::{Body, Case, Entry, Expr, ExprKind, ForInit, Function, Ident, Stmt, StmtKind, Target};
use jl_text::NoMemory;

#[cycle(walk)]
pub(crate) fn walk_body<'a>(
    b: &'a Body,
    s: &Scope<'_>,
    found: &mut Found<'a>,
) -> Result<(), NoMemory>
    ensures { OnOk result (found.new ≡ first_from found.old (early_errors (scope_of s.now) (view_body b.now))) }
{
    walk_functions(b.functions.items(), s, found)?;
    walk_statements(b.statements.items(), s, found)
}

#[cycle(walk)]
fn walk_functions<'a>(
    functions: &'a [Function],
    s: &Scope<'_>,
    found: &mut Found<'a>,
) -> Result<(), NoMemory>
    ensures { OnOk result (found.new
        ≡ first_from found.old (forest_early_errors (scope_of s.now) (view_functions functions.now))) }
{
    for f in functions {
        walk_function(f, s, found)?;
    }
    Ok(())
}

#[cycle(walk)]
fn walk_function<'a>(f: &'a Function, s: &Scope<'_>, found: &mut Found<'a>) -> Result<(), NoMemory>
    ensures { OnOk result (found.new ≡ first_from found.old (early_errors (scope_of s.now) (view_function f.now))) }
{
    let params = f.params.items();
    let bound = bound_in_function(s.alloc, &f.name, params, &f.body, s.bound)?;
    let inner = Scope {
        alloc: s.alloc,
        strict: is_strict(s.strict, &f.body),
        in_function: true,
        in_loop: false,
        can_break: false,
        labels: &[],
        bound: bound.as_slice(),
    };
    offer_head(&f.name, params, &inner, found)?;
    walk_body(&f.body, &inner, found)
}

#[cycle(walk)]
fn walk_statements<'a>(
    statements: &'a [Stmt],
    s: &Scope<'_>,
    found: &mut Found<'a>,
) -> Result<(), NoMemory>
    ensures { OnOk result (found.new
        ≡ first_from found.old (forest_early_errors (scope_of s.now) (view_statements statements.now))) }
{
    for statement in statements {
        walk_statement(statement, s, found)?;
    }
    Ok(())
}

#[cycle(walk)]
fn walk_statement<'a>(
    statement: &'a Stmt,
    s: &Scope<'_>,
    found: &mut Found<'a>,
) -> Result<(), NoMemory>
    ensures { OnOk result (found.new
        ≡ first_from found.old (early_errors (scope_of s.now) (view_statement statement.now))) }
{
    match &statement.kind {
        StmtKind::Empty | StmtKind::Debugger => Ok(()),
        StmtKind::Var(declarators) => walk_declarators(declarators.items(), s, found),
        StmtKind::Expr(e) | StmtKind::Throw(e) => walk_expression(e, s, found),
        StmtKind::Block(body) => walk_statements(body.items(), s, found),
        StmtKind::If(test, body, other) => {
            walk_expression(test, s, found)?;
            walk_statements(body.items(), s, found)?;
            match other {
                Some(other) => walk_statements(other.items(), s, found),
                None => Ok(()),
            }
        }
        StmtKind::DoWhile(body, test) => {
            walk_statements(body.items(), &s.in_a_loop(), found)?;
            walk_expression(test, s, found)
        }
        StmtKind::While(test, body) => {
            walk_expression(test, s, found)?;
            walk_statements(body.items(), &s.in_a_loop(), found)
        }
        StmtKind::For(init, test, step, body) => {
            walk_init(init, s, found)?;
            walk_held(test, s, found)?;
            walk_held(step, s, found)?;
            walk_statements(body.items(), &s.in_a_loop(), found)
        }
        StmtKind::ForIn {
            is_var,
            name,
            object,
            body,
        } => {
            found.for_in_name(*is_var, &name.text, name.span, s);
            walk_expression(object, s, found)?;
            walk_statements(body.items(), &s.in_a_loop(), found)
        }
        StmtKind::Continue(label) => {
            found.continue_to(label, statement.span, s);
            Ok(())
        }
        StmtKind::Break(label) => {
            found.break_to(label, statement.span, s);
            Ok(())
        }
        StmtKind::Return(e) => {
            found.return_at(statement.span, s);
            walk_held(e, s, found)
        }
        StmtKind::Labelled(name, labelled) => walk_labelled(name, labelled, s, found),
        StmtKind::Switch(e, cases) => {
            walk_expression(e, s, found)?;
            walk_cases(cases.items(), &s.in_a_switch(), found)
        }
        StmtKind::Try {
            body,
            catch,
            finally,
        } => {
            walk_statements(body.items(), s, found)?;
            match catch {
                Some((name, body)) => walk_catch(name, body.items(), s, found)?,
                None => {}
            }
            match finally {
                Some(body) => walk_statements(body.items(), s, found),
                None => Ok(()),
            }
        }
    }
}

#[cycle(walk)]
fn walk_labelled<'a>(
    name: &'a Ident,
    labelled: &'a Stmt,
    s: &Scope<'_>,
    found: &mut Found<'a>,
) -> Result<(), NoMemory>
    ensures { OnOk result (found.new ≡ first_from found.old (label_early_errors
        (scope_of s.now) name.now.text name.now.span
        ++ early_errors (under_label (scope_of s.now) name.now.text (is_loop (view_statement labelled.now)))
        (view_statement labelled.now))) }
{
    found.label(&name.text, name.span, s);
    let label = Label {
        name: name.text.units(),
        of_loop: is_loop(labelled),
    };
    let labels = with_label(s.alloc, label, s.labels)?;
    let inner = Scope {
        labels: labels.as_slice(),
        ..*s
    };
    walk_statement(labelled, &inner, found)
}

#[cycle(walk)]
fn walk_catch<'a>(
    name: &'a Ident,
    body: &'a [Stmt],
    s: &Scope<'_>,
    found: &mut Found<'a>,
) -> Result<(), NoMemory>
    ensures { OnOk result (found.new ≡ first_from found.old (written_early_errors
        (scope_of s.now) name.now.text name.now.span
        ++ forest_early_errors (in_catch (scope_of s.now) name.now.text) (view_statements body.now))) }
{
    found.written_name(&name.text, name.span, s);
    let bound = bind(s.alloc, s.bound, &[&name.text])?;
    let inner = Scope {
        bound: bound.as_slice(),
        ..*s
    };
    walk_statements(body, &inner, found)
}

#[cycle(walk)]
fn walk_init<'a>(init: &'a ForInit, s: &Scope<'_>, found: &mut Found<'a>) -> Result<(), NoMemory>
    ensures { OnOk result (found.new ≡ first_from found.old (early_errors (scope_of s.now) (view_init init.now))) }
{
    match init {
        ForInit::Nothing => Ok(()),
        ForInit::Expr(e) => walk_expression(e, s, found),
        ForInit::Var(declarators) => walk_declarators(declarators.items(), s, found),
    }
}

#[cycle(walk)]
fn walk_declarators<'a>(
    declarators: &'a [(Ident, Option<Expr>)],
    s: &Scope<'_>,
    found: &mut Found<'a>,
) -> Result<(), NoMemory>
    ensures { OnOk result (found.new
        ≡ first_from found.old (forest_early_errors (scope_of s.now) (view_declarators declarators.now))) }
{
    for d in declarators {
        found.written_name(&d.0.text, d.0.span, s);
        match &d.1 {
            Some(e) => walk_expression(e, s, found)?,
            None => {}
        }
    }
    Ok(())
}

#[cycle(walk)]
fn walk_cases<'a>(cases: &'a [Case], s: &Scope<'_>, found: &mut Found<'a>) -> Result<(), NoMemory>
    ensures { OnOk result (found.new
        ≡ first_from found.old (forest_early_errors (scope_of s.now) (view_cases cases.now))) }
{
    for c in cases {
        walk_held(&c.test, s, found)?;
        walk_statements(c.body.items(), s, found)?;
    }
    Ok(())
}

#[cycle(walk)]
fn walk_held<'a>(e: &'a Option<Expr>, s: &Scope<'_>, found: &mut Found<'a>) -> Result<(), NoMemory>
    ensures { OnOk result (found.new
        ≡ first_from found.old (optional_early_errors (scope_of s.now) (view_optional e.now))) }
{
    match e {
        Some(e) => walk_expression(e, s, found),
        None => Ok(()),
    }
}

#[cycle(walk)]
fn walk_expression<'a>(e: &'a Expr, s: &Scope<'_>, found: &mut Found<'a>) -> Result<(), NoMemory>
    ensures { OnOk result (found.new
        ≡ first_from found.old (early_errors (scope_of s.now) (view_expression e.now))) }
{
    match &e.kind {
        ExprKind::This | ExprKind::Num(_) | ExprKind::Str(_) => Ok(()),
        ExprKind::Bool(_) | ExprKind::Null => Ok(()),
        ExprKind::Name(name) => {
            found.read_name(name, e.span, s);
            Ok(())
        }
        ExprKind::Array(items) => walk_items(items.items(), s, found),
        ExprKind::Object(entries) => {
            offer_keys(entries.items(), s, found)?;
            walk_entries(entries.items(), s, found)
        }
        ExprKind::Function(f) => walk_function(f, s, found),
        ExprKind::Dot(o, _) => walk_expression(o, s, found),
        ExprKind::Call(f, arguments) | ExprKind::New(f, arguments) => {
            walk_expression(f, s, found)?;
            walk_expressions(arguments.items(), s, found)
        }
        ExprKind::Unary(op, operand) => {
            found.delete(*op, operand, e.span, s);
            walk_expression(operand, s, found)
        }
        ExprKind::Update { target, .. } => walk_target(target, s, found),
        ExprKind::Index(a, b)
        | ExprKind::Binary(_, a, b)
        | ExprKind::And(a, b)
        | ExprKind::Or(a, b)
        | ExprKind::Comma(a, b) => {
            walk_expression(a, s, found)?;
            walk_expression(b, s, found)
        }
        ExprKind::Cond(a, b, c) => {
            walk_expression(a, s, found)?;
            walk_expression(b, s, found)?;
            walk_expression(c, s, found)
        }
        ExprKind::Assign(_, t, e) => {
            walk_target(t, s, found)?;
            walk_expression(e, s, found)
        }
    }
}

#[cycle(walk)]
fn walk_target<'a>(t: &'a Target, s: &Scope<'_>, found: &mut Found<'a>) -> Result<(), NoMemory>
    ensures { OnOk result (found.new ≡ first_from found.old (early_errors (scope_of s.now) (view_target t.now))) }
{
    match t {
        Target::Name(name) => {
            found.target(&name.text, name.span, s);
            Ok(())
        }
        Target::Dot(o, _, _) => walk_expression(o, s, found),
        Target::Index(o, k, _) => {
            walk_expression(o, s, found)?;
            walk_expression(k, s, found)
        }
    }
}

#[cycle(walk)]
fn walk_items<'a>(
    items: &'a [Option<Expr>],
    s: &Scope<'_>,
    found: &mut Found<'a>,
) -> Result<(), NoMemory>
    ensures { OnOk result (found.new
        ≡ first_from found.old (forest_early_errors (scope_of s.now) (view_items items.now))) }
{
    for e in items {
        match e {
            Some(e) => walk_expression(e, s, found)?,
            None => {}
        }
    }
    Ok(())
}

#[cycle(walk)]
fn walk_entries<'a>(
    entries: &'a [Entry],
    s: &Scope<'_>,
    found: &mut Found<'a>,
) -> Result<(), NoMemory>
    ensures { OnOk result (found.new
        ≡ first_from found.old (forest_early_errors (scope_of s.now) (view_entries entries.now))) }
{
    for entry in entries {
        walk_entry(entry, s, found)?;
    }
    Ok(())
}

#[cycle(walk)]
fn walk_entry<'a>(entry: &'a Entry, s: &Scope<'_>, found: &mut Found<'a>) -> Result<(), NoMemory>
    ensures { OnOk result (found.new ≡ first_from found.old (early_errors (scope_of s.now) (view_entry entry.now))) }
{
    match entry {
        Entry::Value(_, e) => walk_expression(e, s, found),
        Entry::Get(_, f) | Entry::Set(_, f) => walk_function(f, s, found),
    }
}

#[cycle(walk)]
fn walk_expressions<'a>(
    expressions: &'a [Expr],
    s: &Scope<'_>,
    found: &mut Found<'a>,
) -> Result<(), NoMemory>
    ensures { OnOk result (found.new
        ≡ first_from found.old (forest_early_errors (scope_of s.now) (view_expressions expressions.now))) }
{
    for e in expressions {
        walk_expression(e, s, found)?;
    }
    Ok(())
}
