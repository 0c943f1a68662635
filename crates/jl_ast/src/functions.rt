ghost use Rattle.std.specs.Prelude.{◌≡◌, [], ◌∷◌, ◌++◌, map, IfOk, OnOk};
ghost use Rattle.jl_ast.specs.inner.Found.{Adds};
ghost use Rattle.jl_ast.specs.Table.{table, functions_of, functions_of_forest, functions_of_optional};
ghost use Rattle.jl_ast.specs.View.{view, view_expression, view_expressions, view_optional, view_items};
ghost use Rattle.jl_ast.specs.View.{view_target, view_entry, view_entries, view_function, view_functions};
ghost use Rattle.jl_ast.specs.View.{view_body, view_statement, view_statements, view_init, view_declarators};
ghost use Rattle.jl_ast.specs.View.{view_cases};

use crate::tree::{
    Body, Case, Entry, Expr, ExprKind, ForInit, Function, Ident, Program, Stmt, StmtKind, Target,
};
use jl_text::NoMemory;
use std::alloc::Global;
use std::marker::Model;

/// The functions of a program in the order of their numbers: the declarations of a body come first, each before what
/// it holds, then the function expressions and accessors of its statements in the order of the text, each before what
/// it holds. In a program that is numbered the function at an index has that number. It is refused for want of memory
/// alone, and recurses as deep as the program is high.
pub fn function_table(alloc: Global, p: &Program) -> Result<Vec<&Function>, NoMemory>
    ensures { IfOk result (λ r. map view_function (map (λ f. f.now) r.items) ≡ table (view p.now)) }
{
    let mut found = Found::new(alloc);
    add_body(&p.body, &mut found)?;
    Ok(found.functions)
}

/// The functions that a walk has come to. Contracts see them as a list.
#[derive(Drop)]
struct Found<'a> {
    functions: Vec<&'a Function>,
}

impl<'a> Model for Found<'a> {
    ghost use Rattle.std.specs.Prelude.{List, map};
    ghost use Rattle.std.specs.Coded.{codes};
    ghost use Rattle.jl_ast.specs.declared.tree.Function.{Function};
    ghost use Rattle.jl_ast.specs.contracts.tree.Function as function;

    ghost Value = { List Function };

    ghost coded = { Prim.hlevel (codes, function.the_row.coded) };

    ghost view = { λ it. map (λ f. f.now) it.functions.items };
}

impl<'a> Found<'a> {
    fn new(alloc: Global) -> Found<'a>
        ensures { result ≡ [] }
    {
        Found {
            functions: Vec::new(alloc),
        }
    }

    fn push(&mut self, f: &'a Function) -> Result<(), NoMemory>
        ensures { OnOk result (self.new ≡ self.old ++ f.now ∷ []) }
    {
        self.functions.push(f)?;
        Ok(())
    }
}

#[cycle(functions)]
fn add_function<'a>(f: &'a Function, found: &mut Found<'a>) -> Result<(), NoMemory>
    ensures { OnOk result (Adds (functions_of (view_function f.now)) found.old found.new) }
{
    found.push(f)?;
    add_body(&f.body, found)
}

#[cycle(functions)]
fn add_body<'a>(b: &'a Body, found: &mut Found<'a>) -> Result<(), NoMemory>
    ensures { OnOk result (Adds (functions_of (view_body b.now)) found.old found.new) }
{
    add_functions(b.functions.items(), found)?;
    add_statements(b.statements.items(), found)
}

#[cycle(functions)]
fn add_functions<'a>(functions: &'a [Function], found: &mut Found<'a>) -> Result<(), NoMemory>
    ensures { OnOk result (Adds (functions_of_forest (view_functions functions.now)) found.old found.new) }
{
    for f in functions {
        add_function(f, found)?;
    }
    Ok(())
}

#[cycle(functions)]
fn add_statements<'a>(statements: &'a [Stmt], found: &mut Found<'a>) -> Result<(), NoMemory>
    ensures { OnOk result (Adds (functions_of_forest (view_statements statements.now)) found.old found.new) }
{
    for s in statements {
        add_statement(s, found)?;
    }
    Ok(())
}

#[cycle(functions)]
fn add_statement<'a>(s: &'a Stmt, found: &mut Found<'a>) -> Result<(), NoMemory>
    ensures { OnOk result (Adds (functions_of (view_statement s.now)) found.old found.new) }
{
    match &s.kind {
        StmtKind::Empty | StmtKind::Continue(_) | StmtKind::Break(_) | StmtKind::Debugger => Ok(()),
        StmtKind::Var(declarators) => add_declarators(declarators.items(), found),
        StmtKind::Expr(e) | StmtKind::Throw(e) => add_expression(e, found),
        StmtKind::Block(body) => add_statements(body.items(), found),
        StmtKind::If(test, body, other) => {
            add_expression(test, found)?;
            add_statements(body.items(), found)?;
            match other {
                Some(other) => add_statements(other.items(), found),
                None => Ok(()),
            }
        }
        StmtKind::DoWhile(body, test) => {
            add_statements(body.items(), found)?;
            add_expression(test, found)
        }
        StmtKind::While(test, body) => {
            add_expression(test, found)?;
            add_statements(body.items(), found)
        }
        StmtKind::For(init, test, step, body) => {
            add_init(init, found)?;
            add_held(test, found)?;
            add_held(step, found)?;
            add_statements(body.items(), found)
        }
        StmtKind::ForIn { object, body, .. } => {
            add_expression(object, found)?;
            add_statements(body.items(), found)
        }
        StmtKind::Return(e) => add_held(e, found),
        StmtKind::Labelled(_, s) => add_statement(s, found),
        StmtKind::Switch(e, cases) => {
            add_expression(e, found)?;
            add_cases(cases.items(), found)
        }
        StmtKind::Try {
            body,
            catch,
            finally,
        } => {
            add_statements(body.items(), found)?;
            match catch {
                Some((_, body)) => add_statements(body.items(), found)?,
                None => {}
            }
            match finally {
                Some(body) => add_statements(body.items(), found),
                None => Ok(()),
            }
        }
    }
}

#[cycle(functions)]
fn add_init<'a>(init: &'a ForInit, found: &mut Found<'a>) -> Result<(), NoMemory>
    ensures { OnOk result (Adds (functions_of (view_init init.now)) found.old found.new) }
{
    match init {
        ForInit::Nothing => Ok(()),
        ForInit::Expr(e) => add_expression(e, found),
        ForInit::Var(declarators) => add_declarators(declarators.items(), found),
    }
}

#[cycle(functions)]
fn add_declarators<'a>(
    declarators: &'a [(Ident, Option<Expr>)],
    found: &mut Found<'a>,
) -> Result<(), NoMemory>
    ensures { OnOk result (Adds (functions_of_forest (view_declarators declarators.now)) found.old found.new) }
{
    for d in declarators {
        if let Some(e) = &d.1 {
            add_expression(e, found)?;
        }
    }
    Ok(())
}

#[cycle(functions)]
fn add_cases<'a>(cases: &'a [Case], found: &mut Found<'a>) -> Result<(), NoMemory>
    ensures { OnOk result (Adds (functions_of_forest (view_cases cases.now)) found.old found.new) }
{
    for c in cases {
        add_held(&c.test, found)?;
        add_statements(c.body.items(), found)?;
    }
    Ok(())
}

#[cycle(functions)]
fn add_held<'a>(e: &'a Option<Expr>, found: &mut Found<'a>) -> Result<(), NoMemory>
    ensures { OnOk result (Adds (functions_of_optional (view_optional e.now)) found.old found.new) }
{
    match e {
        Some(e) => add_expression(e, found),
        None => Ok(()),
    }
}

#[cycle(functions)]
fn add_expression<'a>(e: &'a Expr, found: &mut Found<'a>) -> Result<(), NoMemory>
    ensures { OnOk result (Adds (functions_of (view_expression e.now)) found.old found.new) }
{
    match &e.kind {
        ExprKind::This | ExprKind::Name(_) | ExprKind::Num(_) => Ok(()),
        ExprKind::Str(_) | ExprKind::Bool(_) | ExprKind::Null => Ok(()),
        ExprKind::Array(items) => add_items(items.items(), found),
        ExprKind::Object(entries) => add_entries(entries.items(), found),
        ExprKind::Function(f) => add_function(f, found),
        ExprKind::Dot(o, _) => add_expression(o, found),
        ExprKind::Call(f, arguments) | ExprKind::New(f, arguments) => {
            add_expression(f, found)?;
            add_expressions(arguments.items(), found)
        }
        ExprKind::Unary(_, e) => add_expression(e, found),
        ExprKind::Update { target, .. } => add_target(target, found),
        ExprKind::Index(a, b)
        | ExprKind::Binary(_, a, b)
        | ExprKind::And(a, b)
        | ExprKind::Or(a, b)
        | ExprKind::Comma(a, b) => {
            add_expression(a, found)?;
            add_expression(b, found)
        }
        ExprKind::Cond(a, b, c) => {
            add_expression(a, found)?;
            add_expression(b, found)?;
            add_expression(c, found)
        }
        ExprKind::Assign(_, t, e) => {
            add_target(t, found)?;
            add_expression(e, found)
        }
    }
}

#[cycle(functions)]
fn add_target<'a>(t: &'a Target, found: &mut Found<'a>) -> Result<(), NoMemory>
    ensures { OnOk result (Adds (functions_of (view_target t.now)) found.old found.new) }
{
    match t {
        Target::Name(_) => Ok(()),
        Target::Dot(o, _, _) => add_expression(o, found),
        Target::Index(o, k, _) => {
            add_expression(o, found)?;
            add_expression(k, found)
        }
    }
}

#[cycle(functions)]
fn add_items<'a>(items: &'a [Option<Expr>], found: &mut Found<'a>) -> Result<(), NoMemory>
    ensures { OnOk result (Adds (functions_of_forest (view_items items.now)) found.old found.new) }
{
    for e in items {
        if let Some(e) = e {
            add_expression(e, found)?;
        }
    }
    Ok(())
}

#[cycle(functions)]
fn add_entries<'a>(entries: &'a [Entry], found: &mut Found<'a>) -> Result<(), NoMemory>
    ensures { OnOk result (Adds (functions_of_forest (view_entries entries.now)) found.old found.new) }
{
    for entry in entries {
        add_entry(entry, found)?;
    }
    Ok(())
}

#[cycle(functions)]
fn add_entry<'a>(entry: &'a Entry, found: &mut Found<'a>) -> Result<(), NoMemory>
    ensures { OnOk result (Adds (functions_of (view_entry entry.now)) found.old found.new) }
{
    match entry {
        Entry::Value(_, e) => add_expression(e, found),
        Entry::Get(_, f) | Entry::Set(_, f) => add_function(f, found),
    }
}

#[cycle(functions)]
fn add_expressions<'a>(expressions: &'a [Expr], found: &mut Found<'a>) -> Result<(), NoMemory>
    ensures { OnOk result (Adds (functions_of_forest (view_expressions expressions.now)) found.old found.new) }
{
    for e in expressions {
        add_expression(e, found)?;
    }
    Ok(())
}
