//! The functions of a script by number, with what their calls need.
#![tactic(auto, using(jl_ast::proofs::Views::nodes))]

ghost use Rattle.std.specs.Prelude.{◌≡◌, ◌∷◌, [], IfOk, OnOk};
ghost use Rattle.jl_ast.specs.Spans.{map_spans};
ghost use Rattle.jl_ast.specs.View.{view, view_expression, view_expressions, view_optional, view_items};
ghost use Rattle.jl_ast.specs.View.{view_target, view_entry, view_entries, view_function, view_functions};
ghost use Rattle.jl_ast.specs.View.{view_body, view_statement, view_statements, view_init, view_declarators};
ghost use Rattle.jl_ast.specs.View.{view_cases};
ghost use Rattle.jl_scope.specs.Hoisting.{strict_in};
ghost use Rattle.jl_meaning.specs.FunctionObjects.{function_body};
ghost use Rattle.jl_meaning.specs.FunctionTable.{function_table};
ghost use Rattle.jl_store.specs.Plain.{plain_function};
ghost use Rattle.jl_state.specs.Words.{table_of};
ghost use Rattle.jl_realm.specs.inner.Walk.{functions_of, functions_of_list, functions_of_optional, Adds};

use jl_ast::{
    Body, Case, Entry, Expr, ExprKind, ForInit, Function, Ident, Program, Stmt, StmtKind, Target,
};
use jl_scope::is_strict;
use jl_state::ScriptFunction;
use jl_text::{List, NoMemory};
use std::alloc::Global;

/// The functions of a program by number: the declarations of a body come first, each before what it holds, then the
/// function expressions and accessors of its statements in the order of the text, each before what it holds. Each is
/// strict as the code is in which it stands, or by a directive of its own (10.1.1). It is refused for want of memory
/// alone, and recurses as deep as the program is high.
pub fn functions<'p>(
    alloc: Global,
    program: &'p Program,
) -> Result<List<ScriptFunction<'p>>, NoMemory>
    ensures { IfOk result (λ found. table_of found ≡ function_table (map_spans (λ s. 0) (view program.now))) }
{
    let mut found = Found::new(alloc);
    let strict = is_strict(false, &program.body);
    add_body(&program.body, strict, &mut found)?;
    Ok(found.functions)
}

/// The functions that a walk has come to.
#[derive(Drop)]
struct Found<'a> {
    alloc: Global,
    functions: List<ScriptFunction<'a>>,
}

impl<'a> Found<'a> {
    fn new(alloc: Global) -> Found<'a>
        ensures { result.functions ≡ [] }
    {
        Found {
            alloc,
            functions: List::new(alloc),
        }
    }

    /// A function that stands in code which is strict or not.
    fn push(&mut self, f: &'a Function, strict: bool) -> Result<(), NoMemory>
        ensures { OnOk result (Adds (record {
          func = plain_function f.now;
          strict = strict_in strict (function_body (plain_function f.now));
        } ∷ []) self.old.functions self.new.functions) }
    {
        let made = ScriptFunction::of(self.alloc, f, strict)?;
        self.functions.push(made)?;
        Ok(())
    }
}

#[cycle(functions)]
fn add_function<'a>(f: &'a Function, strict: bool, found: &mut Found<'a>) -> Result<(), NoMemory>
    ensures { OnOk result (Adds (functions_of strict (view_function f.now)) found.old.functions found.new.functions) }
{
    found.push(f, strict)?;
    add_body(&f.body, is_strict(strict, &f.body), found)
}

#[cycle(functions)]
fn add_body<'a>(b: &'a Body, strict: bool, found: &mut Found<'a>) -> Result<(), NoMemory>
    ensures { OnOk result (Adds (functions_of strict (view_body b.now)) found.old.functions found.new.functions) }
{
    add_functions(b.functions.items(), strict, found)?;
    add_statements(b.statements.items(), strict, found)
}

#[cycle(functions)]
fn add_functions<'a>(
    functions: &'a [Function],
    strict: bool,
    found: &mut Found<'a>,
) -> Result<(), NoMemory>
    ensures { OnOk result (Adds (functions_of_list strict (view_functions functions.now)) found.old.functions
        found.new.functions) }
{
    for f in functions {
        add_function(f, strict, found)?;
    }
    Ok(())
}

#[cycle(functions)]
fn add_statements<'a>(
    statements: &'a [Stmt],
    strict: bool,
    found: &mut Found<'a>,
) -> Result<(), NoMemory>
    ensures { OnOk result (Adds (functions_of_list strict (view_statements statements.now)) found.old.functions
        found.new.functions) }
{
    for s in statements {
        add_statement(s, strict, found)?;
    }
    Ok(())
}

#[cycle(functions)]
fn add_statement<'a>(s: &'a Stmt, strict: bool, found: &mut Found<'a>) -> Result<(), NoMemory>
    ensures { OnOk result (Adds (functions_of strict (view_statement s.now)) found.old.functions found.new.functions) }
{
    match &s.kind {
        StmtKind::Empty | StmtKind::Continue(_) | StmtKind::Break(_) | StmtKind::Debugger => Ok(()),
        StmtKind::Var(declarators) => add_declarators(declarators.items(), strict, found),
        StmtKind::Expr(e) | StmtKind::Throw(e) => add_expression(e, strict, found),
        StmtKind::Block(body) => add_statements(body.items(), strict, found),
        StmtKind::If(test, body, other) => {
            add_expression(test, strict, found)?;
            add_statements(body.items(), strict, found)?;
            match other {
                Some(other) => add_statements(other.items(), strict, found),
                None => Ok(()),
            }
        }
        StmtKind::DoWhile(body, test) => {
            add_statements(body.items(), strict, found)?;
            add_expression(test, strict, found)
        }
        StmtKind::While(test, body) => {
            add_expression(test, strict, found)?;
            add_statements(body.items(), strict, found)
        }
        StmtKind::For(init, test, step, body) => {
            add_init(init, strict, found)?;
            add_held(test, strict, found)?;
            add_held(step, strict, found)?;
            add_statements(body.items(), strict, found)
        }
        StmtKind::ForIn { object, body, .. } => {
            add_expression(object, strict, found)?;
            add_statements(body.items(), strict, found)
        }
        StmtKind::Return(e) => add_held(e, strict, found),
        StmtKind::Labelled(_, s) => add_statement(s, strict, found),
        StmtKind::Switch(e, cases) => {
            add_expression(e, strict, found)?;
            add_cases(cases.items(), strict, found)
        }
        StmtKind::Try {
            body,
            catch,
            finally,
        } => {
            add_statements(body.items(), strict, found)?;
            match catch {
                Some((_, body)) => add_statements(body.items(), strict, found)?,
                None => {}
            }
            match finally {
                Some(body) => add_statements(body.items(), strict, found),
                None => Ok(()),
            }
        }
    }
}

#[cycle(functions)]
fn add_init<'a>(init: &'a ForInit, strict: bool, found: &mut Found<'a>) -> Result<(), NoMemory>
    ensures { OnOk result (Adds (functions_of strict (view_init init.now)) found.old.functions found.new.functions) }
{
    match init {
        ForInit::Nothing => Ok(()),
        ForInit::Expr(e) => add_expression(e, strict, found),
        ForInit::Var(declarators) => add_declarators(declarators.items(), strict, found),
    }
}

#[cycle(functions)]
fn add_declarators<'a>(
    declarators: &'a [(Ident, Option<Expr>)],
    strict: bool,
    found: &mut Found<'a>,
) -> Result<(), NoMemory>
    ensures { OnOk result (Adds (functions_of_list strict (view_declarators declarators.now)) found.old.functions
        found.new.functions) }
{
    for d in declarators {
        if let Some(e) = &d.1 {
            add_expression(e, strict, found)?;
        }
    }
    Ok(())
}

#[cycle(functions)]
fn add_cases<'a>(cases: &'a [Case], strict: bool, found: &mut Found<'a>) -> Result<(), NoMemory>
    ensures { OnOk result (Adds (functions_of_list strict (view_cases cases.now)) found.old.functions
        found.new.functions) }
{
    for c in cases {
        add_held(&c.test, strict, found)?;
        add_statements(c.body.items(), strict, found)?;
    }
    Ok(())
}

#[cycle(functions)]
fn add_held<'a>(e: &'a Option<Expr>, strict: bool, found: &mut Found<'a>) -> Result<(), NoMemory>
    ensures { OnOk result (Adds (functions_of_optional strict (view_optional e.now)) found.old.functions
        found.new.functions) }
{
    match e {
        Some(e) => add_expression(e, strict, found),
        None => Ok(()),
    }
}

#[cycle(functions)]
fn add_expression<'a>(e: &'a Expr, strict: bool, found: &mut Found<'a>) -> Result<(), NoMemory>
    ensures { OnOk result (Adds (functions_of strict (view_expression e.now)) found.old.functions found.new.functions) }
{
    match &e.kind {
        ExprKind::This | ExprKind::Name(_) | ExprKind::Num(_) => Ok(()),
        ExprKind::Str(_) | ExprKind::Bool(_) | ExprKind::Null => Ok(()),
        ExprKind::Array(items) => add_items(items.items(), strict, found),
        ExprKind::Object(entries) => add_entries(entries.items(), strict, found),
        ExprKind::Function(f) => add_function(f, strict, found),
        ExprKind::Dot(o, _) => add_expression(o, strict, found),
        ExprKind::Call(f, arguments) | ExprKind::New(f, arguments) => {
            add_expression(f, strict, found)?;
            add_expressions(arguments.items(), strict, found)
        }
        ExprKind::Unary(_, e) => add_expression(e, strict, found),
        ExprKind::Update { target, .. } => add_target(target, strict, found),
        ExprKind::Index(a, b)
        | ExprKind::Binary(_, a, b)
        | ExprKind::And(a, b)
        | ExprKind::Or(a, b)
        | ExprKind::Comma(a, b) => {
            add_expression(a, strict, found)?;
            add_expression(b, strict, found)
        }
        ExprKind::Cond(a, b, c) => {
            add_expression(a, strict, found)?;
            add_expression(b, strict, found)?;
            add_expression(c, strict, found)
        }
        ExprKind::Assign(_, t, e) => {
            add_target(t, strict, found)?;
            add_expression(e, strict, found)
        }
    }
}

#[cycle(functions)]
fn add_target<'a>(t: &'a Target, strict: bool, found: &mut Found<'a>) -> Result<(), NoMemory>
    ensures { OnOk result (Adds (functions_of strict (view_target t.now)) found.old.functions found.new.functions) }
{
    match t {
        Target::Name(_) => Ok(()),
        Target::Dot(o, _, _) => add_expression(o, strict, found),
        Target::Index(o, k, _) => {
            add_expression(o, strict, found)?;
            add_expression(k, strict, found)
        }
    }
}

#[cycle(functions)]
fn add_items<'a>(
    items: &'a [Option<Expr>],
    strict: bool,
    found: &mut Found<'a>,
) -> Result<(), NoMemory>
    ensures { OnOk result (Adds (functions_of_list strict (view_items items.now)) found.old.functions
        found.new.functions) }
{
    for e in items {
        if let Some(e) = e {
            add_expression(e, strict, found)?;
        }
    }
    Ok(())
}

#[cycle(functions)]
fn add_entries<'a>(
    entries: &'a [Entry],
    strict: bool,
    found: &mut Found<'a>,
) -> Result<(), NoMemory>
    ensures { OnOk result (Adds (functions_of_list strict (view_entries entries.now)) found.old.functions
        found.new.functions) }
{
    for entry in entries {
        add_entry(entry, strict, found)?;
    }
    Ok(())
}

#[cycle(functions)]
fn add_entry<'a>(entry: &'a Entry, strict: bool, found: &mut Found<'a>) -> Result<(), NoMemory>
    ensures { OnOk result (Adds (functions_of strict (view_entry entry.now)) found.old.functions found.new.functions) }
{
    match entry {
        Entry::Value(_, e) => add_expression(e, strict, found),
        Entry::Get(_, f) | Entry::Set(_, f) => add_function(f, strict, found),
    }
}

#[cycle(functions)]
fn add_expressions<'a>(
    expressions: &'a [Expr],
    strict: bool,
    found: &mut Found<'a>,
) -> Result<(), NoMemory>
    ensures { OnOk result (Adds (functions_of_list strict (view_expressions expressions.now)) found.old.functions
        found.new.functions) }
{
    for e in expressions {
        add_expression(e, strict, found)?;
    }
    Ok(())
}
