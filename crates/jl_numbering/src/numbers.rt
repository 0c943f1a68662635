#![tactic(auto, using(jl_ast::proofs::Views::nodes))]

ghost use Rattle.std.specs.Prelude.{◌≡◌, ◌+◌, ◌^◌, ◌<◌};
ghost use Rattle.jl_ast.specs.Numbering.{functions_in, functions_in_forest, functions_in_optional, with_numbers};
ghost use Rattle.jl_ast.specs.Numbering.{numbered_tree, numbered_forest, numbered_optional};
ghost use Rattle.jl_ast.specs.View.{view, view_expression, view_expressions, view_optional, view_items};
ghost use Rattle.jl_ast.specs.View.{view_target, view_entry, view_entries, view_function, view_functions};
ghost use Rattle.jl_ast.specs.View.{view_body, view_statement, view_statements, view_branch, view_catch};
ghost use Rattle.jl_ast.specs.View.{view_init, view_declarators, view_case, view_cases};

use jl_ast::{
    Body, Case, Entry, Expr, ExprKind, ForInit, Function, Ident, Program, Stmt, StmtKind, Target,
};
use jl_text::List;

/// Numbers the functions of a program from 0 on, in the order of their table: a function before those inside it, and
/// the function declarations of a body before the functions of its statements, otherwise in the order of the text.
/// It takes no memory, and recurses as deep as the program is high.
pub fn number(program: &mut Program)
    requires few { functions_in (view program.old).body < 2 ^ 32 }
    ensures { view program.new ≡ with_numbers (view program.old) }
{
    number_body(&mut program.body, 0);
}

// Each function below numbers the functions of its tree from `next` on, and gives the next number after them.

#[cycle(numbering)]
fn number_function(f: &mut Function, next: u32) -> u32
    requires few { next + functions_in (view_function f.old) < 2 ^ 32 }
    ensures numbered { view_function f.new ≡ numbered_tree next (view_function f.old) }
    ensures counted { result ≡ next + functions_in (view_function f.old) }
{
    f.number = next;
    number_body(&mut f.body, next + 1)
}

#[cycle(numbering)]
fn number_body(b: &mut Body, next: u32) -> u32
    requires few { next + functions_in (view_body b.old) < 2 ^ 32 }
    ensures numbered { view_body b.new ≡ numbered_tree next (view_body b.old) }
    ensures counted { result ≡ next + functions_in (view_body b.old) }
{
    let after = number_functions(&mut b.functions, next);
    number_statements(&mut b.statements, after)
}

#[cycle(numbering)]
fn number_functions(functions: &mut List<Function>, next: u32) -> u32
    requires few { next + functions_in_forest (view_functions functions.old) < 2 ^ 32 }
    ensures numbered { view_functions functions.new ≡ numbered_forest next (view_functions functions.old) }
    ensures counted { result ≡ next + functions_in_forest (view_functions functions.old) }
{
    let mut after = next;
    for f in functions.items_mut().iter_mut() {
        after = number_function(f, after);
    }
    after
}

#[cycle(numbering)]
fn number_statements(statements: &mut List<Stmt>, next: u32) -> u32
    requires few { next + functions_in_forest (view_statements statements.old) < 2 ^ 32 }
    ensures numbered { view_statements statements.new ≡ numbered_forest next (view_statements statements.old) }
    ensures counted { result ≡ next + functions_in_forest (view_statements statements.old) }
{
    let mut after = next;
    for s in statements.items_mut().iter_mut() {
        after = number_statement(s, after);
    }
    after
}

#[cycle(numbering)]
fn number_statement(s: &mut Stmt, next: u32) -> u32
    requires few { next + functions_in (view_statement s.old) < 2 ^ 32 }
    ensures numbered { view_statement s.new ≡ numbered_tree next (view_statement s.old) }
    ensures counted { result ≡ next + functions_in (view_statement s.old) }
{
    match &mut s.kind {
        StmtKind::Empty | StmtKind::Continue(_) | StmtKind::Break(_) | StmtKind::Debugger => next,
        StmtKind::Var(declarators) => number_declarators(declarators, next),
        StmtKind::Expr(e) => number_expression(e, next),
        StmtKind::Throw(e) => number_expression(e, next),
        StmtKind::Block(body) => number_statements(body, next),
        StmtKind::If(test, body, other) => {
            let after = number_expression(test, next);
            let after = number_statements(body, after);
            number_branch(other, after)
        }
        StmtKind::DoWhile(body, test) => {
            let after = number_statements(body, next);
            number_expression(test, after)
        }
        StmtKind::While(test, body) => {
            let after = number_expression(test, next);
            number_statements(body, after)
        }
        StmtKind::For(init, test, step, body) => {
            let after = number_init(init, next);
            let after = number_held(test, after);
            let after = number_held(step, after);
            number_statements(body, after)
        }
        StmtKind::ForIn { object, body, .. } => {
            let after = number_expression(object, next);
            number_statements(body, after)
        }
        StmtKind::Return(e) => number_held(e, next),
        StmtKind::Labelled(_, s) => number_statement(s, next),
        StmtKind::Switch(e, cases) => {
            let after = number_expression(e, next);
            number_cases(cases, after)
        }
        StmtKind::Try {
            body,
            catch,
            finally,
        } => {
            let after = number_statements(body, next);
            let after = number_catch(catch, after);
            number_branch(finally, after)
        }
    }
}

#[cycle(numbering)]
fn number_branch(branch: &mut Option<List<Stmt>>, next: u32) -> u32
    requires few { next + functions_in_optional (view_branch branch.old) < 2 ^ 32 }
    ensures numbered { view_branch branch.new ≡ numbered_optional next (view_branch branch.old) }
    ensures counted { result ≡ next + functions_in_optional (view_branch branch.old) }
{
    match branch {
        Some(body) => number_statements(body, next),
        None => next,
    }
}

#[cycle(numbering)]
fn number_catch(catch: &mut Option<(Ident, List<Stmt>)>, next: u32) -> u32
    requires few { next + functions_in_optional (view_catch catch.old) < 2 ^ 32 }
    ensures numbered { view_catch catch.new ≡ numbered_optional next (view_catch catch.old) }
    ensures counted { result ≡ next + functions_in_optional (view_catch catch.old) }
{
    match catch {
        Some((_, body)) => number_statements(body, next),
        None => next,
    }
}

#[cycle(numbering)]
fn number_init(init: &mut ForInit, next: u32) -> u32
    requires few { next + functions_in (view_init init.old) < 2 ^ 32 }
    ensures numbered { view_init init.new ≡ numbered_tree next (view_init init.old) }
    ensures counted { result ≡ next + functions_in (view_init init.old) }
{
    match init {
        ForInit::Nothing => next,
        ForInit::Expr(e) => number_expression(e, next),
        ForInit::Var(declarators) => number_declarators(declarators, next),
    }
}

#[cycle(numbering)]
fn number_declarators(declarators: &mut List<(Ident, Option<Expr>)>, next: u32) -> u32
    requires few { next + functions_in_forest (view_declarators declarators.old) < 2 ^ 32 }
    ensures numbered { view_declarators declarators.new ≡ numbered_forest next (view_declarators declarators.old) }
    ensures counted { result ≡ next + functions_in_forest (view_declarators declarators.old) }
{
    let mut after = next;
    for d in declarators.items_mut().iter_mut() {
        after = number_held(&mut d.1, after);
    }
    after
}

#[cycle(numbering)]
fn number_cases(cases: &mut List<Case>, next: u32) -> u32
    requires few { next + functions_in_forest (view_cases cases.old) < 2 ^ 32 }
    ensures numbered { view_cases cases.new ≡ numbered_forest next (view_cases cases.old) }
    ensures counted { result ≡ next + functions_in_forest (view_cases cases.old) }
{
    let mut after = next;
    for c in cases.items_mut().iter_mut() {
        after = number_case(c, after);
    }
    after
}

#[cycle(numbering)]
fn number_case(c: &mut Case, next: u32) -> u32
    requires few { next + functions_in (view_case c.old) < 2 ^ 32 }
    ensures numbered { view_case c.new ≡ numbered_tree next (view_case c.old) }
    ensures counted { result ≡ next + functions_in (view_case c.old) }
{
    let after = number_held(&mut c.test, next);
    number_statements(&mut c.body, after)
}

#[cycle(numbering)]
fn number_held(e: &mut Option<Expr>, next: u32) -> u32
    requires few { next + functions_in_optional (view_optional e.old) < 2 ^ 32 }
    ensures numbered { view_optional e.new ≡ numbered_optional next (view_optional e.old) }
    ensures counted { result ≡ next + functions_in_optional (view_optional e.old) }
{
    match e {
        Some(e) => number_expression(e, next),
        None => next,
    }
}

#[cycle(numbering)]
fn number_expression(e: &mut Expr, next: u32) -> u32
    requires few { next + functions_in (view_expression e.old) < 2 ^ 32 }
    ensures numbered { view_expression e.new ≡ numbered_tree next (view_expression e.old) }
    ensures counted { result ≡ next + functions_in (view_expression e.old) }
{
    match &mut e.kind {
        ExprKind::This | ExprKind::Name(_) | ExprKind::Num(_) => next,
        ExprKind::Str(_) | ExprKind::Bool(_) | ExprKind::Null => next,
        ExprKind::Array(items) => number_items(items, next),
        ExprKind::Object(entries) => number_entries(entries, next),
        ExprKind::Function(f) => number_function(f, next),
        ExprKind::Dot(o, _) => number_expression(o, next),
        ExprKind::Call(f, arguments) => {
            let after = number_expression(f, next);
            number_expressions(arguments, after)
        }
        ExprKind::New(f, arguments) => {
            let after = number_expression(f, next);
            number_expressions(arguments, after)
        }
        ExprKind::Unary(_, e) => number_expression(e, next),
        ExprKind::Update { target, .. } => number_target(target, next),
        ExprKind::Index(a, b) => {
            let after = number_expression(a, next);
            number_expression(b, after)
        }
        ExprKind::Binary(_, a, b) => {
            let after = number_expression(a, next);
            number_expression(b, after)
        }
        ExprKind::And(a, b) => {
            let after = number_expression(a, next);
            number_expression(b, after)
        }
        ExprKind::Or(a, b) => {
            let after = number_expression(a, next);
            number_expression(b, after)
        }
        ExprKind::Comma(a, b) => {
            let after = number_expression(a, next);
            number_expression(b, after)
        }
        ExprKind::Cond(a, b, c) => {
            let after = number_expression(a, next);
            let after = number_expression(b, after);
            number_expression(c, after)
        }
        ExprKind::Assign(_, t, e) => {
            let after = number_target(t, next);
            number_expression(e, after)
        }
    }
}

#[cycle(numbering)]
fn number_target(t: &mut Target, next: u32) -> u32
    requires few { next + functions_in (view_target t.old) < 2 ^ 32 }
    ensures numbered { view_target t.new ≡ numbered_tree next (view_target t.old) }
    ensures counted { result ≡ next + functions_in (view_target t.old) }
{
    match t {
        Target::Name(_) => next,
        Target::Dot(o, _, _) => number_expression(o, next),
        Target::Index(o, k, _) => {
            let after = number_expression(o, next);
            number_expression(k, after)
        }
    }
}

#[cycle(numbering)]
fn number_items(items: &mut List<Option<Expr>>, next: u32) -> u32
    requires few { next + functions_in_forest (view_items items.old) < 2 ^ 32 }
    ensures numbered { view_items items.new ≡ numbered_forest next (view_items items.old) }
    ensures counted { result ≡ next + functions_in_forest (view_items items.old) }
{
    let mut after = next;
    for e in items.items_mut().iter_mut() {
        after = number_held(e, after);
    }
    after
}

#[cycle(numbering)]
fn number_entries(entries: &mut List<Entry>, next: u32) -> u32
    requires few { next + functions_in_forest (view_entries entries.old) < 2 ^ 32 }
    ensures numbered { view_entries entries.new ≡ numbered_forest next (view_entries entries.old) }
    ensures counted { result ≡ next + functions_in_forest (view_entries entries.old) }
{
    let mut after = next;
    for entry in entries.items_mut().iter_mut() {
        after = number_entry(entry, after);
    }
    after
}

#[cycle(numbering)]
fn number_entry(entry: &mut Entry, next: u32) -> u32
    requires few { next + functions_in (view_entry entry.old) < 2 ^ 32 }
    ensures numbered { view_entry entry.new ≡ numbered_tree next (view_entry entry.old) }
    ensures counted { result ≡ next + functions_in (view_entry entry.old) }
{
    match entry {
        Entry::Value(_, e) => number_expression(e, next),
        Entry::Get(_, f) => number_function(f, next),
        Entry::Set(_, f) => number_function(f, next),
    }
}

#[cycle(numbering)]
fn number_expressions(expressions: &mut List<Expr>, next: u32) -> u32
    requires few { next + functions_in_forest (view_expressions expressions.old) < 2 ^ 32 }
    ensures numbered { view_expressions expressions.new ≡ numbered_forest next (view_expressions expressions.old) }
    ensures counted { result ≡ next + functions_in_forest (view_expressions expressions.old) }
{
    let mut after = next;
    for e in expressions.items_mut().iter_mut() {
        after = number_expression(e, after);
    }
    after
}
