#![tactic(auto, using(jl_ast::proofs::Views::nodes))]

ghost use Rattle.std.specs.Prelude.{◌≡◌, [], ◌++◌, map, option_map, IfOk, OnOk};
ghost use Rattle.jl_scope.specs.Hoisting.{variables, strict_in, declared_in, declared_in_forest, bound_by_function};
ghost use Rattle.jl_scope.specs.Hoisting.{name_texts, function_names, bound_by_body, declared_in_optional};
ghost use Rattle.jl_scope.specs.Names.{with_names};
ghost use Rattle.jl_scope.specs.inner.Steps.{Adds};
ghost use Rattle.jl_ast.specs.View.{view_body, view_statement, view_statements, view_init, view_declarators};
ghost use Rattle.jl_ast.specs.View.{view_cases, view_functions, view_ident};
ghost use Rattle.jl_ast.specs.View.{view_branch, view_catch};

use crate::name_set::NameSet;
use jl_ast::{Body, Case, Expr, ForInit, Function, Ident, Stmt, StmtKind};
use jl_text::{List, NoMemory, Text};
use std::alloc::Global;

/// Whether a body is strict code (10.1.1): by the code round it, or by a directive of its own.
pub fn is_strict(outer: bool, body: &Body) -> bool
    ensures { result ≡ strict_in outer (view_body body.now) }
{
    outer || body.strict
}

/// The names of the variables that a body declares (10.5), in the order of their first declarations, each once. What
/// functions in it declare is theirs. It takes the logarithm of their number for each name that is declared, beside a
/// walk over the body, and is refused for want of memory alone.
pub fn vars(alloc: Global, body: &Body) -> Result<Vec<Text>, NoMemory>
    ensures { IfOk result (λ names. names.items ≡ variables (view_body body.now)) }
{
    let mut declared = Vec::new(alloc);
    add_statements(body.statements.items(), &mut declared)?;
    each_once(alloc, declared.as_slice())
}

fn each_once(alloc: Global, names: &[&Text]) -> Result<Vec<Text>, NoMemory>
    ensures { IfOk result (λ texts. texts.items ≡ with_names [] (map (λ n. n.now) names.now)) }
{
    let mut seen = NameSet::new(alloc);
    let mut texts = Vec::new(alloc);
    for name in names {
        if seen.insert(name.units())? {
            texts.push(name.share(alloc)?)?;
        }
    }
    Ok(texts)
}

/// Adds the names that a body binds: those of its functions, and of its variables with repeats.
pub(crate) fn add_body<'a>(body: &'a Body, names: &mut Vec<&'a Text>) -> Result<(), NoMemory>
    ensures { OnOk result (Adds (bound_by_body (view_body body.now)) names.old.items names.new.items) }
{
    add_functions(body.functions.items(), names)?;
    add_statements(body.statements.items(), names)
}

/// Adds the names that a function binds: its own, its parameters, and what its body does.
pub(crate) fn add_function<'a>(
    name: &'a Option<Ident>,
    params: &'a [Ident],
    body: &'a Body,
    names: &mut Vec<&'a Text>,
) -> Result<(), NoMemory>
    ensures { OnOk result (Adds (bound_by_function (option_map view_ident name.now) (map view_ident params.now)
        (view_body body.now)) names.old.items names.new.items) }
{
    add_name(name, names)?;
    add_parameters(params, names)?;
    add_body(body, names)
}

fn add_name<'a>(name: &'a Option<Ident>, names: &mut Vec<&'a Text>) -> Result<(), NoMemory>
    ensures { OnOk result (Adds (name_texts (option_map view_ident name.now)) names.old.items names.new.items) }
{
    if let Some(name) = name {
        names.push(&name.text)?;
    }
    Ok(())
}

fn add_parameters<'a>(params: &'a [Ident], names: &mut Vec<&'a Text>) -> Result<(), NoMemory>
    ensures { OnOk result (Adds (map (λ x. x.text) (map view_ident params.now)) names.old.items names.new.items) }
{
    for p in params {
        names.push(&p.text)?;
    }
    Ok(())
}

fn add_functions<'a>(functions: &'a [Function], names: &mut Vec<&'a Text>) -> Result<(), NoMemory>
    ensures { OnOk result (Adds (function_names (view_functions functions.now)) names.old.items names.new.items) }
{
    for f in functions {
        if let Some(name) = &f.name {
            names.push(&name.text)?;
        }
    }
    Ok(())
}

#[cycle(hoisting)]
fn add_statements<'a>(statements: &'a [Stmt], names: &mut Vec<&'a Text>) -> Result<(), NoMemory>
    ensures { OnOk result (Adds (declared_in_forest (view_statements statements.now)) names.old.items names.new.items) }
{
    for s in statements {
        add_statement(s, names)?;
    }
    Ok(())
}

#[cycle(hoisting)]
fn add_statement<'a>(s: &'a Stmt, names: &mut Vec<&'a Text>) -> Result<(), NoMemory>
    ensures { OnOk result (Adds (declared_in (view_statement s.now)) names.old.items names.new.items) }
{
    match &s.kind {
        StmtKind::Empty | StmtKind::Expr(_) | StmtKind::Continue(_) | StmtKind::Break(_) => Ok(()),
        StmtKind::Return(_) | StmtKind::Throw(_) | StmtKind::Debugger => Ok(()),
        StmtKind::Var(declarators) => add_declarators(declarators.items(), names),
        StmtKind::Block(body) | StmtKind::DoWhile(body, _) | StmtKind::While(_, body) => {
            add_statements(body.items(), names)
        }
        StmtKind::If(_, body, other) => {
            add_statements(body.items(), names)?;
            match other {
                Some(other) => add_statements(other.items(), names),
                None => Ok(()),
            }
        }
        StmtKind::For(init, _, _, body) => {
            add_init(init, names)?;
            add_statements(body.items(), names)
        }
        StmtKind::ForIn {
            is_var,
            name,
            body,
            ..
        } => {
            if *is_var {
                names.push(&name.text)?;
            }
            add_statements(body.items(), names)
        }
        StmtKind::Labelled(_, s) => add_statement(s, names),
        StmtKind::Switch(_, cases) => add_cases(cases.items(), names),
        StmtKind::Try {
            body,
            catch,
            finally,
        } => {
            add_statements(body.items(), names)?;
            match catch {
                Some((_, body)) => add_statements(body.items(), names)?,
                None => {}
            }
            match finally {
                Some(body) => add_statements(body.items(), names),
                None => Ok(()),
            }
        }
    }
}

fn add_init<'a>(init: &'a ForInit, names: &mut Vec<&'a Text>) -> Result<(), NoMemory>
    ensures { OnOk result (Adds (declared_in (view_init init.now)) names.old.items names.new.items) }
{
    match init {
        ForInit::Nothing | ForInit::Expr(_) => Ok(()),
        ForInit::Var(declarators) => add_declarators(declarators.items(), names),
    }
}

fn add_declarators<'a>(
    declarators: &'a [(Ident, Option<Expr>)],
    names: &mut Vec<&'a Text>,
) -> Result<(), NoMemory>
    ensures { OnOk result (Adds (declared_in_forest
        (view_declarators declarators.now)) names.old.items names.new.items) }
{
    for d in declarators {
        names.push(&d.0.text)?;
    }
    Ok(())
}

#[cycle(hoisting)]
fn add_cases<'a>(cases: &'a [Case], names: &mut Vec<&'a Text>) -> Result<(), NoMemory>
    ensures { OnOk result (Adds (declared_in_forest (view_cases cases.now)) names.old.items names.new.items) }
{
    for c in cases {
        add_statements(c.body.items(), names)?;
    }
    Ok(())
}
