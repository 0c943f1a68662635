//! The walk over lists.
#![tactic(auto, using(jl_ast::proofs::Views::nodes))]

ghost use Rattle.std.specs.Prelude.{◌≡◌, ◌+◌, IfOk, OnOk};
ghost use Rattle.jl_ast.specs.View.{view_cases, view_declarators, view_entries, view_expressions, view_functions};
ghost use Rattle.jl_ast.specs.View.{view_items, view_statements};
ghost use Rattle.jl_op.specs.Ids.{forest_id_count};
ghost use Rattle.jl_weave.specs.inner.Bare.{bare_cases, bare_declarators, bare_entries, bare_expressions};
ghost use Rattle.jl_weave.specs.inner.Bare.{bare_functions, bare_items, bare_statements};
ghost use Rattle.jl_weave.specs.inner.Woven.{chosen_of, woven_after_at, woven_all_at, HasIds};

use crate::expressions::{weave_entry, weave_expression, weave_function, weave_optional};
use crate::ids::Ids;
use crate::statements::{weave_case, weave_declarator, weave_statement};
use crate::weaver::Weaver;
use jl_ast::{Case, Entry, Expr, Function, Ident, Stmt};
use jl_text::{List, NoMemory};

/// Expressions, in their order: the arguments of a call (11.2.4).
#[cycle(weaving)]
pub fn weave_expressions(
    w: &Weaver,
    expressions: &[Expr],
    ids: &mut Ids,
) -> Result<List<Expr>, NoMemory>
    requires few { HasIds ids.old.next (forest_id_count (view_expressions expressions.now)) }
    ensures woven { IfOk result (λ made. bare_expressions made
        ≡ woven_all_at (chosen_of w.now) ids.old.next (view_expressions expressions.now)) }
    ensures counted { OnOk result (ids.new.next ≡ ids.old.next + forest_id_count (view_expressions expressions.now)) }
{
    let mut made = List::new(w.alloc);
    for e in expressions {
        made.push(weave_expression(w, e, ids)?)?;
    }
    Ok(made)
}

/// What stands at the places of an array literal (11.1.4).
#[cycle(weaving)]
pub fn weave_items(
    w: &Weaver,
    items: &[Option<Expr>],
    ids: &mut Ids,
) -> Result<List<Option<Expr>>, NoMemory>
    requires few { HasIds ids.old.next (forest_id_count (view_items items.now)) }
    ensures woven { IfOk result (λ made. bare_items made
        ≡ woven_all_at (chosen_of w.now) ids.old.next (view_items items.now)) }
    ensures counted { OnOk result (ids.new.next ≡ ids.old.next + forest_id_count (view_items items.now)) }
{
    let mut made = List::new(w.alloc);
    for e in items {
        made.push(weave_optional(w, e, ids)?)?;
    }
    Ok(made)
}

/// The properties of an object literal (11.1.5).
#[cycle(weaving)]
pub fn weave_entries(w: &Weaver, entries: &[Entry], ids: &mut Ids) -> Result<List<Entry>, NoMemory>
    requires few { HasIds ids.old.next (forest_id_count (view_entries entries.now)) }
    ensures woven { IfOk result (λ made. bare_entries made
        ≡ woven_all_at (chosen_of w.now) ids.old.next (view_entries entries.now)) }
    ensures counted { OnOk result (ids.new.next ≡ ids.old.next + forest_id_count (view_entries entries.now)) }
{
    let mut made = List::new(w.alloc);
    for entry in entries {
        made.push(weave_entry(w, entry, ids)?)?;
    }
    Ok(made)
}

/// The functions that a program or a function declares (clause 13).
#[cycle(weaving)]
pub fn weave_functions(
    w: &Weaver,
    functions: &[Function],
    ids: &mut Ids,
) -> Result<List<Function>, NoMemory>
    requires few { HasIds ids.old.next (forest_id_count (view_functions functions.now)) }
    ensures woven { IfOk result (λ made. bare_functions made
        ≡ woven_all_at (chosen_of w.now) ids.old.next (view_functions functions.now)) }
    ensures counted { OnOk result (ids.new.next ≡ ids.old.next + forest_id_count (view_functions functions.now)) }
{
    let mut made = List::new(w.alloc);
    for f in functions {
        made.push(weave_function(w, f, ids)?)?;
    }
    Ok(made)
}

/// Statements, after those that are woven already.
#[cycle(weaving)]
pub fn weave_statements(
    w: &Weaver,
    statements: &[Stmt],
    first: List<Stmt>,
    ids: &mut Ids,
) -> Result<List<Stmt>, NoMemory>
    requires few { HasIds ids.old.next (forest_id_count (view_statements statements.now)) }
    ensures woven { IfOk result (λ made. bare_statements made
        ≡ woven_after_at (chosen_of w.now) (bare_statements first) ids.old.next (view_statements statements.now)) }
    ensures counted { OnOk result (ids.new.next ≡ ids.old.next + forest_id_count (view_statements statements.now)) }
{
    let mut made = first;
    for s in statements {
        made.push(weave_statement(w, s, ids)?)?;
    }
    Ok(made)
}

/// The statements of a block, or the one under another statement.
#[cycle(weaving)]
pub fn weave_block(w: &Weaver, body: &List<Stmt>, ids: &mut Ids) -> Result<List<Stmt>, NoMemory>
    requires few { HasIds ids.old.next (forest_id_count (view_statements body.now)) }
    ensures woven { IfOk result (λ made. bare_statements made
        ≡ woven_all_at (chosen_of w.now) ids.old.next (view_statements body.now)) }
    ensures counted { OnOk result (ids.new.next ≡ ids.old.next + forest_id_count (view_statements body.now)) }
{
    weave_statements(w, body.items(), List::new(w.alloc), ids)
}

/// The variables of a `var` (12.2).
#[cycle(weaving)]
pub fn weave_declarators(
    w: &Weaver,
    declarators: &[(Ident, Option<Expr>)],
    ids: &mut Ids,
) -> Result<List<(Ident, Option<Expr>)>, NoMemory>
    requires few { HasIds ids.old.next (forest_id_count (view_declarators declarators.now)) }
    ensures woven { IfOk result (λ made. bare_declarators made
        ≡ woven_all_at (chosen_of w.now) ids.old.next (view_declarators declarators.now)) }
    ensures counted { OnOk result (ids.new.next ≡ ids.old.next + forest_id_count (view_declarators declarators.now)) }
{
    let mut made = List::new(w.alloc);
    for d in declarators {
        made.push(weave_declarator(w, d, ids)?)?;
    }
    Ok(made)
}

/// The clauses of a `switch` (12.11).
#[cycle(weaving)]
pub fn weave_cases(w: &Weaver, cases: &[Case], ids: &mut Ids) -> Result<List<Case>, NoMemory>
    requires few { HasIds ids.old.next (forest_id_count (view_cases cases.now)) }
    ensures woven { IfOk result (λ made. bare_cases made
        ≡ woven_all_at (chosen_of w.now) ids.old.next (view_cases cases.now)) }
    ensures counted { OnOk result (ids.new.next ≡ ids.old.next + forest_id_count (view_cases cases.now)) }
{
    let mut made = List::new(w.alloc);
    for c in cases {
        made.push(weave_case(w, c, ids)?)?;
    }
    Ok(made)
}
