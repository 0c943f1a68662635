//! The walk over lists, and over what a program or a function holds.
#![tactic(auto, using(jl_ast::proofs::Views::nodes))]

ghost use Rattle.std.specs.Prelude.{◌≡◌, ◌+◌, ◌∷◌, ◌++◌, length, OnOk};
ghost use Rattle.jl_ast.specs.View.{view_body, view_cases, view_declarators, view_entries, view_expressions};
ghost use Rattle.jl_ast.specs.View.{view_functions, view_items, view_statements};
ghost use Rattle.jl_op.specs.IdMap.{entries, forest_entries, place_of};
ghost use Rattle.jl_op.specs.Ids.{forest_id_count, id_count};
ghost use Rattle.jl_op.specs.declared.kind.OpKind.TheVariants as kind;
ghost use Rattle.jl_map.specs.inner.Rows.{HasRoom};

use crate::expressions::{add_entry, add_expression, add_function, add_optional};
use crate::rows::add_row;
use crate::statements::{add_case, add_declarator, add_statement};
use jl_ast::{Body, Case, Entry, Expr, Function, Ident, Stmt};
use jl_op::{OpKind, OpMap};
use jl_text::{List, NoMemory, Span};

/// What a program or a function holds (clauses 13 and 14): its functions before its statements.
#[cycle(mapping)]
pub fn add_body(map: &mut OpMap, b: &Body) -> Result<(), NoMemory>
    requires few { HasRoom map.old (id_count (view_body b.now)) }
    ensures added { OnOk result (map.new ≡ map.old ++ entries place_of (view_body b.now)) }
    ensures counted { OnOk result (length map.new ≡ length map.old + id_count (view_body b.now)) }
{
    add_functions(map, &b.functions)?;
    add_statements(map, &b.statements)
}

#[cycle(mapping)]
fn add_functions(map: &mut OpMap, functions: &List<Function>) -> Result<(), NoMemory>
    requires few { HasRoom map.old (forest_id_count (view_functions functions.now)) }
    ensures added { OnOk result (map.new ≡ map.old ++ forest_entries place_of (view_functions functions.now)) }
    ensures counted { OnOk result (length map.new ≡ length map.old + forest_id_count (view_functions functions.now)) }
{
    for f in functions.items() {
        add_function(map, f)?;
    }
    Ok(())
}

/// Statements, in their order.
#[cycle(mapping)]
pub fn add_statements(map: &mut OpMap, statements: &List<Stmt>) -> Result<(), NoMemory>
    requires few { HasRoom map.old (forest_id_count (view_statements statements.now)) }
    ensures added { OnOk result (map.new ≡ map.old ++ forest_entries place_of (view_statements statements.now)) }
    ensures counted { OnOk result (length map.new ≡ length map.old + forest_id_count (view_statements statements.now)) }
{
    for s in statements.items() {
        add_statement(map, s)?;
    }
    Ok(())
}

/// The variables of a `var` (12.2).
#[cycle(mapping)]
pub fn add_declarators(
    map: &mut OpMap,
    declarators: &List<(Ident, Option<Expr>)>,
) -> Result<(), NoMemory>
    requires few { HasRoom map.old (forest_id_count (view_declarators declarators.now)) }
    ensures added { OnOk result (map.new ≡ map.old ++ forest_entries place_of (view_declarators declarators.now)) }
    ensures counted { OnOk result (length map.new
        ≡ length map.old + forest_id_count (view_declarators declarators.now)) }
{
    for d in declarators.items() {
        add_declarator(map, d)?;
    }
    Ok(())
}

/// The clauses of a `switch` (12.11).
#[cycle(mapping)]
pub fn add_cases(map: &mut OpMap, cases: &List<Case>) -> Result<(), NoMemory>
    requires few { HasRoom map.old (forest_id_count (view_cases cases.now)) }
    ensures added { OnOk result (map.new ≡ map.old ++ forest_entries place_of (view_cases cases.now)) }
    ensures counted { OnOk result (length map.new ≡ length map.old + forest_id_count (view_cases cases.now)) }
{
    for c in cases.items() {
        add_case(map, c)?;
    }
    Ok(())
}

/// An array literal (11.1.4).
#[cycle(mapping)]
pub fn add_array(map: &mut OpMap, items: &List<Option<Expr>>, span: Span) -> Result<(), NoMemory>
    requires few { HasRoom map.old (1 + forest_id_count (view_items items.now)) }
    ensures added { OnOk result (map.new
        ≡ map.old ++ (kind.ArrayLiteral, span) ∷ forest_entries place_of (view_items items.now)) }
    ensures counted { OnOk result (length map.new ≡ length map.old + (1 + forest_id_count (view_items items.now))) }
{
    add_row(map, OpKind::ArrayLiteral, span)?;
    for e in items.items() {
        add_optional(map, e)?;
    }
    Ok(())
}

/// An object literal (11.1.5).
#[cycle(mapping)]
pub fn add_object(map: &mut OpMap, entries: &List<Entry>, span: Span) -> Result<(), NoMemory>
    requires few { HasRoom map.old (1 + forest_id_count (view_entries entries.now)) }
    ensures added { OnOk result (map.new
        ≡ map.old ++ (kind.ObjectLiteral, span) ∷ forest_entries place_of (view_entries entries.now)) }
    ensures counted { OnOk result (length map.new ≡ length map.old + (1 + forest_id_count (view_entries entries.now))) }
{
    add_row(map, OpKind::ObjectLiteral, span)?;
    for entry in entries.items() {
        add_entry(map, entry)?;
    }
    Ok(())
}

/// Expressions, in their order: the arguments of a call (11.2.4).
#[cycle(mapping)]
pub fn add_expressions(map: &mut OpMap, expressions: &List<Expr>) -> Result<(), NoMemory>
    requires few { HasRoom map.old (forest_id_count (view_expressions expressions.now)) }
    ensures added { OnOk result (map.new ≡ map.old ++ forest_entries place_of (view_expressions expressions.now)) }
    ensures counted { OnOk result (length map.new
        ≡ length map.old + forest_id_count (view_expressions expressions.now)) }
{
    for e in expressions.items() {
        add_expression(map, e)?;
    }
    Ok(())
}
