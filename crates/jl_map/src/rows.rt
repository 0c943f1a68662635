//! The rows that a node adds for itself.
#![tactic(auto, using(jl_ast::proofs::Views::nodes))]

ghost use Rattle.std.specs.Prelude.{◌≡◌, ◌+◌, ◌∷◌, ◌++◌, [], length, None, OnOk};
ghost use Rattle.jl_ast.specs.View.{view_catch, view_optional, view_target};
ghost use Rattle.jl_op.specs.IdMap.{assign_entries, compute_entries, invoke_entries, place_of};
ghost use Rattle.jl_op.specs.Ids.{assignment_id_count, one_if_present};
ghost use Rattle.jl_op.specs.declared.kind.OpKind.TheVariants as kind;
ghost use Rattle.jl_map.specs.inner.Rows.{HasRoom, caught_entries, tested_entries};

use jl_ast::{BinOp, Expr, Ident, Stmt, Target};
use jl_op::{OpKind, OpMap};
use jl_text::{List, NoMemory, Span};

/// One row.
pub fn add_row(map: &mut OpMap, kind: OpKind, span: Span) -> Result<(), NoMemory>
    requires few { HasRoom map.old 1 }
    ensures added { OnOk result (map.new ≡ map.old ++ (kind, span) ∷ []) }
    ensures counted { OnOk result (length map.new ≡ length map.old + 1) }
{
    map.add(kind, span)?;
    Ok(())
}

/// A call or a construction (11.2), which begins and ends.
pub fn add_invocation(map: &mut OpMap, span: Span) -> Result<(), NoMemory>
    requires few { HasRoom map.old 2 }
    ensures added { OnOk result (map.new ≡ map.old ++ invoke_entries place_of span) }
    ensures counted { OnOk result (length map.new ≡ length map.old + 2) }
{
    add_row(map, OpKind::InvokePre, span)?;
    add_row(map, OpKind::InvokePost, span)
}

/// A compound assignment (11.13), `++` or `--`, which reads its target, computes, and writes to it.
pub fn add_computation(
    map: &mut OpMap,
    target: &Target,
    computes: OpKind,
    span: Span,
) -> Result<(), NoMemory>
    requires few { HasRoom map.old 3 }
    ensures added { OnOk result (map.new ≡ map.old ++ compute_entries place_of (view_target target.now) computes span) }
    ensures counted { OnOk result (length map.new ≡ length map.old + 3) }
{
    match target {
        Target::Name(_) => {
            add_row(map, OpKind::Read, span)?;
            add_row(map, computes, span)?;
            add_row(map, OpKind::Write, span)
        }
        Target::Dot(_, _, _) => add_member_computation(map, computes, span),
        Target::Index(_, _, _) => add_member_computation(map, computes, span),
    }
}

fn add_member_computation(map: &mut OpMap, computes: OpKind, span: Span) -> Result<(), NoMemory>
    requires few { HasRoom map.old 3 }
    ensures added { OnOk result (map.new
        ≡ map.old ++ (kind.GetField, span) ∷ (computes, span) ∷ (kind.PutField, span) ∷ []) }
    ensures counted { OnOk result (length map.new ≡ length map.old + 3) }
{
    add_row(map, OpKind::GetField, span)?;
    add_row(map, computes, span)?;
    add_row(map, OpKind::PutField, span)
}

/// An assignment (11.13) by this operator, or a plain one.
pub fn add_assignment(
    map: &mut OpMap,
    op: Option<BinOp>,
    target: &Target,
    span: Span,
) -> Result<(), NoMemory>
    requires few { HasRoom map.old (assignment_id_count op) }
    ensures added { OnOk result (map.new ≡ map.old ++ assign_entries place_of op (view_target target.now) span) }
    ensures counted { OnOk result (length map.new ≡ length map.old + assignment_id_count op) }
{
    match op {
        Some(_) => add_computation(map, target, OpKind::Binary, span),
        None => add_plain_assignment(map, target, span),
    }
}

fn add_plain_assignment(map: &mut OpMap, target: &Target, span: Span) -> Result<(), NoMemory>
    requires few { HasRoom map.old 1 }
    ensures added { OnOk result (map.new ≡ map.old ++ assign_entries place_of None (view_target target.now) span) }
    ensures counted { OnOk result (length map.new ≡ length map.old + 1) }
{
    match target {
        Target::Name(_) => add_row(map, OpKind::Write, span),
        Target::Dot(_, _, _) => add_row(map, OpKind::PutField, span),
        Target::Index(_, _, _) => add_row(map, OpKind::PutField, span),
    }
}

/// The test of a `for` (12.6.3), if it has one.
pub fn add_tested(map: &mut OpMap, test: &Option<Expr>) -> Result<(), NoMemory>
    requires few { HasRoom map.old (one_if_present (view_optional test.now)) }
    ensures added { OnOk result (map.new ≡ map.old ++ tested_entries (view_optional test.now)) }
    ensures counted { OnOk result (length map.new ≡ length map.old + one_if_present (view_optional test.now)) }
{
    match test {
        Some(e) => add_row(map, OpKind::Conditional, e.span),
        None => Ok(()),
    }
}

/// The name of a `catch` (12.14), if there is one.
pub fn add_caught(map: &mut OpMap, catch: &Option<(Ident, List<Stmt>)>) -> Result<(), NoMemory>
    requires few { HasRoom map.old (one_if_present (view_catch catch.now)) }
    ensures added { OnOk result (map.new ≡ map.old ++ caught_entries (view_catch catch.now)) }
    ensures counted { OnOk result (length map.new ≡ length map.old + one_if_present (view_catch catch.now)) }
{
    match catch {
        Some((x, _)) => add_row(map, OpKind::Catch, x.span),
        None => Ok(()),
    }
}
