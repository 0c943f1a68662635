//! The walk over expressions (clause 11). Each function adds the rows of its part, of which there are as many as ids.
#![tactic(auto, using(jl_ast::proofs::Views::nodes))]

ghost use Rattle.std.specs.Prelude.{◌≡◌, ◌+◌, ◌∷◌, ◌++◌, length, OnOk};
ghost use Rattle.jl_ast.specs.Spans.{place};
ghost use Rattle.jl_ast.specs.Tree as tree;
ghost use Rattle.jl_ast.specs.View.{view_entry, view_expression, view_function, view_optional, view_target};
ghost use Rattle.jl_ast.specs.declared.ops.UnOp.TheVariants as un;
ghost use Rattle.jl_op.specs.IdMap.{assign_entries, call_entries, compute_entries, entries, invoke_entries};
ghost use Rattle.jl_op.specs.IdMap.{optional_entries, place_of};
ghost use Rattle.jl_op.specs.Ids.{assignment_id_count, id_count, optional_id_count};
ghost use Rattle.jl_op.specs.declared.kind.OpKind.TheVariants as kind;
ghost use Rattle.jl_map.specs.inner.Rows.{HasRoom};

use crate::lists::{add_array, add_body, add_expressions, add_object};
use crate::rows::{add_assignment, add_computation, add_invocation, add_row};
use jl_ast::{BinOp, Entry, Expr, ExprKind, Function, Target, UnOp};
use jl_op::{OpKind, OpMap};
use jl_text::{NoMemory, Span};

/// The rows of an expression (clause 11).
#[cycle(mapping)]
pub fn add_expression(map: &mut OpMap, e: &Expr) -> Result<(), NoMemory>
    requires few { HasRoom map.old (id_count (view_expression e.now)) }
    ensures added { OnOk result (map.new ≡ map.old ++ entries place_of (view_expression e.now)) }
    ensures counted { OnOk result (length map.new ≡ length map.old + id_count (view_expression e.now)) }
{
    let span = e.span;
    match &e.kind {
        ExprKind::This => Ok(()),
        ExprKind::Name(_) => add_row(map, OpKind::Read, span),
        ExprKind::Num(_) => add_row(map, OpKind::Literal, span),
        ExprKind::Str(_) => add_row(map, OpKind::Literal, span),
        ExprKind::Bool(_) => add_row(map, OpKind::Literal, span),
        ExprKind::Null => add_row(map, OpKind::Literal, span),
        ExprKind::Array(items) => add_array(map, items, span),
        ExprKind::Object(entries) => add_object(map, entries, span),
        ExprKind::Function(f) => add_function_expression(map, f, span),
        ExprKind::Dot(o, _) => add_with(map, OpKind::GetField, span, o),
        ExprKind::Index(o, k) => {
            add_with(map, OpKind::GetField, span, o)?;
            add_expression(map, k)
        }
        ExprKind::Call(f, arguments) => {
            add_callee(map, f, span)?;
            add_expressions(map, arguments)
        }
        ExprKind::New(f, arguments) => {
            add_constructor(map, f, span)?;
            add_expressions(map, arguments)
        }
        ExprKind::Unary(op, e) => add_unary(map, *op, e, span),
        ExprKind::Update { target, .. } => add_update(map, target, span),
        ExprKind::Binary(_, a, b) => {
            add_with(map, OpKind::Binary, span, a)?;
            add_expression(map, b)
        }
        ExprKind::And(a, b) => {
            add_test(map, a)?;
            add_expression(map, b)
        }
        ExprKind::Or(a, b) => {
            add_test(map, a)?;
            add_expression(map, b)
        }
        ExprKind::Cond(test, a, b) => {
            add_test(map, test)?;
            add_expression(map, a)?;
            add_expression(map, b)
        }
        ExprKind::Assign(op, target, e) => {
            add_assigned(map, *op, target, span)?;
            add_expression(map, e)
        }
        ExprKind::Comma(a, b) => {
            add_expression(map, a)?;
            add_expression(map, b)
        }
    }
}

/// A row of this kind, and then those of an expression.
#[cycle(mapping)]
pub fn add_with(map: &mut OpMap, kind: OpKind, span: Span, e: &Expr) -> Result<(), NoMemory>
    requires few { HasRoom map.old (1 + id_count (view_expression e.now)) }
    ensures added { OnOk result (map.new ≡ map.old ++ (kind, span) ∷ entries place_of (view_expression e.now)) }
    ensures counted { OnOk result (length map.new ≡ length map.old + (1 + id_count (view_expression e.now))) }
{
    add_row(map, kind, span)?;
    add_expression(map, e)
}

/// What is tested, whose place is that of the test.
#[cycle(mapping)]
pub fn add_test(map: &mut OpMap, e: &Expr) -> Result<(), NoMemory>
    requires few { HasRoom map.old (1 + id_count (view_expression e.now)) }
    ensures added { OnOk result (map.new
        ≡ map.old ++ (kind.Conditional, place (view_expression e.now)) ∷ entries place_of (view_expression e.now)) }
    ensures counted { OnOk result (length map.new ≡ length map.old + (1 + id_count (view_expression e.now))) }
{
    add_with(map, OpKind::Conditional, e.span, e)
}

/// The rows of an expression, if there is one.
#[cycle(mapping)]
pub fn add_optional(map: &mut OpMap, e: &Option<Expr>) -> Result<(), NoMemory>
    requires few { HasRoom map.old (optional_id_count (view_optional e.now)) }
    ensures added { OnOk result (map.new ≡ map.old ++ optional_entries place_of (view_optional e.now)) }
    ensures counted { OnOk result (length map.new ≡ length map.old + optional_id_count (view_optional e.now)) }
{
    match e {
        Some(e) => add_expression(map, e),
        None => Ok(()),
    }
}

#[cycle(mapping)]
fn add_function_expression(map: &mut OpMap, f: &Function, span: Span) -> Result<(), NoMemory>
    requires few { HasRoom map.old (1 + id_count (view_function f.now)) }
    ensures added { OnOk result (map.new
        ≡ map.old ++ (kind.FunctionLiteral, span) ∷ entries place_of (view_function f.now)) }
    ensures counted { OnOk result (length map.new ≡ length map.old + (1 + id_count (view_function f.now))) }
{
    add_row(map, OpKind::FunctionLiteral, span)?;
    add_function(map, f)
}

/// The callee of a call that stands at `span`, with the rows of that call: they come after a member's own.
#[cycle(mapping)]
fn add_callee(map: &mut OpMap, f: &Expr, span: Span) -> Result<(), NoMemory>
    requires few { HasRoom map.old (2 + id_count (view_expression f.now)) }
    ensures added { OnOk result (map.new
        ≡ map.old ++ call_entries place_of (view_expression f.now) span (entries place_of (view_expression f.now))) }
    ensures counted { OnOk result (length map.new ≡ length map.old + (2 + id_count (view_expression f.now))) }
{
    match &f.kind {
        ExprKind::Dot(o, _) => add_method(map, f.span, span, o),
        ExprKind::Index(o, k) => {
            add_method(map, f.span, span, o)?;
            add_expression(map, k)
        }
        _ => add_constructor(map, f, span),
    }
}

/// A member at `span` that is called at `call`, and the object that it is a member of.
#[cycle(mapping)]
fn add_method(map: &mut OpMap, span: Span, call: Span, o: &Expr) -> Result<(), NoMemory>
    requires few { HasRoom map.old (3 + id_count (view_expression o.now)) }
    ensures added { OnOk result (map.new ≡ map.old
        ++ (kind.GetField, span) ∷ invoke_entries place_of call ++ entries place_of (view_expression o.now)) }
    ensures counted { OnOk result (length map.new ≡ length map.old + (3 + id_count (view_expression o.now))) }
{
    add_row(map, OpKind::GetField, span)?;
    add_invocation(map, call)?;
    add_expression(map, o)
}

/// A constructor, with the rows of its call, or a callee that is no member.
#[cycle(mapping)]
fn add_constructor(map: &mut OpMap, f: &Expr, span: Span) -> Result<(), NoMemory>
    requires few { HasRoom map.old (2 + id_count (view_expression f.now)) }
    ensures added { OnOk result (map.new
        ≡ map.old ++ (invoke_entries place_of span ++ entries place_of (view_expression f.now))) }
    ensures counted { OnOk result (length map.new ≡ length map.old + (2 + id_count (view_expression f.now))) }
{
    add_invocation(map, span)?;
    add_expression(map, f)
}

#[cycle(mapping)]
fn add_unary(map: &mut OpMap, op: UnOp, e: &Expr, span: Span) -> Result<(), NoMemory>
    requires few { HasRoom map.old (id_count (tree.unary op (view_expression e.now) span)) }
    ensures added { OnOk result (map.new
        ≡ map.old ++ entries place_of (tree.unary op (view_expression e.now) span)) }
    ensures counted { OnOk result (length map.new
        ≡ length map.old + id_count (tree.unary op (view_expression e.now) span)) }
{
    match op {
        UnOp::Delete => add_delete(map, e, span),
        UnOp::Typeof => add_typeof(map, e, span),
        _ => add_with(map, OpKind::Unary, span, e),
    }
}

/// `delete` (11.4.1): a member has a row in place of its own, and a name has none.
#[cycle(mapping)]
fn add_delete(map: &mut OpMap, e: &Expr, span: Span) -> Result<(), NoMemory>
    requires few { HasRoom map.old (id_count (tree.unary un.Delete (view_expression e.now) span)) }
    ensures added { OnOk result (map.new
        ≡ map.old ++ entries place_of (tree.unary un.Delete (view_expression e.now) span)) }
    ensures counted { OnOk result (length map.new
        ≡ length map.old + id_count (tree.unary un.Delete (view_expression e.now) span)) }
{
    match &e.kind {
        ExprKind::Name(_) => Ok(()),
        ExprKind::Dot(o, _) => add_with(map, OpKind::DeleteField, span, o),
        ExprKind::Index(o, k) => {
            add_with(map, OpKind::DeleteField, span, o)?;
            add_expression(map, k)
        }
        _ => add_expression(map, e),
    }
}

/// `typeof` (11.4.3): a name is not read.
#[cycle(mapping)]
fn add_typeof(map: &mut OpMap, e: &Expr, span: Span) -> Result<(), NoMemory>
    requires few { HasRoom map.old (id_count (tree.unary un.Typeof (view_expression e.now) span)) }
    ensures added { OnOk result (map.new
        ≡ map.old ++ entries place_of (tree.unary un.Typeof (view_expression e.now) span)) }
    ensures counted { OnOk result (length map.new
        ≡ length map.old + id_count (tree.unary un.Typeof (view_expression e.now) span)) }
{
    match &e.kind {
        ExprKind::Name(_) => add_row(map, OpKind::TypeofName, span),
        _ => add_with(map, OpKind::Unary, span, e),
    }
}

/// The target of `++` or `--` (11.3, 11.4).
#[cycle(mapping)]
fn add_update(map: &mut OpMap, t: &Target, span: Span) -> Result<(), NoMemory>
    requires few { HasRoom map.old (3 + id_count (view_target t.now)) }
    ensures added { OnOk result (map.new ≡ map.old
        ++ (compute_entries place_of (view_target t.now) kind.Unary span ++ entries place_of (view_target t.now))) }
    ensures counted { OnOk result (length map.new ≡ length map.old + (3 + id_count (view_target t.now))) }
{
    add_computation(map, t, OpKind::Unary, span)?;
    add_target(map, t)
}

/// The target of an assignment (11.13) by this operator, or of a plain one.
#[cycle(mapping)]
fn add_assigned(map: &mut OpMap, op: Option<BinOp>, t: &Target, span: Span) -> Result<(), NoMemory>
    requires few { HasRoom map.old (assignment_id_count op + id_count (view_target t.now)) }
    ensures added { OnOk result (map.new ≡ map.old
        ++ (assign_entries place_of op (view_target t.now) span ++ entries place_of (view_target t.now))) }
    ensures counted { OnOk result (length map.new
        ≡ length map.old + (assignment_id_count op + id_count (view_target t.now))) }
{
    add_assignment(map, op, t, span)?;
    add_target(map, t)
}

#[cycle(mapping)]
fn add_target(map: &mut OpMap, t: &Target) -> Result<(), NoMemory>
    requires few { HasRoom map.old (id_count (view_target t.now)) }
    ensures added { OnOk result (map.new ≡ map.old ++ entries place_of (view_target t.now)) }
    ensures counted { OnOk result (length map.new ≡ length map.old + id_count (view_target t.now)) }
{
    match t {
        Target::Name(_) => Ok(()),
        Target::Dot(o, _, _) => add_expression(map, o),
        Target::Index(o, k, _) => {
            add_expression(map, o)?;
            add_expression(map, k)
        }
    }
}

/// A property of an object literal (11.1.5).
#[cycle(mapping)]
pub fn add_entry(map: &mut OpMap, p: &Entry) -> Result<(), NoMemory>
    requires few { HasRoom map.old (id_count (view_entry p.now)) }
    ensures added { OnOk result (map.new ≡ map.old ++ entries place_of (view_entry p.now)) }
    ensures counted { OnOk result (length map.new ≡ length map.old + id_count (view_entry p.now)) }
{
    match p {
        Entry::Value(_, e) => add_expression(map, e),
        Entry::Get(_, f) => add_function(map, f),
        Entry::Set(_, f) => add_function(map, f),
    }
}

/// A function (clause 13), which is entered and left.
#[cycle(mapping)]
pub fn add_function(map: &mut OpMap, f: &Function) -> Result<(), NoMemory>
    requires few { HasRoom map.old (id_count (view_function f.now)) }
    ensures added { OnOk result (map.new ≡ map.old ++ entries place_of (view_function f.now)) }
    ensures counted { OnOk result (length map.new ≡ length map.old + id_count (view_function f.now)) }
{
    add_row(map, OpKind::FunctionEnter, f.span)?;
    add_row(map, OpKind::FunctionExit, f.span)?;
    add_body(map, &f.body)
}
