//! Expressions begun (clause 11).
ghost use Rattle.std.specs.Prelude.{◌≡◌, ◌≤◌, IfOk};
ghost use Rattle.jl_ast.specs.Tree as tree;
ghost use Rattle.jl_ast.specs.View.{view_expression, view_target};
ghost use Rattle.jl_op.specs.UnaryKinds.{unary_kind};
ghost use Rattle.jl_meaning.specs.Expressions.{evaluate, evaluate_assignment, evaluate_delete, evaluate_typeof};
ghost use Rattle.jl_meaning.specs.Expressions.{evaluate_update};
ghost use Rattle.jl_state.specs.Trees.{plain};
ghost use Rattle.jl_state.specs.Words.{context_of, table_of};
ghost use Rattle.jl_expression.specs.inner.Begun.{assigned_name, begin, this_in};
ghost use Rattle.jl_state.specs.Clauses.{Evaluates, RankAtMost};

use crate::boxes::evaluate_boxed;
use crate::calls::{begin_call, begin_new};
use crate::operands::{
    assign_dot, assign_index, begin_binary, begin_dot, begin_index, begin_operand,
};
use jl_ast::{BinOp, Expr, ExprKind, Target, UnOp};
use jl_literal::{
    begin_array, begin_function, begin_object, give_boolean, give_null, give_number, give_text,
};
use jl_member::{assign_name, compute_name, delete_name, read_name, typeof_name, update_name};
use jl_op::{UnKind, unary_kind};
use jl_state::{Act, Calls, Here, State, ValueFrame};
use jl_text::{NoMemory, Text};
use jl_value::{ObjId, Value, share};
use std::alloc::Global;

/// An expression takes a step, and begins.
pub fn begin_expression<'p>(
    state: &mut State<'p>,
    e: &'p Expr,
    here: Here,
) -> Result<Act<'p>, NoMemory>
    ensures refines { Evaluates state.old (evaluate (table_of state.old.functions) (plain (view_expression e.now))
        (context_of state.old.calls here)) result state.new }
    ensures bounded { RankAtMost state.old 1 result state.new }
{
    if !state.spend() {
        return Ok(Act::Spent);
    }
    begin(state, e, here)
}

/// What an expression does after the step that begins it.
#[tactic(auto, using(jl_ast::proofs::Views::nodes))]
fn begin<'p>(state: &mut State<'p>, e: &'p Expr, here: Here) -> Result<Act<'p>, NoMemory>
    ensures refines { Evaluates state.old (begin (table_of state.old.functions) (plain (view_expression e.now))
        (context_of state.old.calls here)) result state.new }
    ensures left { IfOk result (λ _. state.new.left ≤ state.old.left) }
{
    let alloc = state.alloc();
    match &e.kind {
        ExprKind::This => Ok(Act::Give(this_value(alloc, &state.calls)?)),
        ExprKind::Name(name) => read_name(state, name, here),
        ExprKind::Num(number) => Ok(give_number(*number)),
        ExprKind::Str(text) => give_text(alloc, text),
        ExprKind::Bool(truth) => Ok(give_boolean(*truth)),
        ExprKind::Null => Ok(give_null()),
        ExprKind::Array(items) => begin_array(state, items, here),
        ExprKind::Object(entries) => begin_object(state, entries, here),
        ExprKind::Function(function) => begin_function(state, function, here),
        ExprKind::Dot(object, key) => begin_dot(state, object, key, here),
        ExprKind::Index(object, key) => begin_index(state, object, key, here),
        ExprKind::Call(callee, args) => begin_call(state, callee, args, here),
        ExprKind::New(constructor, args) => begin_new(state, constructor, args, here),
        ExprKind::Unary(op, operand) => begin_unary(state, *op, operand, here),
        ExprKind::Update { up, prefix, target } => begin_update(state, *up, *prefix, target, here),
        ExprKind::Binary(op, left, right) => begin_binary(state, *op, left, right, here),
        ExprKind::And(left, right) => {
            evaluate_boxed(state, ValueFrame::And { right, here }, left, here)
        }
        ExprKind::Or(left, right) => {
            evaluate_boxed(state, ValueFrame::Or { right, here }, left, here)
        }
        ExprKind::Cond(test, first, second) => {
            let frame = ValueFrame::Conditional {
                first,
                second,
                here,
            };
            evaluate_boxed(state, frame, test, here)
        }
        ExprKind::Assign(op, target, value) => { begin_assignment(state, *op, target, value, here) }
        ExprKind::Comma(left, right) => {
            evaluate_boxed(state, ValueFrame::Comma { right, here }, left, here)
        }
    }
}

/// What `this` is (10.3, 11.1.1): in global code the global object.
fn this_value(alloc: Global, calls: &Calls) -> Result<Value, NoMemory>
    ensures { IfOk result (λ v. v ≡ this_in calls.now) }
{
    match calls.innermost() {
        Some(call) => share(alloc, &call.this),
        None => Ok(Value::Obj(ObjId::GLOBAL)),
    }
}

/// An operator with one operand (11.4).
#[tactic(auto, using(crate::proofs::Begun::operands))]
fn begin_unary<'p>(
    state: &mut State<'p>,
    op: UnOp,
    operand: &'p Expr,
    here: Here,
) -> Result<Act<'p>, NoMemory>
    ensures refines { Evaluates state.old (begin (table_of state.old.functions) (tree.unary op (plain (view_expression
        operand.now)) 0) (context_of state.old.calls here)) result state.new }
    ensures left { IfOk result (λ _. state.new.left ≤ state.old.left) }
{
    match op {
        UnOp::Typeof => begin_typeof(state, operand, here),
        UnOp::Delete => begin_delete(state, operand, here),
        _ => {
            let op = unary_kind(op);
            begin_operand(state, op, operand, here)
        }
    }
}

/// `typeof` (11.4.3).
#[tactic(auto, using(jl_ast::proofs::Views::nodes))]
fn begin_typeof<'p>(
    state: &mut State<'p>,
    operand: &'p Expr,
    here: Here,
) -> Result<Act<'p>, NoMemory>
    ensures refines { Evaluates state.old (evaluate_typeof (table_of state.old.functions) (plain (view_expression
        operand.now)) (evaluate (table_of state.old.functions) (plain (view_expression operand.now)) (context_of
        state.old.calls here)) 0 (context_of state.old.calls here)) result state.new }
    ensures left { IfOk result (λ _. state.new.left ≤ state.old.left) }
{
    match &operand.kind {
        ExprKind::Name(name) => typeof_name(state, name, here),
        _ => {
            let op = UnKind::Typeof;
            state.evaluate(ValueFrame::Operand { op }, operand, here)
        }
    }
}

/// `delete` (11.4.1).
#[tactic(auto, using(jl_ast::proofs::Views::nodes))]
fn begin_delete<'p>(
    state: &mut State<'p>,
    operand: &'p Expr,
    here: Here,
) -> Result<Act<'p>, NoMemory>
    ensures refines { Evaluates state.old (evaluate_delete (table_of state.old.functions) (plain (view_expression
        operand.now)) (evaluate (table_of state.old.functions) (plain (view_expression operand.now)) (context_of
        state.old.calls here)) 0 (context_of state.old.calls here)) result state.new }
    ensures left { IfOk result (λ _. state.new.left ≤ state.old.left) }
{
    let strict = here.strict;
    match &operand.kind {
        ExprKind::Name(name) => delete_name(state, name, here),
        ExprKind::Dot(object, key) => {
            evaluate_boxed(
                state,
                ValueFrame::DeleteDotBase { key, strict },
                object,
                here,
            )
        }
        ExprKind::Index(object, key) => {
            evaluate_boxed(
                state,
                ValueFrame::DeleteIndexBase { key, here },
                object,
                here,
            )
        }
        _ => state.evaluate(ValueFrame::DeleteValue, operand, here),
    }
}

/// `++` and `--` (11.3, 11.4.4, 11.4.5).
#[tactic(auto, using(jl_ast::proofs::Views::nodes))]
fn begin_update<'p>(
    state: &mut State<'p>,
    up: bool,
    prefix: bool,
    target: &'p Target,
    here: Here,
) -> Result<Act<'p>, NoMemory>
    ensures refines { Evaluates state.old (evaluate_update (table_of state.old.functions) (plain (view_target
        target.now)) up prefix 0 (context_of state.old.calls here)) result state.new }
    ensures left { IfOk result (λ _. state.new.left ≤ state.old.left) }
{
    match target {
        Target::Name(name) => update_name(state, &name.text, up, prefix, here),
        Target::Dot(object, key, _) => {
            let frame = ValueFrame::UpdateDotBase {
                key,
                up,
                prefix,
                strict: here.strict,
            };
            state.evaluate(frame, object, here)
        }
        Target::Index(object, key, _) => {
            let frame = ValueFrame::UpdateIndexBase {
                key,
                up,
                prefix,
                here,
            };
            state.evaluate(frame, object, here)
        }
    }
}

/// An assignment (11.13).
#[tactic(auto, using(jl_ast::proofs::Views::nodes))]
fn begin_assignment<'p>(
    state: &mut State<'p>,
    op: Option<BinOp>,
    target: &'p Target,
    value: &'p Box<Expr>,
    here: Here,
) -> Result<Act<'p>, NoMemory>
    ensures refines { Evaluates state.old (evaluate_assignment (table_of state.old.functions) (plain (view_target
        target.now)) op (evaluate (table_of state.old.functions) (plain (view_expression value.now.value))
        (context_of state.old.calls here)) 0 (context_of state.old.calls here)) result state.new }
    ensures left { IfOk result (λ _. state.new.left ≤ state.old.left) }
{
    match target {
        Target::Name(name) => assign_to_name(state, op, &name.text, value, here),
        Target::Dot(object, key, _) => assign_dot(state, object, key, op, value, here),
        Target::Index(object, key, _) => assign_index(state, object, key, op, value, here),
    }
}

/// An assignment to a name (11.13.1, 11.13.2).
fn assign_to_name<'p>(
    state: &mut State<'p>,
    op: Option<BinOp>,
    name: &'p Text,
    value: &'p Box<Expr>,
    here: Here,
) -> Result<Act<'p>, NoMemory>
    ensures refines { Evaluates state.old (assigned_name op (context_of state.old.calls here) name.now (evaluate
        (table_of state.old.functions) (plain (view_expression value.now.value)) (context_of state.old.calls here)))
        result state.new }
    ensures left { IfOk result (λ _. state.new.left ≤ state.old.left) }
{
    match op {
        None => assign_name(state, name, value, here),
        Some(op) => compute_name(state, name, op, value, here),
    }
}
