//! First operands of expressions (11.2.1, 11.4 to 11.13): where the value of one is there at once, its expression goes
//! on with that, and no frame waits for it.
ghost use Rattle.std.specs.Prelude.{◌≡◌, ◌-◌, ◌<◌, ◌≤◌, IfOk, IfSome};
ghost use Rattle.jl_ast.specs.View.{view_expression};
ghost use Rattle.jl_meaning.specs.Expressions.{evaluate};
ghost use Rattle.jl_meaning.specs.Parts.{◌>>=◌ as ◌then◌};
ghost use Rattle.jl_state.specs.Clauses.{Evaluates};
ghost use Rattle.jl_state.specs.Steps.{Supplies, Took};
ghost use Rattle.jl_state.specs.Trees.{plain};
ghost use Rattle.jl_state.specs.ValueFrames.{value_after};
ghost use Rattle.jl_state.specs.Words.{context_of, table_of};
ghost use Rattle.jl_state.specs.declared.state.State.{State as Machine};

use crate::boxes::evaluate_boxed;
use jl_algorithm::leaf_value;
use jl_ast::{BinOp, Expr};
use jl_call::{step_callee, step_callee_dot_base};
use jl_literal::{step_left_operand, step_operand};
use jl_member::{step_assign_dot_base, step_assign_index_base, step_dot_base, step_index_base};
use jl_op::UnKind;
use jl_state::{Act, Here, State, ValueFrame};
use jl_text::{List, NoMemory, Text};
use jl_value::Value;

/// The value of an expression in a box, where it is there at once.
fn leaf_in_box(state: &State<'_>, e: &Box<Expr>, here: Here) -> Result<Option<Value>, NoMemory>
    ensures left { IfOk result (λ r. IfSome r (λ _. 0 < state.now.left)) }
    ensures supplies { IfOk result (λ r. IfSome r (λ v. (t : Machine) → Took state.now t
        → t ≡ record state.now { left = state.now.left - 1 } → Supplies state.now (evaluate (table_of
        state.now.functions) (plain (view_expression e.now.value)) (context_of state.now.calls here)) v t)) }
{
    leaf_value(state, e, here)
}

/// `o.k` (11.2.1).
pub(crate) fn begin_dot<'p>(
    state: &mut State<'p>,
    object: &'p Box<Expr>,
    key: &'p Text,
    here: Here,
) -> Result<Act<'p>, NoMemory>
    ensures refines { Evaluates state.old (evaluate (table_of state.old.functions) (plain (view_expression
        object.now.value)) (context_of state.old.calls here) then value_after (table_of state.old.functions)
        state.old.calls (ValueFrame.DotBase key.entry)) result state.new }
    ensures left { IfOk result (λ _. state.new.left ≤ state.old.left) }
{
    if let Some(v) = leaf_in_box(&*state, object, here)? {
        state.take_step();
        return step_dot_base(state, key, v);
    }
    let frame = ValueFrame::DotBase { key };
    evaluate_boxed(state, frame, object, here)
}

/// `o[k]` (11.2.1).
pub(crate) fn begin_index<'p>(
    state: &mut State<'p>,
    object: &'p Box<Expr>,
    key: &'p Box<Expr>,
    here: Here,
) -> Result<Act<'p>, NoMemory>
    ensures refines { Evaluates state.old (evaluate (table_of state.old.functions) (plain (view_expression
        object.now.value)) (context_of state.old.calls here) then value_after (table_of state.old.functions)
        state.old.calls (ValueFrame.IndexBase key.entry here)) result state.new }
    ensures left { IfOk result (λ _. state.new.left ≤ state.old.left) }
{
    if let Some(v) = leaf_in_box(&*state, object, here)? {
        state.take_step();
        return step_index_base(state, key, here, v);
    }
    let frame = ValueFrame::IndexBase { key, here };
    evaluate_boxed(state, frame, object, here)
}

/// An operator between two operands (11.5 to 11.10).
pub(crate) fn begin_binary<'p>(
    state: &mut State<'p>,
    op: BinOp,
    left: &'p Box<Expr>,
    right: &'p Box<Expr>,
    here: Here,
) -> Result<Act<'p>, NoMemory>
    ensures refines { Evaluates state.old (evaluate (table_of state.old.functions) (plain (view_expression
        left.now.value)) (context_of state.old.calls here) then value_after (table_of state.old.functions)
        state.old.calls (ValueFrame.LeftOperand op right.entry here)) result state.new }
    ensures left { IfOk result (λ _. state.new.left ≤ state.old.left) }
{
    if let Some(v) = leaf_in_box(&*state, left, here)? {
        state.take_step();
        return step_left_operand(state, op, right, here, v);
    }
    let frame = ValueFrame::LeftOperand { op, right, here };
    evaluate_boxed(state, frame, left, here)
}

/// An operator with one operand, on its value (11.4).
pub(crate) fn begin_operand<'p>(
    state: &mut State<'p>,
    op: UnKind,
    operand: &'p Expr,
    here: Here,
) -> Result<Act<'p>, NoMemory>
    ensures refines { Evaluates state.old (evaluate (table_of state.old.functions) (plain (view_expression operand.now))
        (context_of state.old.calls here) then value_after (table_of state.old.functions) state.old.calls
        (ValueFrame.Operand op)) result state.new }
    ensures left { IfOk result (λ _. state.new.left ≤ state.old.left) }
{
    if let Some(v) = leaf_value(&*state, operand, here)? {
        state.take_step();
        return step_operand(state, op, v);
    }
    let frame = ValueFrame::Operand { op };
    state.evaluate(frame, operand, here)
}

/// An assignment to `o.k` (11.13).
pub(crate) fn assign_dot<'p>(
    state: &mut State<'p>,
    object: &'p Expr,
    key: &'p Text,
    op: Option<BinOp>,
    value: &'p Box<Expr>,
    here: Here,
) -> Result<Act<'p>, NoMemory>
    ensures refines { Evaluates state.old (evaluate (table_of state.old.functions) (plain (view_expression object.now))
        (context_of state.old.calls here) then value_after (table_of state.old.functions) state.old.calls
        (ValueFrame.AssignDotBase key.entry op value.entry here)) result state.new }
    ensures left { IfOk result (λ _. state.new.left ≤ state.old.left) }
{
    if let Some(v) = leaf_value(&*state, object, here)? {
        state.take_step();
        return step_assign_dot_base(state, key, op, value, here, v);
    }
    let frame = ValueFrame::AssignDotBase {
        key,
        op,
        value,
        here,
    };
    state.evaluate(frame, object, here)
}

/// An assignment to `o[k]` (11.13).
pub(crate) fn assign_index<'p>(
    state: &mut State<'p>,
    object: &'p Expr,
    key: &'p Expr,
    op: Option<BinOp>,
    value: &'p Box<Expr>,
    here: Here,
) -> Result<Act<'p>, NoMemory>
    ensures refines { Evaluates state.old (evaluate (table_of state.old.functions) (plain (view_expression object.now))
        (context_of state.old.calls here) then value_after (table_of state.old.functions) state.old.calls
        (ValueFrame.AssignIndexBase key.entry op value.entry here)) result state.new }
    ensures left { IfOk result (λ _. state.new.left ≤ state.old.left) }
{
    if let Some(v) = leaf_value(&*state, object, here)? {
        state.take_step();
        return step_assign_index_base(state, key, op, value, here, v);
    }
    let frame = ValueFrame::AssignIndexBase {
        key,
        op,
        value,
        here,
    };
    state.evaluate(frame, object, here)
}

/// A call of `o.k` (11.2.3).
pub(crate) fn begin_method<'p>(
    state: &mut State<'p>,
    object: &'p Box<Expr>,
    key: &'p Text,
    args: &'p List<Expr>,
    here: Here,
) -> Result<Act<'p>, NoMemory>
    ensures refines { Evaluates state.old (evaluate (table_of state.old.functions) (plain (view_expression
        object.now.value)) (context_of state.old.calls here) then value_after (table_of state.old.functions)
        state.old.calls (ValueFrame.CalleeDotBase key.entry args.entry here)) result state.new }
    ensures left { IfOk result (λ _. state.new.left ≤ state.old.left) }
{
    if let Some(v) = leaf_in_box(&*state, object, here)? {
        state.take_step();
        return step_callee_dot_base(state, key, args, here, v);
    }
    let frame = ValueFrame::CalleeDotBase { key, args, here };
    evaluate_boxed(state, frame, object, here)
}

/// A call of a function (11.2.3), or with `new` a construction by it (11.2.2).
pub(crate) fn begin_callee<'p>(
    state: &mut State<'p>,
    callee: &'p Expr,
    by_new: bool,
    args: &'p List<Expr>,
    here: Here,
) -> Result<Act<'p>, NoMemory>
    ensures refines { Evaluates state.old (evaluate (table_of state.old.functions) (plain (view_expression callee.now))
        (context_of state.old.calls here) then value_after (table_of state.old.functions) state.old.calls
        (ValueFrame.Callee Value.Undefined by_new args.entry here)) result state.new }
    ensures left { IfOk result (λ _. state.new.left ≤ state.old.left) }
{
    if let Some(v) = leaf_value(&*state, callee, here)? {
        state.take_step();
        return step_callee(state, Value::Undefined, by_new, args, here, v);
    }
    let frame = ValueFrame::Callee {
        this: Value::Undefined,
        by_new,
        args,
        here,
    };
    state.evaluate(frame, callee, here)
}
