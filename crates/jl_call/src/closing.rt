//! The second call of a pair of calls of a hook, for which the first has prepared something (8.7.2, 11.2, 11.13).
ghost use Rattle.std.specs.Prelude.{◌+◌, []};
ghost use Rattle.jl_ast.specs.View.{view_expressions};
ghost use Rattle.jl_meaning.specs.Expressions.{evaluate_all};
ghost use Rattle.jl_meaning.specs.Noting.{emits};
ghost use Rattle.jl_meaning.specs.Parts.{give, ◌>>=◌ as ◌then◌};
ghost use Rattle.jl_meaning.specs.forms.Hooks.{close};
ghost use Rattle.jl_meaning.specs.forms.Members.{put_member};
ghost use Rattle.jl_meaning.specs.forms.Operators.{operate};
ghost use Rattle.jl_state.specs.Clauses.{Evaluates, RankAtMost, Resumes};
ghost use Rattle.jl_state.specs.Trees.{plain_forest};
ghost use Rattle.jl_state.specs.Words.{context_of, pending_of, table_of};

use crate::invoking::invoke;
use crate::leaves::take_leaves;
use crate::values::first_of;
use crate::waiting::evaluate_argument;
use jl_ast::{BinOp, Expr};
use jl_member::put_member;
use jl_operator::operate;
use jl_state::{Act, ArgumentUse, Arguments, Here, HookId, Pending, Remaining, State, ValueFrame};
use jl_text::{List, NoMemory, Text};
use jl_value::{Value, share};

/// The arguments of the second call are evaluated, and then it is done.
pub(crate) fn start_closing<'p>(
    state: &mut State<'p>,
    pending: Pending,
    args: &'p List<Expr>,
    here: Here,
) -> Result<Act<'p>, NoMemory>
    ensures refines { Evaluates state.old (evaluate_all (table_of state.old.functions) 0 [] (plain_forest
        (view_expressions args.now)) (context_of state.old.calls here) then close (table_of state.old.functions)
        (context_of state.old.calls here) (pending_of pending)) result state.new }
    ensures bounded { RankAtMost state.old 134 result state.new }
{
    let mut values = List::new(state.alloc());
    let rest = Remaining {
        list: args,
        from: 0,
    };
    let next = take_leaves(state, &mut values, rest, here)?;
    match next {
        None => close(state, pending, values, here),
        Some((e, rest)) => {
            let arguments = Arguments {
                purpose: ArgumentUse::Close(pending),
                so_far: values,
                rest,
                here,
            };
            evaluate_argument(state, arguments, e)
        }
    }
}

/// The second call, with the values of its arguments.
#[tactic(auto, unfolding(jl_meaning::specs::forms::Hooks::close))]
pub(crate) fn close<'p>(
    state: &mut State<'p>,
    pending: Pending,
    values: List<Value>,
    here: Here,
) -> Result<Act<'p>, NoMemory>
    ensures refines { Evaluates state.old (close (table_of state.old.functions) (context_of state.old.calls here)
        (pending_of pending) values) result state.new }
    ensures bounded { RankAtMost state.old 110 result state.new }
{
    let alloc = state.alloc();
    match pending {
        Pending::Put { id, base, name } => {
            let value = first_of(alloc, &values)?;
            put_pending(state, id, here.strict, base, name, value)
        }
        Pending::Assign {
            id,
            op,
            base,
            name,
            held,
        } => {
            let operand = first_of(alloc, &values)?;
            assign_pending(state, id, here.strict, op, base, name, held, operand)
        }
        Pending::Call { id, callee, this } => invoke(state, true, id, callee, this, values, false),
        Pending::New { id, callee } => invoke(
            state,
            true,
            id,
            callee,
            Value::Undefined,
            values,
            true,
        ),
    }
}

/// A hook puts a value to a member, and gives it (11.13.1).
fn put_pending<'p>(
    state: &mut State<'p>,
    id: HookId,
    strict: bool,
    base: Value,
    name: Text,
    value: Value,
) -> Result<Act<'p>, NoMemory>
    ensures refines { Evaluates state.old (put_member emits id.id strict base name value then λ _. give value) result
        state.new }
    ensures bounded { RankAtMost state.old 56 result state.new }
{
    let alloc = state.alloc();
    let gives = share(alloc, &value)?;
    put_member(state, true, id.first(), strict, base, name, value, gives)
}

/// A hook puts what an operator makes of the value that a member had and another one, and gives it (11.13.2).
#[tactic(auto, using(crate::proofs::Closings::assigns))]
fn assign_pending<'p>(
    state: &mut State<'p>,
    id: HookId,
    strict: bool,
    op: BinOp,
    base: Value,
    name: Text,
    held: Value,
    operand: Value,
) -> Result<Act<'p>, NoMemory>
    ensures refines { Evaluates state.old (operate emits (id.id + 1) op held operand then λ v. put_member emits (id.id
        + 2) strict base name v then λ _. give v) result state.new }
    ensures bounded { RankAtMost state.old 110 result state.new }
{
    state.push_value(ValueFrame::PutMember {
        emits: true,
        id: id.third(),
        base,
        name,
        strict,
    })?;
    operate(state, true, id.second(), op, held, operand)
}

/// A hook has got the value that an assignment computes with (11.13.2).
pub fn step_compute_pending<'p>(
    state: &mut State<'p>,
    id: HookId,
    op: BinOp,
    base: Value,
    name: Text,
    args: &'p List<Expr>,
    here: Here,
    v: Value,
) -> Result<Act<'p>, NoMemory>
    ensures refines { Resumes state.old (ValueFrame.ComputePending id op base name args.entry here) v result state.new }
    ensures bounded { RankAtMost state.old 138 result state.new }
{
    let pending = Pending::Assign {
        id,
        op,
        base,
        name,
        held: v,
    };
    start_closing(state, pending, args, here)
}

/// A hook has got the method of a call (11.2.3).
pub fn step_method_pending<'p>(
    state: &mut State<'p>,
    id: HookId,
    base: Value,
    args: &'p List<Expr>,
    here: Here,
    v: Value,
) -> Result<Act<'p>, NoMemory>
    ensures refines { Resumes state.old (ValueFrame.MethodPending id base args.entry here) v result state.new }
    ensures bounded { RankAtMost state.old 138 result state.new }
{
    let pending = Pending::Call {
        id: id.call_after_get(),
        callee: v,
        this: base,
    };
    start_closing(state, pending, args, here)
}
