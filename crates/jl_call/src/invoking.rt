//! Calls and constructions, when the arguments have been evaluated (11.2.2, 11.2.3).
ghost use Rattle.jl_meaning.specs.Noting.{emits};
ghost use Rattle.jl_meaning.specs.forms.Calls.{invoke};
ghost use Rattle.jl_state.specs.Words.{call_of, noting, table_of};
ghost use Rattle.jl_call.specs.inner.Invoked.{invoke_function};
ghost use Rattle.jl_state.specs.Clauses.{Evaluates, RankAtMost};

use crate::targets::{function_of, no_function, seen_values, target_of};
use jl_algorithm::throw_native;
use jl_op::Op;
use jl_operator::emit_for;
use jl_state::{Act, CallId, EmitFrame, Invocation, State};
use jl_text::{List, NoMemory};
use jl_value::{ErrorKind, Value};

/// A call, or with `new` a construction, when the arguments have been evaluated (11.2.2, 11.2.3).
#[tactic(auto, using(crate::proofs::Invocations::invocations))]
pub fn invoke<'p>(
    state: &mut State<'p>,
    emits: bool,
    id: CallId,
    callee: Value,
    this: Value,
    args: List<Value>,
    by_new: bool,
) -> Result<Act<'p>, NoMemory>
    ensures refines { Evaluates state.old (invoke (table_of state.old.functions) (noting emits) id.pre callee this
        args by_new) result state.new }
    ensures bounded { RankAtMost state.old 20 result state.new }
{
    match function_of(&state.store, &callee, by_new) {
        Some(callee) => {
            let call = Invocation {
                callee,
                this,
                args,
                by_new,
            };
            invoke_function(state, emits, id, call)
        }
        None => throw_native(state, ErrorKind::TypeError, no_function(by_new)),
    }
}

/// A call of a function, which a hook emits before it is made and when it has returned.
fn invoke_function<'p>(
    state: &mut State<'p>,
    emits: bool,
    id: CallId,
    call: Invocation,
) -> Result<Act<'p>, NoMemory>
    ensures refines { Evaluates state.old (invoke_function (table_of state.old.functions) (noting emits) id.pre
        (call_of call)) result state.new }
    ensures bounded { RankAtMost state.old 20 result state.new }
{
    let alloc = state.alloc();
    if emits {
        tell_call(state, id, call)
    } else {
        Act::call(alloc, call)
    }
}

/// The observer is told of a call that a hook makes, and then it is made.
fn tell_call<'p>(state: &mut State<'p>, id: CallId, call: Invocation) -> Result<Act<'p>, NoMemory>
    ensures refines { Evaluates state.old (invoke_function (table_of state.old.functions) emits id.pre (call_of call))
        result state.new }
    ensures bounded { RankAtMost state.old 14 result state.new }
{
    let alloc = state.alloc();
    let told = Op::InvokePre {
        callee: call.callee,
        target: target_of(&state.functions, state.store.inner_of(call.callee))?,
        this: state.store.seen(&call.this)?,
        args: seen_values(alloc, &state.store, &call.args)?,
        by_new: call.by_new,
    };
    emit_for(state, id.pre(), told, EmitFrame::Invoke { id, call })
}
