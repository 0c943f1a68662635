//! Calls begun (13.2, 15.3.4.5).
ghost use Rattle.std.specs.Prelude.{◌≡◌};
ghost use Rattle.jl_heap.specs.Objects.{object_at};
ghost use Rattle.jl_meaning.specs.Jobs.{call_inside};
ghost use Rattle.jl_meaning.specs.Parts.{begin_call, CallOf};
ghost use Rattle.jl_state.specs.Clauses.{Evaluates, RankAtMost};
ghost use Rattle.jl_state.specs.Words.{call_of, table_of};

use crate::builtins::begin_builtin;
use jl_builtin::{copy_of, with_values};
use jl_function::{begin_script, call_bound};
use jl_heap::Inner;
use jl_state::{Act, Invocation, State};
use jl_text::NoMemory;
use jl_value::{Value, share};

/// A call takes a step, and its function is entered.
pub(crate) fn begin_call<'p>(state: &mut State<'p>, call: Invocation) -> Result<Act<'p>, NoMemory>
    ensures refines { Evaluates state.old (begin_call CallOf (call_of call)) result state.new }
    ensures bounded { RankAtMost state.old 1 result state.new }
{
    if !state.spend() {
        return Ok(Act::Spent);
    }
    Ok(begin_inside(state, call)?)
}

/// The function of a call is entered, by what the callee is inside. An object that is no function gives undefined.
fn begin_inside<'p>(state: &mut State<'p>, call: Invocation) -> Result<Act<'p>, NoMemory>
    ensures refines { Evaluates state.old (call_inside (table_of state.old.functions) state.old.store.heap (call_of
        call) (object_at state.old.store.heap call.callee.0).inner) result state.new }
    ensures bounded { RankAtMost state.old 400 result state.new }
{
    let alloc = state.alloc();
    match state.store.inner_of(call.callee) {
        Inner::Script { function, env } => {
            let function = *function;
            let env = *env;
            begin_script(state, function, env, call)
        }
        Inner::Native(builtin) => {
            let builtin = *builtin;
            begin_builtin(state, builtin, call)
        }
        Inner::Bound { target, this, args } => {
            let target = *target;
            let this = share(alloc, this)?;
            let bound = copy_of(alloc, args.items())?;
            let args = with_values(alloc, bound, call.args.items())?;
            call_bound(state, target, this, args, call.by_new)
        }
        _ => Ok(Act::Give(Value::Undefined)),
    }
}
