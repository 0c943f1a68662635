//! Frames that wait for a value for a builtin, and arguments that have to be objects.
ghost use Rattle.std.specs.Prelude.{◌≡◌, ◌∷◌, IfOk, OnOk};
ghost use Rattle.jl_meaning.specs.builtins.Arguments.{argument, need_object};
ghost use Rattle.jl_state.specs.Steps.{AlgorithmWaits};
ghost use Rattle.jl_state.specs.Words.{call_of};
ghost use Rattle.jl_store.specs.Answers.{ends_with};
ghost use Rattle.jl_store.specs.BigStep.{BigStep};

use jl_builtin::{argument, need_object};
use jl_progress::{FunctionProgress, ObjectProgress, Progress};
use jl_state::{AlgorithmFrame, Frame, Invocation, State};
use jl_store::{Answer, Store};
use jl_text::NoMemory;
use jl_value::{ObjId, Value};
use std::alloc::Global;

/// A builtin of Object waits for a value.
pub(crate) fn wait_object<'p>(
    state: &mut State<'p>,
    progress: ObjectProgress,
) -> Result<(), NoMemory>
    ensures waits { OnOk result (AlgorithmWaits state.old
        (AlgorithmFrame.Builtin (Progress.Object progress)) state.new) }
    ensures pushed { OnOk result (state.new ≡ record state.old {
      stack = Frame.Algorithm (AlgorithmFrame.Builtin (Progress.Object progress)) ∷ state.old.stack;
    }) }
{
    state.push_builtin(Progress::Object(progress))?;
    Ok(())
}

/// A builtin of functions waits for a value.
pub(crate) fn wait_function<'p>(
    state: &mut State<'p>,
    progress: FunctionProgress,
) -> Result<(), NoMemory>
    ensures waits { OnOk result (AlgorithmWaits state.old
        (AlgorithmFrame.Builtin (Progress.Function progress)) state.new) }
    ensures pushed { OnOk result (state.new ≡ record state.old {
      stack = Frame.Algorithm (AlgorithmFrame.Builtin (Progress.Function progress)) ∷ state.old.stack;
    }) }
{
    state.push_builtin(Progress::Function(progress))?;
    Ok(())
}

/// An argument of a call, or undefined where it isn't given.
pub(crate) fn argument_of(alloc: Global, call: &Invocation, index: usize) -> Result<Value, NoMemory>
    ensures { IfOk result (λ v. v ≡ argument (call_of call.now) index) }
{
    let v = argument(alloc, call.args.items(), index)?;
    Ok(v)
}

/// The first argument of a call, which has to be an object.
pub(crate) fn first_object(
    alloc: Global,
    store: &mut Store,
    call: &Invocation,
) -> Result<Answer<ObjId>, NoMemory>
    ensures { IfOk result (λ answer. BigStep (need_object (argument (call_of call.now) 0)) store.old store.new
        (ends_with answer)) }
{
    let v = argument_of(alloc, call, 0)?;
    let answer = need_object(store, &v)?;
    Ok(answer)
}
