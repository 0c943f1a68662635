//! What a function of arrays waits for, and what it does before its next turn.
ghost use Rattle.std.specs.Prelude.{◌≡◌, ◌+◌, ◌∷◌, OnOk};
ghost use Rattle.jl_meaning.specs.Parts.{give, ◌>>=◌ as ◌then◌};
ghost use Rattle.jl_meaning.specs.builtins.Elements.{add_index, delete_index, get_index, put_index};
ghost use Rattle.jl_progress.specs.Arrays.{array_after, rank_array};
ghost use Rattle.jl_state.specs.Clauses.{Computes, RankAtMost};
ghost use Rattle.jl_state.specs.Steps.{AlgorithmWaits};
ghost use Rattle.jl_value.specs.declared.value.Value.TheVariants as value;

use jl_builtin::{add_index, delete_index, fault_of, get_index, go_on, put_index};
use jl_progress::{ArrayProgress, Progress};
use jl_state::{Act, AlgorithmFrame, Frame, State};
use jl_store::{Answer, Finished};
use jl_text::NoMemory;
use jl_value::{Completion, ObjId, Value};

/// A function waits for a value.
pub(crate) fn wait<'p>(state: &mut State<'p>, progress: ArrayProgress) -> Result<(), NoMemory>
    ensures waits { OnOk result
        (AlgorithmWaits state.old (AlgorithmFrame.Builtin (Progress.Array progress)) state.new) }
    ensures pushed { OnOk result (state.new ≡ record state.old
        { stack = Frame.Algorithm (AlgorithmFrame.Builtin (Progress.Array progress)) ∷ state.old.stack }) }
{
    state.push_builtin(Progress::Array(progress))?;
    Ok(())
}

/// The next turn begins.
pub(crate) fn begin_turn<'p>(
    state: &mut State<'p>,
    progress: ArrayProgress,
) -> Result<Act<'p>, NoMemory>
    ensures refines { Computes state.old (array_after progress value.Undefined) result state.new }
    ensures bounded { RankAtMost state.old (rank_array progress + 3) result state.new }
{
    go_on(state, Progress::Array(progress))
}

/// An element is got, for which a function waits.
pub(crate) fn get_for<'p>(
    state: &mut State<'p>,
    object: ObjId,
    index: usize,
    progress: ArrayProgress,
) -> Result<Act<'p>, NoMemory>
    ensures refines { Computes state.old (get_index object index then array_after progress) result state.new }
    ensures bounded { RankAtMost state.old (rank_array progress + 4) result state.new }
{
    wait(state, progress)?;
    get_index(state, object, index)
}

/// An element is put, and then the next turn begins.
pub(crate) fn put_then<'p>(
    state: &mut State<'p>,
    object: ObjId,
    index: usize,
    v: Value,
    progress: ArrayProgress,
) -> Result<Act<'p>, NoMemory>
    ensures refines { Computes state.old (put_index object index v then λ _. array_after progress value.Undefined)
        result state.new }
    ensures bounded { RankAtMost state.old (rank_array progress + 42) result state.new }
{
    wait(state, progress)?;
    put_index(state, object, index, v, Value::Undefined)
}

/// An element is deleted, and then the next turn begins.
pub(crate) fn delete_then<'p>(
    state: &mut State<'p>,
    object: ObjId,
    index: usize,
    progress: ArrayProgress,
) -> Result<Act<'p>, NoMemory>
    ensures refines { Computes state.old (delete_index object index then λ _. array_after progress value.Undefined)
        result state.new }
    ensures bounded { RankAtMost state.old (rank_array progress + 3) result state.new }
{
    wait(state, progress)?;
    delete_element(state, object, index)
}

/// An element is deleted, and undefined is given.
fn delete_element<'p>(
    state: &mut State<'p>,
    object: ObjId,
    index: usize,
) -> Result<Act<'p>, NoMemory>
    ensures refines { Computes state.old (delete_index object index then λ _. give value.Undefined) result state.new }
    ensures bounded { RankAtMost state.old 3 result state.new }
{
    let answer = delete_index(state, object, index)?;
    match answer {
        Answer::Gives(()) => Ok(Act::Give(Value::Undefined)),
        Answer::Throws(thrown) => Ok(Act::Complete(Completion::Throw(thrown))),
    }
}

/// An element of a new array is added, and then the next turn begins.
pub(crate) fn add_then<'p>(
    state: &mut State<'p>,
    array: ObjId,
    index: usize,
    v: Value,
    progress: ArrayProgress,
) -> Result<Act<'p>, NoMemory>
    ensures refines { Computes state.old (add_index array index v then λ _. array_after progress value.Undefined)
        result state.new }
    ensures bounded { RankAtMost state.old (rank_array progress + 3) result state.new }
{
    wait(state, progress)?;
    add_element(state, array, index, v)
}

/// An element of a new array is added, and undefined is given.
fn add_element<'p>(
    state: &mut State<'p>,
    array: ObjId,
    index: usize,
    v: Value,
) -> Result<Act<'p>, NoMemory>
    ensures refines { Computes state.old (add_index array index v then λ _. give value.Undefined) result state.new }
    ensures bounded { RankAtMost state.old 3 result state.new }
{
    let alloc = state.alloc();
    let answer = add_index(alloc, &mut state.store, array, index, v)?;
    match answer {
        Finished::Gives(()) => Ok(Act::Give(Value::Undefined)),
        Finished::Throws(thrown) => Ok(Act::Complete(Completion::Throw(thrown))),
        Finished::Fails(fault) => Ok(Act::Fault(fault_of(fault))),
    }
}
