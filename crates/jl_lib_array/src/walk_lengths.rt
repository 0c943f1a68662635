//! The length of `this`, for which those functions ask first that slice, search, or call another one for each element
//! (15.4.4.10, 15.4.4.14 to 15.4.4.22).
ghost use Rattle.std.specs.Prelude.{◌≡◌, ◌+◌};
ghost use Rattle.jl_lib_array.specs.inner.WalkLengths.{length_call};
ghost use Rattle.jl_meaning.specs.Parts.{◌>>=◌ as ◌then◌};
ghost use Rattle.jl_meaning.specs.builtins.Elements.{get_length};
ghost use Rattle.jl_progress.specs.ArrayCalls.{array_call_after, with_length};
ghost use Rattle.jl_state.specs.Clauses.{Computes, RankAtMost};
ghost use Rattle.jl_state.specs.Words.{call_of};

use crate::searching::search;
use crate::slicing::slice;
use crate::walking::begin_walk;
use jl_algorithm::{get, to_primitive};
use jl_builtin::{length_of, number_of_primitive};
use jl_progress::{ArrayCallProgress, LengthFor, Progress};
use jl_state::{Act, Hint, Invocation, State};
use jl_store::Answer;
use jl_text::{List, NoMemory, word};
use jl_value::{Completion, Fault, ObjId, Value};

/// A function begins that asks for the length of `this` first.
pub(crate) fn begin_length<'p>(
    state: &mut State<'p>,
    purpose: LengthFor,
    call: Invocation,
) -> Result<Act<'p>, NoMemory>
    ensures refines { Computes state.old (length_call purpose (call_of call)) result state.new }
    ensures bounded { RankAtMost state.old 74 result state.new }
{
    let Invocation { this, args, .. } = call;
    let answer = state.store.to_object(&this)?;
    match answer {
        Answer::Gives(object) => get_length(state, object, args, purpose),
        Answer::Throws(thrown) => Ok(Act::Complete(Completion::Throw(thrown))),
    }
}

/// The length of an object is got (15.4.4.10, step 3).
pub(crate) fn get_length<'p>(
    state: &mut State<'p>,
    object: ObjId,
    args: List<Value>,
    purpose: LengthFor,
) -> Result<Act<'p>, NoMemory>
    ensures refines { Computes state.old (get_length object then with_length purpose object args) result state.new }
    ensures bounded { RankAtMost state.old 74 result state.new }
{
    let alloc = state.alloc();
    let name = word(alloc, "length")?;
    let progress = ArrayCallProgress::Length {
        object,
        args,
        purpose,
    };
    state.push_builtin(Progress::ArrayCall(progress))?;
    get(state, &Value::Obj(object), &name)
}

/// Goes on with the length that was got, which is converted.
pub(crate) fn step_length<'p>(
    state: &mut State<'p>,
    object: ObjId,
    args: List<Value>,
    purpose: LengthFor,
    v: Value,
) -> Result<Act<'p>, NoMemory>
    ensures refines { Computes state.old (array_call_after (ArrayCallProgress.Length object args purpose) v) result
        state.new }
    ensures bounded { RankAtMost state.old 66 result state.new }
{
    let progress = ArrayCallProgress::LengthPrimitive {
        object,
        args,
        purpose,
    };
    state.push_builtin(Progress::ArrayCall(progress))?;
    to_primitive(state, v, Hint::Number)
}

/// Goes on with the length as a primitive value (9.6).
#[tactic(auto, using(jl_builtin::proofs::Waits::number_outside))]
pub(crate) fn step_length_primitive<'p>(
    state: &mut State<'p>,
    object: ObjId,
    args: List<Value>,
    purpose: LengthFor,
    p: &Value,
) -> Result<Act<'p>, NoMemory>
    ensures refines { Computes state.old (array_call_after (ArrayCallProgress.LengthPrimitive object args purpose)
        p.now) result state.new }
    ensures bounded { RankAtMost state.old 46 result state.new }
{
    let Some(n) = number_of_primitive(p) else {
        return Ok(Act::Fault(Fault::NumberOutside));
    };
    with_length(state, purpose, object, &args, length_of(n))
}

/// What follows when the length is known.
fn with_length<'p>(
    state: &mut State<'p>,
    purpose: LengthFor,
    object: ObjId,
    args: &List<Value>,
    length: usize,
) -> Result<Act<'p>, NoMemory>
    ensures refines { Computes state.old (with_length purpose object args.now length) result state.new }
    ensures bounded { RankAtMost state.old 46 result state.new }
{
    match purpose {
        LengthFor::Slice { array } => slice(state, object, array, args, length),
        LengthFor::Search { direction } => { search(state, direction, object, length, args) }
        LengthFor::Walk { purpose } => { begin_walk(state, purpose, object, length, args) }
    }
}
