//! slice (15.4.4.10).
ghost use Rattle.std.specs.Prelude.{◌≡◌, ◌+◌, ◌-◌};
ghost use Rattle.jl_meaning.specs.Parts.{◌>>=◌ as ◌then◌};
ghost use Rattle.jl_meaning.specs.builtins.Array.{array_slice};
ghost use Rattle.jl_meaning.specs.builtins.Elements.{add_if, element};
ghost use Rattle.jl_progress.specs.ArrayCalls.{array_call_after, copy_from, slice_to, with_length};
ghost use Rattle.jl_state.specs.Clauses.{Computes, RankAtMost};
ghost use Rattle.jl_state.specs.Words.{call_of};

use crate::places::{next_index, sum};
use crate::walk_lengths::get_length;
use jl_algorithm::to_primitive;
use jl_builtin::{
    add_index, argument, fault_of, get_index, go_on, has_index, number_of_primitive, relative_index,
};
use jl_progress::{ArrayCallProgress, LengthFor, Progress};
use jl_state::{Act, Hint, Invocation, State};
use jl_store::{Answer, Finished};
use jl_text::{List, NoMemory};
use jl_value::{Completion, Fault, ObjId, Value, is_undefined};

/// `slice` begins: its array is made before the length is asked for.
pub(crate) fn array_slice<'p>(state: &mut State<'p>, call: Invocation) -> Result<Act<'p>, NoMemory>
    ensures refines { Computes state.old (array_slice (call_of call)) result state.new }
    ensures bounded { RankAtMost state.old 74 result state.new }
{
    let Invocation { this, args, .. } = call;
    let answer = state.store.to_object(&this)?;
    match answer {
        Answer::Gives(object) => {
            let array = state.store.new_array()?;
            let purpose = LengthFor::Slice { array };
            get_length(state, object, args, purpose)
        }
        Answer::Throws(thrown) => Ok(Act::Complete(Completion::Throw(thrown))),
    }
}

/// The start is converted, when the length is known (step 5).
pub(crate) fn slice<'p>(
    state: &mut State<'p>,
    object: ObjId,
    array: ObjId,
    args: &List<Value>,
    length: usize,
) -> Result<Act<'p>, NoMemory>
    ensures refines { Computes state.old (with_length (LengthFor.Slice array) object args.now length) result state.new }
    ensures bounded { RankAtMost state.old 46 result state.new }
{
    let alloc = state.alloc();
    let start = argument(alloc, args.items(), 0)?;
    let end = argument(alloc, args.items(), 1)?;
    let progress = ArrayCallProgress::SliceStart {
        object,
        array,
        length,
        end,
    };
    state.push_builtin(Progress::ArrayCall(progress))?;
    to_primitive(state, start, Hint::Number)
}

/// Goes on with the start as a primitive value.
#[tactic(auto, using(jl_builtin::proofs::Waits::number_outside))]
pub(crate) fn step_slice_start<'p>(
    state: &mut State<'p>,
    object: ObjId,
    array: ObjId,
    length: usize,
    end: Value,
    p: &Value,
) -> Result<Act<'p>, NoMemory>
    ensures refines { Computes state.old (array_call_after (ArrayCallProgress.SliceStart object array length end)
        p.now) result state.new }
    ensures bounded { RankAtMost state.old 28 result state.new }
{
    let Some(n) = number_of_primitive(p) else {
        return Ok(Act::Fault(Fault::NumberOutside));
    };
    let start = relative_index(n, length);
    slice_to(state, object, array, length, start, end)
}

/// The end is converted, when the start is known; it is the length where it is undefined (step 7).
fn slice_to<'p>(
    state: &mut State<'p>,
    object: ObjId,
    array: ObjId,
    length: usize,
    start: usize,
    end: Value,
) -> Result<Act<'p>, NoMemory>
    ensures refines { Computes state.old (slice_to object array length start end) result state.new }
    ensures bounded { RankAtMost state.old 28 result state.new }
{
    if is_undefined(&end) {
        return begin_copy(state, object, start, array, length);
    }
    let progress = ArrayCallProgress::SliceEnd {
        object,
        array,
        length,
        start,
    };
    state.push_builtin(Progress::ArrayCall(progress))?;
    to_primitive(state, end, Hint::Number)
}

/// Goes on with the end as a primitive value.
#[tactic(auto, using(jl_builtin::proofs::Waits::number_outside))]
pub(crate) fn step_slice_end<'p>(
    state: &mut State<'p>,
    object: ObjId,
    array: ObjId,
    length: usize,
    start: usize,
    p: &Value,
) -> Result<Act<'p>, NoMemory>
    ensures refines { Computes state.old (array_call_after (ArrayCallProgress.SliceEnd object array length start)
        p.now) result state.new }
    ensures bounded { RankAtMost state.old 9 result state.new }
{
    let Some(n) = number_of_primitive(p) else {
        return Ok(Act::Fault(Fault::NumberOutside));
    };
    begin_copy(state, object, start, array, relative_index(n, length))
}

/// The turns begin, when start and end are known (steps 8 to 10).
fn begin_copy<'p>(
    state: &mut State<'p>,
    object: ObjId,
    start: usize,
    array: ObjId,
    end: usize,
) -> Result<Act<'p>, NoMemory>
    ensures refines { Computes state.old (copy_from object start array (end - start) 0) result state.new }
    ensures bounded { RankAtMost state.old 9 result state.new }
{
    let progress = ArrayCallProgress::CopyTurn {
        object,
        start,
        array,
        count: end.saturating_sub(start),
        at: 0,
    };
    go_on(state, Progress::ArrayCall(progress))
}

/// A turn begins, if one is left (step 10).
pub(crate) fn copy_turn<'p>(
    state: &mut State<'p>,
    object: ObjId,
    start: usize,
    array: ObjId,
    count: usize,
    at: usize,
) -> Result<Act<'p>, NoMemory>
    ensures refines { Computes state.old (copy_from object start array count at) result state.new }
    ensures bounded { RankAtMost state.old 3 result state.new }
{
    if count <= at {
        return Ok(Act::Give(Value::Obj(array)));
    }
    if !state.spend() {
        return Ok(Act::Spent);
    }
    copy_element(state, object, start, array, count, at)
}

/// An element is got and copied in a turn, if there is one.
fn copy_element<'p>(
    state: &mut State<'p>,
    object: ObjId,
    start: usize,
    array: ObjId,
    count: usize,
    index: usize,
) -> Result<Act<'p>, NoMemory>
    ensures refines { Computes state.old (element object (start + index) then λ v. (add_if array index v then λ _.
        copy_from object start array count (index + 1))) result state.new }
    ensures bounded { RankAtMost state.old 16 result state.new }
{
    let alloc = state.alloc();
    let from = sum(start, index)?;
    let there = has_index(alloc, &state.store, object, from)?;
    if !there {
        return next_copy(state, object, start, array, count, index);
    }
    let progress = ArrayCallProgress::CopyElement {
        object,
        start,
        array,
        count,
        index,
    };
    state.push_builtin(Progress::ArrayCall(progress))?;
    get_index(state, object, from)
}

/// Goes on with the element of a turn.
pub(crate) fn step_copy_element<'p>(
    state: &mut State<'p>,
    object: ObjId,
    start: usize,
    array: ObjId,
    count: usize,
    index: usize,
    v: Value,
) -> Result<Act<'p>, NoMemory>
    ensures refines { Computes state.old (array_call_after (ArrayCallProgress.CopyElement object start array count
        index) v) result state.new }
    ensures bounded { RankAtMost state.old 9 result state.new }
{
    let alloc = state.alloc();
    let answer = add_index(alloc, &mut state.store, array, index, v)?;
    match answer {
        Finished::Gives(()) => next_copy(state, object, start, array, count, index),
        Finished::Throws(thrown) => Ok(Act::Complete(Completion::Throw(thrown))),
        Finished::Fails(fault) => Ok(Act::Fault(fault_of(fault))),
    }
}

/// The turn follows that comes after the one at an index.
fn next_copy<'p>(
    state: &mut State<'p>,
    object: ObjId,
    start: usize,
    array: ObjId,
    count: usize,
    index: usize,
) -> Result<Act<'p>, NoMemory>
    ensures refines { Computes state.old (copy_from object start array count (index + 1)) result state.new }
    ensures bounded { RankAtMost state.old 9 result state.new }
{
    let progress = ArrayCallProgress::CopyTurn {
        object,
        start,
        array,
        count,
        at: next_index(index)?,
    };
    go_on(state, Progress::ArrayCall(progress))
}
