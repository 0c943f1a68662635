//! `splice` (15.4.4.12).
ghost use Rattle.std.specs.Prelude.{◌≡◌, ◌-◌, IfOk};
ghost use Rattle.jl_lib_array.specs.inner.Functions.{close_gap, open_gap, splice_on};
ghost use Rattle.jl_meaning.specs.Parts.{◌>>=◌ as ◌then◌};
ghost use Rattle.jl_meaning.specs.builtins.ArrayChanges.{array_splice, splice_at};
ghost use Rattle.jl_progress.specs.Arrays.{array_after, length_spliced, put_items, splice_others, with_length};
ghost use Rattle.jl_state.specs.Clauses.{Computes, RankAtMost};
ghost use Rattle.jl_state.specs.Words.{call_of};

use crate::frames::begin_turn;
use crate::lengths::get_length;
use crate::places::sum;
use jl_builtin::{
    argument, clamp, continuation_of, number_of_primitive, relative_index, wait_for_number,
};
use jl_progress::{
    AfterCopying, AfterMoving, AfterPutting, ArrayProgress, Copying, LengthFunction, Moving,
    Progress, Splicing,
};
use jl_state::{Act, Invocation, State};
use jl_store::Answer;
use jl_text::{List, NoMemory};
use jl_value::{Completion, Fault, ObjId, Value};

/// The length that an object gets.
pub(crate) fn length_spliced(splicing: &Splicing) -> Result<usize, NoMemory>
    ensures { IfOk result (λ length. length ≡ length_spliced splicing.now) }
{
    let kept = splicing.length.saturating_sub(splicing.removed);
    sum(kept, splicing.items.len())
}

/// `splice` begins.
pub(crate) fn array_splice<'p>(state: &mut State<'p>, call: Invocation) -> Result<Act<'p>, NoMemory>
    ensures refines { Computes state.old (array_splice (call_of call)) result state.new }
    ensures bounded { RankAtMost state.old 164 result state.new }
{
    let Invocation { this, args, .. } = call;
    let answer = state.store.to_object(&this)?;
    match answer {
        Answer::Gives(object) => splice_into_new(state, object, args),
        Answer::Throws(thrown) => Ok(Act::Complete(Completion::Throw(thrown))),
    }
}

/// `splice` of an object, with a new array for the elements that go.
fn splice_into_new<'p>(
    state: &mut State<'p>,
    object: ObjId,
    args: List<Value>,
) -> Result<Act<'p>, NoMemory>
    ensures refines { Computes state.old (splice_on object args) result state.new }
    ensures bounded { RankAtMost state.old 164 result state.new }
{
    let array = state.store.new_array()?;
    get_length(state, LengthFunction::Splice { array }, object, args)
}

/// `splice` of an object with this length.
pub(crate) fn splice<'p>(
    state: &mut State<'p>,
    object: ObjId,
    array: ObjId,
    args: List<Value>,
    length: usize,
) -> Result<Act<'p>, NoMemory>
    ensures refines { Computes state.old (with_length (LengthFunction.Splice array) object args length) result
        state.new }
    ensures bounded { RankAtMost state.old 136 result state.new }
{
    let alloc = state.alloc();
    let start = argument(alloc, args.items(), 0)?;
    let progress = Progress::Array(ArrayProgress::SpliceStart {
        object,
        array,
        length,
        args,
    });
    wait_for_number(state, progress, start)
}

/// Goes on with the first argument as a primitive value.
pub(crate) fn step_splice_start<'p>(
    state: &mut State<'p>,
    object: ObjId,
    array: ObjId,
    length: usize,
    args: List<Value>,
    p: &Value,
) -> Result<Act<'p>, NoMemory>
    ensures refines { Computes state.old (array_after (ArrayProgress.SpliceStart object array length args) p.now)
        result state.new }
    ensures bounded { RankAtMost state.old 122 result state.new }
{
    let alloc = state.alloc();
    let Some(n) = number_of_primitive(p) else {
        return Ok(Act::Fault(Fault::NumberOutside));
    };
    let start = relative_index(n, length);
    let count = argument(alloc, args.items(), 1)?;
    let progress = Progress::Array(ArrayProgress::SpliceCount {
        object,
        array,
        length,
        start,
        args,
    });
    wait_for_number(state, progress, count)
}

/// Goes on with the second argument as a primitive value.
pub(crate) fn step_splice_count<'p>(
    state: &mut State<'p>,
    object: ObjId,
    array: ObjId,
    length: usize,
    start: usize,
    args: &[Value],
    p: &Value,
) -> Result<Act<'p>, NoMemory>
    ensures refines { Computes state.old (array_after (ArrayProgress.SpliceCount object array length start args.now)
        p.now) result state.new }
    ensures bounded { RankAtMost state.old 92 result state.new }
{
    let alloc = state.alloc();
    let Some(n) = number_of_primitive(p) else {
        return Ok(Act::Fault(Fault::NumberOutside));
    };
    let removed = clamp(n, length.saturating_sub(start));
    let items = continuation_of(alloc, args, 2)?;
    let splicing = Splicing {
        object,
        array,
        length,
        start,
        removed,
        items,
    };
    copy_removed(state, splicing)
}

/// The elements that go are copied to the new array, one a turn.
fn copy_removed<'p>(state: &mut State<'p>, splicing: Splicing) -> Result<Act<'p>, NoMemory>
    ensures refines { Computes state.old (splice_at splicing.object splicing.array splicing.length splicing.start
        splicing.removed splicing.items) result state.new }
    ensures bounded { RankAtMost state.old 92 result state.new }
{
    let copying = Copying {
        object: splicing.object,
        start: splicing.start,
        array: splicing.array,
        first: 0,
        left: splicing.removed,
        k: 0,
    };
    let then = AfterCopying::Splice(splicing);
    begin_turn(state, ArrayProgress::CopyTurn { copying, then })
}

/// The elements after those that go are moved, one a turn, to make room for those that come.
pub(crate) fn splice_others<'p>(
    state: &mut State<'p>,
    splicing: Splicing,
) -> Result<Act<'p>, NoMemory>
    ensures refines { Computes state.old (splice_others splicing) result state.new }
    ensures bounded { RankAtMost state.old 74 result state.new }
{
    let added = splicing.items.len();
    if added < splicing.removed {
        return move_closer(state, splicing);
    }
    if splicing.removed < added {
        return move_apart(state, splicing);
    }
    put_items(state, splicing)
}

/// How many elements stand after those that go.
fn after_removed(splicing: &Splicing) -> usize
    ensures { result ≡ splicing.now.length - splicing.now.removed - splicing.now.start }
{
    splicing
        .length
        .saturating_sub(splicing.removed)
        .saturating_sub(splicing.start)
}

/// Fewer elements come than go: those after them are moved down, from the first one up.
fn move_closer<'p>(state: &mut State<'p>, splicing: Splicing) -> Result<Act<'p>, NoMemory>
    ensures refines { Computes state.old (close_gap splicing then λ _. put_items splicing) result state.new }
    ensures bounded { RankAtMost state.old 74 result state.new }
{
    let moving = Moving {
        object: splicing.object,
        from: splicing.removed,
        to: splicing.items.len(),
        left: after_removed(&splicing),
    };
    let k = splicing.start;
    let then = AfterMoving::Delete(splicing);
    begin_turn(state, ArrayProgress::MoveUp { moving, k, then })
}

/// More elements come than go: those after them are moved up, from the last one down.
fn move_apart<'p>(state: &mut State<'p>, splicing: Splicing) -> Result<Act<'p>, NoMemory>
    ensures refines { Computes state.old (open_gap splicing then λ _. put_items splicing) result state.new }
    ensures bounded { RankAtMost state.old 74 result state.new }
{
    let moving = Moving {
        object: splicing.object,
        from: sum(splicing.start, splicing.removed)?,
        to: sum(splicing.start, splicing.items.len())?,
        left: after_removed(&splicing),
    };
    let then = AfterMoving::Put(splicing);
    begin_turn(state, ArrayProgress::MoveDown { moving, then })
}

/// The elements that come are put, one a turn, and then the length.
pub(crate) fn put_items<'p>(state: &mut State<'p>, splicing: Splicing) -> Result<Act<'p>, NoMemory>
    ensures refines { Computes state.old (put_items splicing) result state.new }
    ensures bounded { RankAtMost state.old 54 result state.new }
{
    let length = length_spliced(&splicing)?;
    let then = AfterPutting::Splice {
        array: splicing.array,
        length,
    };
    let progress = ArrayProgress::PutTurn {
        object: splicing.object,
        index: splicing.start,
        values: splicing.items,
        from: 0,
        then,
    };
    begin_turn(state, progress)
}
