//! `pop` and `shift` (15.4.4.6, 15.4.4.9).
ghost use Rattle.std.specs.Prelude.{◌≡◌};
ghost use Rattle.jl_meaning.specs.builtins.ArrayChanges.{give_nothing, pop_last, shift_first};
ghost use Rattle.jl_progress.specs.Arrays.{array_after, without_last};
ghost use Rattle.jl_state.specs.Clauses.{Computes, RankAtMost};

use crate::frames::{begin_turn, get_for};
use jl_builtin::{delete_index, put_length};
use jl_progress::{AfterMoving, ArrayProgress, Moving};
use jl_state::{Act, State};
use jl_store::Answer;
use jl_text::NoMemory;
use jl_value::{Completion, ObjId, Value};

/// The length of what has no elements is put, and undefined given (15.4.4.6, step 4, and 15.4.4.9, step 4).
fn give_nothing<'p>(state: &mut State<'p>, object: ObjId) -> Result<Act<'p>, NoMemory>
    ensures refines { Computes state.old (give_nothing object) result state.new }
    ensures bounded { RankAtMost state.old 42 result state.new }
{
    put_length(state, object, 0, Value::Undefined)
}

/// The last element is deleted, the length without it put, and a value given.
pub(crate) fn without_last<'p>(
    state: &mut State<'p>,
    object: ObjId,
    last: usize,
    gives: Value,
) -> Result<Act<'p>, NoMemory>
    ensures refines { Computes state.old (without_last object last gives) result state.new }
    ensures bounded { RankAtMost state.old 42 result state.new }
{
    let answer = delete_index(state, object, last)?;
    match answer {
        Answer::Gives(()) => put_length(state, object, last, gives),
        Answer::Throws(thrown) => Ok(Act::Complete(Completion::Throw(thrown))),
    }
}

/// `pop` of an object with this length.
pub(crate) fn pop_last<'p>(
    state: &mut State<'p>,
    object: ObjId,
    length: usize,
) -> Result<Act<'p>, NoMemory>
    ensures refines { Computes state.old (pop_last object length) result state.new }
    ensures bounded { RankAtMost state.old 54 result state.new }
{
    if length == 0 {
        return give_nothing(state, object);
    }
    let last = length - 1;
    let progress = ArrayProgress::PopElement { object, last };
    get_for(state, object, last, progress)
}

/// `shift` of an object with this length.
pub(crate) fn shift_first<'p>(
    state: &mut State<'p>,
    object: ObjId,
    length: usize,
) -> Result<Act<'p>, NoMemory>
    ensures refines { Computes state.old (shift_first object length) result state.new }
    ensures bounded { RankAtMost state.old 84 result state.new }
{
    if length == 0 {
        return give_nothing(state, object);
    }
    let last = length - 1;
    let progress = ArrayProgress::ShiftFirst { object, last };
    get_for(state, object, 0, progress)
}

/// Goes on with the first element, which `shift` gives: each other one goes to the index before.
pub(crate) fn step_shift_first<'p>(
    state: &mut State<'p>,
    object: ObjId,
    last: usize,
    first: Value,
) -> Result<Act<'p>, NoMemory>
    ensures refines { Computes state.old (array_after (ArrayProgress.ShiftFirst object last) first) result state.new }
    ensures bounded { RankAtMost state.old 82 result state.new }
{
    let moving = Moving {
        object,
        from: 1,
        to: 0,
        left: last,
    };
    let then = AfterMoving::Shift { first, last };
    begin_turn(state, ArrayProgress::MoveUp { moving, k: 0, then })
}
