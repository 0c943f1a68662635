//! `reverse` (15.4.4.8).
ghost use Rattle.std.specs.Prelude.{◌≡◌, ◌+◌, if◌then◌else◌, IfOk, None, Some};
ghost use Rattle.jl_meaning.specs.Parts.{◌>>=◌ as ◌then◌};
ghost use Rattle.jl_meaning.specs.builtins.Elements.{delete_index, put_index};
ghost use Rattle.jl_progress.specs.Arrays.{array_after, rank_array, reverse_others, upper_of};
ghost use Rattle.jl_state.specs.Clauses.{Computes, RankAtMost};
ghost use Rattle.jl_value.specs.declared.value.Value.TheVariants as value;

use crate::frames::{begin_turn, delete_then, get_for, put_then};
use crate::places::sum;
use jl_builtin::{delete_index, has_index};
use jl_progress::{ArrayProgress, Reversing};
use jl_state::{Act, State};
use jl_store::Answer;
use jl_text::NoMemory;
use jl_value::{Completion, Value};

/// The upper of the two indices of a turn.
fn upper_of(reversing: &Reversing) -> usize
    ensures { result ≡ upper_of reversing.now }
{
    reversing
        .length
        .saturating_sub(reversing.lower)
        .saturating_sub(1)
}

/// The turn after a turn.
fn turn_after(reversing: Reversing) -> Result<ArrayProgress, NoMemory>
    ensures turn { IfOk result (λ progress. array_after progress value.Undefined
        ≡ reverse_others reversing reversing.left (reversing.lower + 1)) }
    ensures low { IfOk result (λ progress. rank_array progress ≡ 6) }
{
    let lower = sum(reversing.lower, 1)?;
    Ok(ArrayProgress::ReverseTurn {
        reversing: Reversing { lower, ..reversing },
    })
}

/// A turn begins, if any is left.
pub(crate) fn reverse_turn<'p>(
    state: &mut State<'p>,
    reversing: Reversing,
) -> Result<Act<'p>, NoMemory>
    ensures refines { Computes state.old (reverse_others reversing reversing.left reversing.lower) result state.new }
    ensures bounded { RankAtMost state.old 8 result state.new }
{
    let object = reversing.object;
    if reversing.left == 0 {
        return Ok(Act::Give(Value::Obj(object)));
    }
    if !state.spend() {
        return Ok(Act::Spent);
    }
    let left = reversing.left - 1;
    let lower = reversing.lower;
    let reversing = Reversing { left, ..reversing };
    let progress = ArrayProgress::ReverseLower { reversing };
    get_for(state, object, lower, progress)
}

/// Goes on with the lower element of a turn.
pub(crate) fn step_reverse_lower<'p>(
    state: &mut State<'p>,
    reversing: Reversing,
    low: Value,
) -> Result<Act<'p>, NoMemory>
    ensures refines { Computes state.old (array_after (ArrayProgress.ReverseLower reversing) low) result state.new }
    ensures bounded { RankAtMost state.old 112 result state.new }
{
    let object = reversing.object;
    let upper = upper_of(&reversing);
    let progress = ArrayProgress::ReverseUpper { reversing, low };
    get_for(state, object, upper, progress)
}

/// A value, if it is there.
fn value_if(there: bool, v: Value) -> Option<Value>
    ensures { result ≡ (if there then Some v else None) }
{
    if there { Some(v) } else { None }
}

/// Goes on with the upper element of a turn: the two change places (steps 6.h to 6.k).
pub(crate) fn step_reverse_upper<'p>(
    state: &mut State<'p>,
    reversing: Reversing,
    low: Value,
    high: Value,
) -> Result<Act<'p>, NoMemory>
    ensures refines { Computes state.old (array_after (ArrayProgress.ReverseUpper reversing low) high) result
        state.new }
    ensures bounded { RankAtMost state.old 102 result state.new }
{
    let alloc = state.alloc();
    let object = reversing.object;
    let lower = reversing.lower;
    let has_low = has_index(alloc, &state.store, object, lower)?;
    let has_high = has_index(alloc, &state.store, object, upper_of(&reversing))?;
    if has_high {
        let low = value_if(has_low, low);
        let progress = ArrayProgress::ReverseExchange { reversing, low };
        return put_then(state, object, lower, high, progress);
    }
    if has_low {
        return move_to_upper(state, reversing, low);
    }
    begin_turn(state, turn_after(reversing)?)
}

/// The lower element, which has no upper one to change places with, is deleted, and put above.
fn move_to_upper<'p>(
    state: &mut State<'p>,
    reversing: Reversing,
    low: Value,
) -> Result<Act<'p>, NoMemory>
    ensures refines { Computes state.old (delete_index reversing.object reversing.lower then λ _. put_index
        reversing.object (upper_of reversing) low then λ _. reverse_others reversing reversing.left (reversing.lower
        + 1)) result state.new }
    ensures bounded { RankAtMost state.old 52 result state.new }
{
    let answer = delete_index(state, reversing.object, reversing.lower)?;
    match answer {
        Answer::Gives(()) => put_above(state, reversing, low),
        Answer::Throws(thrown) => Ok(Act::Complete(Completion::Throw(thrown))),
    }
}

/// The lower element is put above.
fn put_above<'p>(
    state: &mut State<'p>,
    reversing: Reversing,
    low: Value,
) -> Result<Act<'p>, NoMemory>
    ensures refines { Computes state.old (put_index reversing.object (upper_of reversing) low then λ _. reverse_others
        reversing reversing.left (reversing.lower + 1)) result state.new }
    ensures bounded { RankAtMost state.old 52 result state.new }
{
    let object = reversing.object;
    let upper = upper_of(&reversing);
    let progress = turn_after(reversing)?;
    put_then(state, object, upper, low, progress)
}

/// Goes on when the lower index has got the upper element.
pub(crate) fn step_reverse_exchange<'p>(
    state: &mut State<'p>,
    reversing: Reversing,
    low: Option<Value>,
) -> Result<Act<'p>, NoMemory>
    ensures refines { Computes state.old (array_after (ArrayProgress.ReverseExchange reversing low) value.Undefined)
        result state.new }
    ensures bounded { RankAtMost state.old 52 result state.new }
{
    let object = reversing.object;
    let upper = upper_of(&reversing);
    match low {
        Some(low) => put_above(state, reversing, low),
        None => {
            let progress = turn_after(reversing)?;
            delete_then(state, object, upper, progress)
        }
    }
}
