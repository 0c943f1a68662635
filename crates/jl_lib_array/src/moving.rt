//! Elements that are moved, one a turn (15.4.4.9, 15.4.4.12, 15.4.4.13).
ghost use Rattle.std.specs.Prelude.{◌≡◌, ◌+◌};
ghost use Rattle.jl_meaning.specs.Parts.{◌>>=◌ as ◌then◌};
ghost use Rattle.jl_meaning.specs.builtins.Elements.{move_element};
ghost use Rattle.jl_progress.specs.Arrays.{after_moving, array_after, move_down, move_up};
ghost use Rattle.jl_state.specs.Clauses.{Computes, RankAtMost};

use crate::frames::{begin_turn, delete_then, get_for, put_then};
use crate::places::sum;
use crate::shifting::without_last;
use crate::splicing::put_items;
use jl_builtin::has_index;
use jl_progress::{AfterMoving, AfterPutting, ArrayProgress, Moving};
use jl_state::{Act, State};
use jl_text::NoMemory;
use jl_value::{ObjId, Value};

/// A turn begins in which an element is moved, from an index up, if any is left.
pub(crate) fn move_up_turn<'p>(
    state: &mut State<'p>,
    moving: Moving,
    k: usize,
    next: AfterMoving,
) -> Result<Act<'p>, NoMemory>
    ensures refines { Computes state.old (move_up moving moving.left k then λ _. after_moving moving.object next)
        result state.new }
    ensures bounded { RankAtMost state.old 72 result state.new }
{
    if moving.left == 0 {
        return after_moving(state, moving.object, next);
    }
    if !state.spend() {
        return Ok(Act::Spent);
    }
    let left = moving.left - 1;
    move_one_up(state, Moving { left, ..moving }, k, next)
}

/// An element is moved, and then those that are left after it.
fn move_one_up<'p>(
    state: &mut State<'p>,
    moving: Moving,
    k: usize,
    next: AfterMoving,
) -> Result<Act<'p>, NoMemory>
    ensures refines { Computes state.old (move_element moving.object (k + moving.from) (k + moving.to) then λ _.
        move_up moving moving.left (k + 1) then λ _. after_moving moving.object next) result state.new }
    ensures bounded { RankAtMost state.old 124 result state.new }
{
    let alloc = state.alloc();
    let object = moving.object;
    let from = sum(k, moving.from)?;
    if has_index(alloc, &state.store, object, from)? {
        let progress = ArrayProgress::MoveUpElement {
            moving,
            k,
            then: next,
        };
        return get_for(state, object, from, progress);
    }
    let to = sum(k, moving.to)?;
    let k = sum(k, 1)?;
    let progress = ArrayProgress::MoveUp {
        moving,
        k,
        then: next,
    };
    delete_then(state, object, to, progress)
}

/// Goes on with the element that is moved.
pub(crate) fn step_move_up_element<'p>(
    state: &mut State<'p>,
    moving: Moving,
    k: usize,
    next: AfterMoving,
    v: Value,
) -> Result<Act<'p>, NoMemory>
    ensures refines { Computes state.old (array_after (ArrayProgress.MoveUpElement moving k next) v) result state.new }
    ensures bounded { RankAtMost state.old 122 result state.new }
{
    let object = moving.object;
    let to = sum(k, moving.to)?;
    let k = sum(k, 1)?;
    let progress = ArrayProgress::MoveUp {
        moving,
        k,
        then: next,
    };
    put_then(state, object, to, v, progress)
}

/// A turn begins in which an element is moved, down to the first, if any is left.
pub(crate) fn move_down_turn<'p>(
    state: &mut State<'p>,
    moving: Moving,
    next: AfterMoving,
) -> Result<Act<'p>, NoMemory>
    ensures refines { Computes state.old (move_down moving moving.left then λ _. after_moving moving.object next)
        result state.new }
    ensures bounded { RankAtMost state.old 72 result state.new }
{
    if moving.left == 0 {
        return after_moving(state, moving.object, next);
    }
    if !state.spend() {
        return Ok(Act::Spent);
    }
    let left = moving.left - 1;
    move_one_down(state, Moving { left, ..moving }, next)
}

/// An element is moved, and then those that are left before it.
fn move_one_down<'p>(
    state: &mut State<'p>,
    moving: Moving,
    next: AfterMoving,
) -> Result<Act<'p>, NoMemory>
    ensures refines { Computes state.old (move_element moving.object (moving.from + moving.left) (moving.to +
        moving.left) then λ _. move_down moving moving.left then λ _. after_moving moving.object next) result
        state.new }
    ensures bounded { RankAtMost state.old 124 result state.new }
{
    let alloc = state.alloc();
    let object = moving.object;
    let from = sum(moving.from, moving.left)?;
    if has_index(alloc, &state.store, object, from)? {
        let progress = ArrayProgress::MoveDownElement { moving, then: next };
        return get_for(state, object, from, progress);
    }
    let to = sum(moving.to, moving.left)?;
    let progress = ArrayProgress::MoveDown { moving, then: next };
    delete_then(state, object, to, progress)
}

/// Goes on with the element that is moved.
pub(crate) fn step_move_down_element<'p>(
    state: &mut State<'p>,
    moving: Moving,
    next: AfterMoving,
    v: Value,
) -> Result<Act<'p>, NoMemory>
    ensures refines { Computes state.old (array_after (ArrayProgress.MoveDownElement moving next) v) result state.new }
    ensures bounded { RankAtMost state.old 122 result state.new }
{
    let object = moving.object;
    let to = sum(moving.to, moving.left)?;
    let progress = ArrayProgress::MoveDown { moving, then: next };
    put_then(state, object, to, v, progress)
}

/// What follows when all elements have been moved.
fn after_moving<'p>(
    state: &mut State<'p>,
    object: ObjId,
    next: AfterMoving,
) -> Result<Act<'p>, NoMemory>
    ensures refines { Computes state.old (after_moving object next) result state.new }
    ensures bounded { RankAtMost state.old 72 result state.new }
{
    match next {
        AfterMoving::Shift { first, last } => { without_last(state, object, last, first) }
        AfterMoving::Delete(splicing) => {
            let left = splicing.removed.saturating_sub(splicing.items.len());
            begin_turn(state, ArrayProgress::DeleteDown { splicing, left })
        }
        AfterMoving::Put(splicing) => put_items(state, splicing),
        AfterMoving::Unshift { args, length } => {
            let progress = ArrayProgress::PutTurn {
                object,
                index: 0,
                values: args,
                from: 0,
                then: AfterPutting::Unshift { length },
            };
            begin_turn(state, progress)
        }
    }
}
