//! Elements that become elements of a new array, one a turn (15.4.4.4, 15.4.4.12).
ghost use Rattle.std.specs.Prelude.{◌≡◌, ◌+◌};
ghost use Rattle.jl_meaning.specs.Parts.{◌>>=◌ as ◌then◌};
ghost use Rattle.jl_meaning.specs.builtins.Elements.{copy_element};
ghost use Rattle.jl_progress.specs.Arrays.{after_copying, array_after, copy_others};
ghost use Rattle.jl_state.specs.Clauses.{Computes, RankAtMost};

use crate::appending::append_items;
use crate::frames::{add_then, begin_turn, get_for};
use crate::places::sum;
use crate::splicing::splice_others;
use jl_builtin::has_index;
use jl_progress::{AfterCopying, ArrayProgress, Copying};
use jl_state::{Act, State};
use jl_text::NoMemory;
use jl_value::{ObjId, Value};

/// A turn begins in which an element is copied, if any is left.
pub(crate) fn copy_turn<'p>(
    state: &mut State<'p>,
    copying: Copying,
    next: AfterCopying,
) -> Result<Act<'p>, NoMemory>
    ensures refines { Computes state.old (copy_others copying copying.left copying.k then λ _. after_copying
        copying.array next) result state.new }
    ensures bounded { RankAtMost state.old 82 result state.new }
{
    if copying.left == 0 {
        return after_copying(state, copying.array, next);
    }
    if !state.spend() {
        return Ok(Act::Spent);
    }
    let left = copying.left - 1;
    copy_element(state, Copying { left, ..copying }, next)
}

/// An element is copied, if there is one, and then those that are left after it.
fn copy_element<'p>(
    state: &mut State<'p>,
    copying: Copying,
    next: AfterCopying,
) -> Result<Act<'p>, NoMemory>
    ensures refines { Computes state.old (copy_element copying.object (copying.start + copying.k) copying.array
        (copying.first + copying.k) then λ _. copy_others copying copying.left (copying.k + 1) then λ _.
        after_copying copying.array next) result state.new }
    ensures bounded { RankAtMost state.old 100 result state.new }
{
    let alloc = state.alloc();
    let object = copying.object;
    let index = sum(copying.start, copying.k)?;
    let there = has_index(alloc, &state.store, object, index)?;
    if there {
        let progress = ArrayProgress::CopyElement {
            copying,
            then: next,
        };
        return get_for(state, object, index, progress);
    }
    let k = sum(copying.k, 1)?;
    let copying = Copying { k, ..copying };
    let progress = ArrayProgress::CopyTurn {
        copying,
        then: next,
    };
    begin_turn(state, progress)
}

/// Goes on with the element that is copied.
pub(crate) fn step_copy_element<'p>(
    state: &mut State<'p>,
    copying: Copying,
    next: AfterCopying,
    v: Value,
) -> Result<Act<'p>, NoMemory>
    ensures refines { Computes state.old (array_after (ArrayProgress.CopyElement copying next) v) result state.new }
    ensures bounded { RankAtMost state.old 92 result state.new }
{
    let array = copying.array;
    let index = sum(copying.first, copying.k)?;
    let k = sum(copying.k, 1)?;
    let copying = Copying { k, ..copying };
    let progress = ArrayProgress::CopyTurn {
        copying,
        then: next,
    };
    add_then(state, array, index, v, progress)
}

/// What follows when all elements have been copied.
fn after_copying<'p>(
    state: &mut State<'p>,
    array: ObjId,
    next: AfterCopying,
) -> Result<Act<'p>, NoMemory>
    ensures refines { Computes state.old (after_copying array next) result state.new }
    ensures bounded { RankAtMost state.old 82 result state.new }
{
    match next {
        AfterCopying::Concat { next, items, from } => {
            append_items(state, array, next, items, from)
        }
        AfterCopying::Splice(splicing) => splice_others(state, splicing),
    }
}
