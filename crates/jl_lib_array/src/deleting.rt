//! Elements that are deleted, one a turn (15.4.4.11, 15.4.4.12).
ghost use Rattle.std.specs.Prelude.{◌≡◌};
ghost use Rattle.jl_progress.specs.Arrays.{array_after, delete_end};
ghost use Rattle.jl_state.specs.Clauses.{Computes, RankAtMost};
ghost use Rattle.jl_value.specs.declared.value.Value.TheVariants as value;

use crate::frames::delete_then;
use crate::places::sum;
use crate::splicing::{length_spliced, put_items};
use jl_progress::{ArrayProgress, Splicing};
use jl_state::{Act, State};
use jl_text::NoMemory;
use jl_value::{ObjId, Value};

/// A turn of `sort` begins in which the element at an index is deleted, if any is left.
pub(crate) fn delete_up_turn<'p>(
    state: &mut State<'p>,
    object: ObjId,
    index: usize,
    left: usize,
) -> Result<Act<'p>, NoMemory>
    ensures refines { Computes state.old (array_after (ArrayProgress.DeleteUp object index left) value.Undefined)
        result state.new }
    ensures bounded { RankAtMost state.old 8 result state.new }
{
    if left == 0 {
        return Ok(Act::Give(Value::Obj(object)));
    }
    if !state.spend() {
        return Ok(Act::Spent);
    }
    let after = sum(index, 1)?;
    let progress = ArrayProgress::DeleteUp {
        object,
        index: after,
        left: left - 1,
    };
    delete_then(state, object, index, progress)
}

/// A turn of `splice` begins in which the last of the elements after the new end is deleted, if any is left.
pub(crate) fn delete_down_turn<'p>(
    state: &mut State<'p>,
    splicing: Splicing,
    left: usize,
) -> Result<Act<'p>, NoMemory>
    ensures refines { Computes state.old (delete_end splicing left) result state.new }
    ensures bounded { RankAtMost state.old 62 result state.new }
{
    if left == 0 {
        return put_items(state, splicing);
    }
    if !state.spend() {
        return Ok(Act::Spent);
    }
    let left = left - 1;
    let object = splicing.object;
    let end = length_spliced(&splicing)?;
    let index = sum(end, left)?;
    let progress = ArrayProgress::DeleteDown { splicing, left };
    delete_then(state, object, index, progress)
}
