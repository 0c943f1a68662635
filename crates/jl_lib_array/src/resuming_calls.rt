//! The functions that make no change go on with the values that they waited for.
ghost use Rattle.std.specs.Prelude.{◌+◌};
ghost use Rattle.jl_progress.specs.ArrayCalls.{array_call_after, rank_array_call};
ghost use Rattle.jl_state.specs.Clauses.{Computes, RankAtMost};

use crate::searching::{search_turn, step_search_element, step_search_from};
use crate::slicing::{copy_turn, step_copy_element, step_slice_end, step_slice_start};
use crate::tasks::{step_answer, step_element};
use crate::walk_lengths::{step_length, step_length_primitive};
use crate::walking::turn;
use jl_progress::ArrayCallProgress;
use jl_state::{Act, State};
use jl_text::NoMemory;
use jl_value::Value;

/// Goes on with the value that a function waited for which slices, searches, or calls another one for each element.
pub fn resume_call<'p>(
    state: &mut State<'p>,
    progress: ArrayCallProgress,
    v: Value,
) -> Result<Act<'p>, NoMemory>
    ensures refines { Computes state.old (array_call_after progress v) result state.new }
    ensures bounded { RankAtMost state.old (rank_array_call progress + 2) result state.new }
{
    match progress {
        ArrayCallProgress::Length {
            object,
            args,
            purpose,
        } => step_length(state, object, args, purpose, v),
        ArrayCallProgress::LengthPrimitive {
            object,
            args,
            purpose,
        } => step_length_primitive(state, object, args, purpose, &v),
        ArrayCallProgress::SliceStart {
            object,
            array,
            length,
            end,
        } => step_slice_start(state, object, array, length, end, &v),
        ArrayCallProgress::SliceEnd {
            object,
            array,
            length,
            start,
        } => step_slice_end(state, object, array, length, start, &v),
        ArrayCallProgress::CopyTurn {
            object,
            start,
            array,
            count,
            at,
        } => copy_turn(state, object, start, array, count, at),
        ArrayCallProgress::CopyElement {
            object,
            start,
            array,
            count,
            index,
        } => step_copy_element(state, object, start, array, count, index, v),
        ArrayCallProgress::SearchFrom {
            object,
            length,
            sought,
            direction,
        } => step_search_from(state, object, length, sought, direction, &v),
        ArrayCallProgress::SearchTurn {
            object,
            length,
            sought,
            direction,
            at,
        } => search_turn(state, object, length, sought, direction, at),
        ArrayCallProgress::SearchElement {
            object,
            length,
            sought,
            direction,
            index,
        } => step_search_element(state, object, length, sought, direction, index, &v),
        ArrayCallProgress::Turn { walk, task, at } => turn(state, walk, task, at),
        ArrayCallProgress::Element { walk, task, index } => {
            step_element(state, walk, task, index, v)
        }
        ArrayCallProgress::Answer {
            walk,
            task,
            index,
            element,
        } => step_answer(state, walk, task, index, element, v),
    }
}
