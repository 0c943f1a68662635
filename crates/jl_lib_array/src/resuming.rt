//! The functions that change what they are called on, or copy its elements, go on with the values that they waited for.
ghost use Rattle.std.specs.Prelude.{◌≡◌, ◌+◌};
ghost use Rattle.jl_progress.specs.Arrays.{array_after, rank_array};
ghost use Rattle.jl_state.specs.Clauses.{Computes, RankAtMost};

use crate::appending::{append_items, step_concat_length};
use crate::copying::{copy_turn, step_copy_element};
use crate::deleting::{delete_down_turn, delete_up_turn};
use crate::joining::{
    join_turn_begins, step_join_element, step_join_element_primitive, step_join_first,
    step_join_first_primitive, step_join_separator,
};
use crate::lengths::{step_length, step_length_primitive};
use crate::moving::{move_down_turn, move_up_turn, step_move_down_element, step_move_up_element};
use crate::putting::put_turn;
use crate::reversing::{
    reverse_turn, step_reverse_exchange, step_reverse_lower, step_reverse_upper,
};
use crate::shifting::{step_shift_first, without_last};
use crate::sorting::{sort_turn, step_sort_element, step_sort_primitive};
use crate::splicing::{step_splice_count, step_splice_start};
use crate::strings::step_join_property;
use jl_progress::ArrayProgress;
use jl_state::{Act, State};
use jl_text::NoMemory;
use jl_value::Value;

/// Goes on with the value that a function waited for which changes what it is called on, or copies its elements.
pub fn resume<'p>(
    state: &mut State<'p>,
    progress: ArrayProgress,
    v: Value,
) -> Result<Act<'p>, NoMemory>
    ensures refines { Computes state.old (array_after progress v) result state.new }
    ensures bounded { RankAtMost state.old (rank_array progress + 2) result state.new }
{
    match progress {
        ArrayProgress::Join { object } => step_join_property(state, object, &v),
        ArrayProgress::Length {
            function,
            object,
            args,
        } => { step_length(state, function, object, args, v) }
        ArrayProgress::LengthPrimitive {
            function,
            object,
            args,
        } => { step_length_primitive(state, function, object, args, &v) }
        ArrayProgress::ConcatItem {
            array,
            next,
            items,
            from,
        } => { append_items(state, array, next, items, from) }
        ArrayProgress::ConcatLength {
            array,
            next,
            item,
            items,
            from,
        } => { step_concat_length(state, array, next, item, items, from, &v) }
        ArrayProgress::CopyTurn { copying, then } => copy_turn(state, copying, then),
        ArrayProgress::CopyElement { copying, then } => {
            step_copy_element(state, copying, then, v)
        }
        ArrayProgress::JoinSeparator { object, length } => {
            step_join_separator(state, object, length, &v)
        }
        ArrayProgress::JoinFirst { joining } => step_join_first(state, joining, v),
        ArrayProgress::JoinFirstPrimitive { joining } => {
            step_join_first_primitive(state, joining, &v)
        }
        ArrayProgress::JoinTurn { joining, line } => { join_turn_begins(state, joining, line) }
        ArrayProgress::JoinElement { joining, line } => {
            step_join_element(state, joining, line, v)
        }
        ArrayProgress::JoinElementPrimitive { joining, line } => {
            step_join_element_primitive(state, joining, line, &v)
        }
        ArrayProgress::PopElement { object, last } => { without_last(state, object, last, v) }
        ArrayProgress::PutTurn {
            object,
            index,
            values,
            from,
            then,
        } => { put_turn(state, object, index, values, from, then) }
        ArrayProgress::ReverseTurn { reversing } => reverse_turn(state, reversing),
        ArrayProgress::ReverseLower { reversing } => { step_reverse_lower(state, reversing, v) }
        ArrayProgress::ReverseUpper { reversing, low } => {
            step_reverse_upper(state, reversing, low, v)
        }
        ArrayProgress::ReverseExchange { reversing, low } => {
            step_reverse_exchange(state, reversing, low)
        }
        ArrayProgress::ShiftFirst { object, last } => { step_shift_first(state, object, last, v) }
        ArrayProgress::MoveUp { moving, k, then } => { move_up_turn(state, moving, k, then) }
        ArrayProgress::MoveUpElement { moving, k, then } => {
            step_move_up_element(state, moving, k, then, v)
        }
        ArrayProgress::MoveDown { moving, then } => { move_down_turn(state, moving, then) }
        ArrayProgress::MoveDownElement { moving, then } => {
            step_move_down_element(state, moving, then, v)
        }
        ArrayProgress::SortTurn { reading, read } => sort_turn(state, reading, read),
        ArrayProgress::SortElement { reading, read } => {
            step_sort_element(state, reading, read, v)
        }
        ArrayProgress::SortPrimitive {
            reading,
            read,
            element,
        } => { step_sort_primitive(state, reading, read, element, &v) }
        ArrayProgress::DeleteUp {
            object,
            index,
            left,
        } => { delete_up_turn(state, object, index, left) }
        ArrayProgress::SpliceStart {
            object,
            array,
            length,
            args,
        } => { step_splice_start(state, object, array, length, args, &v) }
        ArrayProgress::SpliceCount {
            object,
            array,
            length,
            start,
            args,
        } => { step_splice_count(state, object, array, length, start, args.items(), &v) }
        ArrayProgress::DeleteDown { splicing, left } => { delete_down_turn(state, splicing, left) }
    }
}
