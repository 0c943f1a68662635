//! How each function of arrays begins.
ghost use Rattle.jl_lib_array.specs.inner.WalkLengths.{length_call};
ghost use Rattle.jl_meaning.specs.builtins.Table.{array_algorithm};
ghost use Rattle.jl_state.specs.Clauses.{Computes, RankAtMost};
ghost use Rattle.jl_state.specs.Words.{call_of};

use crate::appending::array_concat;
use crate::arrays::{array_constructor, array_is_array};
use crate::lengths::begin_with_length;
use crate::slicing::array_slice;
use crate::sorting::array_sort;
use crate::splicing::array_splice;
use crate::strings::array_to_string;
use crate::walk_lengths::begin_length;
use jl_builtin::unsupported;
use jl_progress::{Direction, LengthFor, LengthFunction, WalkFor};
use jl_state::{Act, Invocation, State};
use jl_text::NoMemory;
use jl_value::{ArrayBuiltin, Builtin};

/// Begins a function of arrays.
pub fn start<'p>(
    state: &mut State<'p>,
    builtin: ArrayBuiltin,
    call: Invocation,
) -> Result<Act<'p>, NoMemory>
    ensures refines { Computes state.old (array_algorithm builtin (call_of call)) result state.new }
    ensures bounded { RankAtMost state.old 400 result state.new }
{
    match builtin {
        ArrayBuiltin::Constructor => array_constructor(state, call.args.items()),
        ArrayBuiltin::IsArray => array_is_array(state, &call),
        ArrayBuiltin::ToString => array_to_string(state, call),
        ArrayBuiltin::ToLocaleString => Ok(unsupported(Builtin::Array(builtin))),
        ArrayBuiltin::Concat => array_concat(state, call),
        ArrayBuiltin::Join => begin_with_length(state, LengthFunction::Join, call),
        ArrayBuiltin::Pop => begin_with_length(state, LengthFunction::Pop, call),
        ArrayBuiltin::Push => begin_with_length(state, LengthFunction::Push, call),
        ArrayBuiltin::Reverse => begin_with_length(state, LengthFunction::Reverse, call),
        ArrayBuiltin::Shift => begin_with_length(state, LengthFunction::Shift, call),
        ArrayBuiltin::Slice => array_slice(state, call),
        ArrayBuiltin::Sort => array_sort(state, call),
        ArrayBuiltin::Splice => array_splice(state, call),
        ArrayBuiltin::Unshift => begin_with_length(state, LengthFunction::Unshift, call),
        ArrayBuiltin::IndexOf => start_search(state, Direction::Up, call),
        ArrayBuiltin::LastIndexOf => start_search(state, Direction::Down, call),
        ArrayBuiltin::Every => start_walk(state, WalkFor::Any { wanted: false }, call),
        ArrayBuiltin::Some => start_walk(state, WalkFor::Any { wanted: true }, call),
        ArrayBuiltin::ForEach => start_walk(state, WalkFor::ForEach, call),
        ArrayBuiltin::Map => start_walk(state, WalkFor::Map, call),
        ArrayBuiltin::Filter => start_walk(state, WalkFor::Filter, call),
        ArrayBuiltin::Reduce => start_reduction(state, Direction::Up, call),
        ArrayBuiltin::ReduceRight => start_reduction(state, Direction::Down, call),
    }
}

/// Begins a function that searches.
fn start_search<'p>(
    state: &mut State<'p>,
    direction: Direction,
    call: Invocation,
) -> Result<Act<'p>, NoMemory>
    ensures refines { Computes state.old (length_call (LengthFor.Search direction) (call_of call)) result state.new }
    ensures bounded { RankAtMost state.old 74 result state.new }
{
    begin_length(state, LengthFor::Search { direction }, call)
}

/// Begins a function that calls another one for each element.
fn start_walk<'p>(
    state: &mut State<'p>,
    purpose: WalkFor,
    call: Invocation,
) -> Result<Act<'p>, NoMemory>
    ensures refines { Computes state.old (length_call (LengthFor.Walk purpose) (call_of call)) result state.new }
    ensures bounded { RankAtMost state.old 74 result state.new }
{
    begin_length(state, LengthFor::Walk { purpose }, call)
}

/// Begins a function that hands on from element to element what another one gives.
fn start_reduction<'p>(
    state: &mut State<'p>,
    direction: Direction,
    call: Invocation,
) -> Result<Act<'p>, NoMemory>
    ensures refines { Computes state.old (length_call (LengthFor.Walk (WalkFor.Reduce direction)) (call_of call)) result
        state.new }
    ensures bounded { RankAtMost state.old 74 result state.new }
{
    start_walk(state, WalkFor::Reduce { direction }, call)
}
