//! indexOf and lastIndexOf (15.4.4.14, 15.4.4.15).
ghost use Rattle.std.specs.Prelude.{◌≡◌};
ghost use Rattle.jl_meaning.specs.Parts.{◌>>=◌ as ◌then◌};
ghost use Rattle.jl_meaning.specs.builtins.Elements.{element};
ghost use Rattle.jl_progress.specs.ArrayCalls.{array_call_after, next_place, search, search_from, search_with};
ghost use Rattle.jl_state.specs.Clauses.{Computes, RankAtMost};

use crate::arguments::second;
use crate::places::{first_place, index_at, next_place, place_from};
use jl_algorithm::to_primitive;
use jl_builtin::{argument, get_index, go_on, has_index, index_or_none, number_of_primitive};
use jl_conv::strict_equal;
use jl_progress::{ArrayCallProgress, Direction, Progress};
use jl_state::{Act, Hint, State};
use jl_text::{List, NoMemory};
use jl_value::{Fault, ObjId, Value};

/// A search begins, when the length is known.
pub(crate) fn search<'p>(
    state: &mut State<'p>,
    direction: Direction,
    object: ObjId,
    length: usize,
    args: &List<Value>,
) -> Result<Act<'p>, NoMemory>
    ensures refines { Computes state.old (search direction object length args.now) result state.new }
    ensures bounded { RankAtMost state.old 28 result state.new }
{
    let alloc = state.alloc();
    if length == 0 {
        return Ok(Act::Give(index_or_none(None)?));
    }
    let sought = argument(alloc, args.items(), 0)?;
    let Some(from) = second(alloc, args)? else {
        let at = first_place(direction, length);
        return go_on_searching(state, object, length, sought, direction, at);
    };
    let progress = ArrayCallProgress::SearchFrom {
        object,
        length,
        sought,
        direction,
    };
    state.push_builtin(Progress::ArrayCall(progress))?;
    to_primitive(state, from, Hint::Number)
}

/// Goes on with where a search begins, as a primitive value.
#[tactic(auto, using(jl_builtin::proofs::Waits::number_outside))]
pub(crate) fn step_search_from<'p>(
    state: &mut State<'p>,
    object: ObjId,
    length: usize,
    sought: Value,
    direction: Direction,
    p: &Value,
) -> Result<Act<'p>, NoMemory>
    ensures refines { Computes state.old (array_call_after (ArrayCallProgress.SearchFrom object length sought
        direction) p.now) result state.new }
    ensures bounded { RankAtMost state.old 9 result state.new }
{
    let Some(n) = number_of_primitive(p) else {
        return Ok(Act::Fault(Fault::NumberOutside));
    };
    let at = place_from(direction, n, length);
    go_on_searching(state, object, length, sought, direction, at)
}

/// The turns follow that begin at a place.
fn go_on_searching<'p>(
    state: &mut State<'p>,
    object: ObjId,
    length: usize,
    sought: Value,
    direction: Direction,
    at: usize,
) -> Result<Act<'p>, NoMemory>
    ensures refines { Computes state.old (search_from direction object length sought at) result state.new }
    ensures bounded { RankAtMost state.old 9 result state.new }
{
    let progress = ArrayCallProgress::SearchTurn {
        object,
        length,
        sought,
        direction,
        at,
    };
    go_on(state, Progress::ArrayCall(progress))
}

/// A turn begins, if one is left.
pub(crate) fn search_turn<'p>(
    state: &mut State<'p>,
    object: ObjId,
    length: usize,
    sought: Value,
    direction: Direction,
    at: usize,
) -> Result<Act<'p>, NoMemory>
    ensures refines { Computes state.old (search_from direction object length sought at) result state.new }
    ensures bounded { RankAtMost state.old 3 result state.new }
{
    let Some(index) = index_at(direction, at, length) else {
        return Ok(Act::Give(index_or_none(None)?));
    };
    if !state.spend() {
        return Ok(Act::Spent);
    }
    search_element(state, object, length, sought, direction, index)
}

/// The element of a turn is got, if there is one.
fn search_element<'p>(
    state: &mut State<'p>,
    object: ObjId,
    length: usize,
    sought: Value,
    direction: Direction,
    index: usize,
) -> Result<Act<'p>, NoMemory>
    ensures refines { Computes state.old (element object index then search_with direction object length sought index)
        result state.new }
    ensures bounded { RankAtMost state.old 16 result state.new }
{
    let alloc = state.alloc();
    let there = has_index(alloc, &state.store, object, index)?;
    if !there {
        let at = next_place(direction, index)?;
        return go_on_searching(state, object, length, sought, direction, at);
    }
    let progress = ArrayCallProgress::SearchElement {
        object,
        length,
        sought,
        direction,
        index,
    };
    state.push_builtin(Progress::ArrayCall(progress))?;
    get_index(state, object, index)
}

/// Goes on with the element at an index.
pub(crate) fn step_search_element<'p>(
    state: &mut State<'p>,
    object: ObjId,
    length: usize,
    sought: Value,
    direction: Direction,
    index: usize,
    v: &Value,
) -> Result<Act<'p>, NoMemory>
    ensures refines { Computes state.old (array_call_after (ArrayCallProgress.SearchElement object length sought
        direction index) v.now) result state.new }
    ensures bounded { RankAtMost state.old 9 result state.new }
{
    if strict_equal(&sought, v) {
        return Ok(Act::Give(index_or_none(Some(index))?));
    }
    let at = next_place(direction, index)?;
    go_on_searching(state, object, length, sought, direction, at)
}
