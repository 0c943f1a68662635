//! `sort` without a function to compare by (15.4.4.11): the elements are read one a turn, sorted, and put back one a
//! turn, and then as many are deleted as there were holes.
ghost use Rattle.std.specs.Prelude.{◌≡◌, ◌+◌, map};
ghost use Rattle.jl_meaning.specs.Parts.{◌>>=◌ as ◌then◌};
ghost use Rattle.jl_meaning.specs.builtins.ArrayChanges.{array_sort, read_turn, sort_by_keys, KeyedValue};
ghost use Rattle.jl_progress.specs.Arrays.{array_after, put_others, sort_others};
ghost use Rattle.jl_state.specs.Clauses.{Computes, RankAtMost};
ghost use Rattle.jl_state.specs.Words.{call_of};
ghost use Rattle.jl_value.specs.declared.value.Value.TheVariants as value;

use crate::frames::{begin_turn, get_for};
use crate::lengths::begin_with_length;
use crate::ordering::{in_order, values_of};
use crate::places::sum;
use jl_builtin::{argument, has_index, unsupported, wait_for_string};
use jl_operator::text_of;
use jl_progress::{AfterPutting, ArrayProgress, LengthFunction, Progress, Reading};
use jl_state::{Act, Invocation, State};
use jl_text::{List, NoMemory, Text};
use jl_value::{ArrayBuiltin, Builtin, ObjId, Value, is_undefined, share};

/// `sort` begins. With a function to compare by it is left out.
pub(crate) fn array_sort<'p>(state: &mut State<'p>, call: Invocation) -> Result<Act<'p>, NoMemory>
    ensures refines { Computes state.old (array_sort (call_of call)) result state.new }
    ensures bounded { RankAtMost state.old 164 result state.new }
{
    let alloc = state.alloc();
    let comparator = argument(alloc, call.args.items(), 0)?;
    if !is_undefined(&comparator) {
        return Ok(unsupported(Builtin::Array(ArrayBuiltin::Sort)));
    }
    begin_with_length(state, LengthFunction::Sort, call)
}

/// A turn begins in which an element is read, if any is left.
pub(crate) fn sort_turn<'p>(
    state: &mut State<'p>,
    reading: Reading,
    read: List<(Option<Text>, Value)>,
) -> Result<Act<'p>, NoMemory>
    ensures refines { Computes state.old (sort_others reading read) result state.new }
    ensures bounded { RankAtMost state.old 62 result state.new }
{
    if reading.left == 0 {
        return put_sorted(state, reading.object, reading.length, read);
    }
    if !state.spend() {
        return Ok(Act::Spent);
    }
    let index = reading.k;
    let left = reading.left - 1;
    let k = sum(index, 1)?;
    read_element(state, index, Reading { left, k, ..reading }, read)
}

/// The element at an index is read, if there is one, and then those that are left.
fn read_element<'p>(
    state: &mut State<'p>,
    index: usize,
    reading: Reading,
    read: List<(Option<Text>, Value)>,
) -> Result<Act<'p>, NoMemory>
    ensures refines { Computes state.old (read_turn reading.object index read then sort_others reading) result
        state.new }
    ensures bounded { RankAtMost state.old 104 result state.new }
{
    let alloc = state.alloc();
    let object = reading.object;
    if has_index(alloc, &state.store, object, index)? {
        let progress = ArrayProgress::SortElement { reading, read };
        return get_for(state, object, index, progress);
    }
    begin_turn(state, ArrayProgress::SortTurn { reading, read })
}

/// Goes on with an element.
pub(crate) fn step_sort_element<'p>(
    state: &mut State<'p>,
    reading: Reading,
    read: List<(Option<Text>, Value)>,
    v: Value,
) -> Result<Act<'p>, NoMemory>
    ensures refines { Computes state.old (array_after (ArrayProgress.SortElement reading read) v) result state.new }
    ensures bounded { RankAtMost state.old 102 result state.new }
{
    let alloc = state.alloc();
    if is_undefined(&v) {
        let mut read = read;
        read.push((None, v))?;
        return begin_turn(state, ArrayProgress::SortTurn { reading, read });
    }
    let element = share(alloc, &v)?;
    let progress = Progress::Array(ArrayProgress::SortPrimitive {
        reading,
        read,
        element,
    });
    wait_for_string(state, progress, v)
}

/// Goes on with an element as a primitive value.
pub(crate) fn step_sort_primitive<'p>(
    state: &mut State<'p>,
    reading: Reading,
    read: List<(Option<Text>, Value)>,
    element: Value,
    p: &Value,
) -> Result<Act<'p>, NoMemory>
    ensures refines { Computes state.old (array_after (ArrayProgress.SortPrimitive reading read element) p.now) result
        state.new }
    ensures bounded { RankAtMost state.old 82 result state.new }
{
    let alloc = state.alloc();
    let text = text_of(alloc, p)?;
    let mut read = read;
    read.push((Some(text), element))?;
    begin_turn(state, ArrayProgress::SortTurn { reading, read })
}

/// The elements that have been read are sorted, and put back one a turn.
fn put_sorted<'p>(
    state: &mut State<'p>,
    object: ObjId,
    length: usize,
    read: List<(Option<Text>, Value)>,
) -> Result<Act<'p>, NoMemory>
    ensures refines { Computes state.old (put_others object 0 (map (λ (x : KeyedValue). x.1) (sort_by_keys read))
        (AfterPutting.Sort length)) result state.new }
    ensures bounded { RankAtMost state.old 62 result state.new }
{
    let alloc = state.alloc();
    let sorted = in_order(alloc, read)?;
    let values = values_of(alloc, sorted.items())?;
    let progress = ArrayProgress::PutTurn {
        object,
        index: 0,
        values,
        from: 0,
        then: AfterPutting::Sort { length },
    };
    begin_turn(state, progress)
}
