//! `join` (15.4.4.5). The line so far is handed on from turn to turn, so that no turn copies it.
ghost use Rattle.std.specs.Prelude.{◌≡◌, ◌+◌, ◌++◌, length, nat_lt, not};
ghost use Rattle.jl_conv.specs.Conversions.{text_of_value};
ghost use Rattle.jl_meaning.specs.Errors.{string_limit, string_within};
ghost use Rattle.jl_meaning.specs.Parts.{◌>>=◌ as ◌then◌};
ghost use Rattle.jl_meaning.specs.builtins.Array.{join_elements, join_turn};
ghost use Rattle.jl_progress.specs.Arrays.{array_after, join_first, join_next, join_others, with_length};
ghost use Rattle.jl_state.specs.Clauses.{Computes, RankAtMost};

use crate::frames::{begin_turn, get_for};
use crate::places::sum;
use jl_builtin::{argument, give_text, wait_for_string, with_units};
use jl_operator::text_of;
use jl_progress::{ArrayProgress, Joining, LengthFunction, Progress};
use jl_state::{Act, State};
use jl_text::{List, MOST_UNITS, NoMemory, Text, word};
use jl_value::{Fault, ObjId, Value, is_nothing, is_undefined};

/// Whether so many units have room in a string after so many.
fn has_room(line: usize, more: usize) -> bool
    ensures { result ≡ not (nat_lt string_limit (line + more)) }
{
    line <= MOST_UNITS && more <= MOST_UNITS - line
}

/// `join` of an object with this length.
pub(crate) fn join<'p>(
    state: &mut State<'p>,
    object: ObjId,
    args: &[Value],
    length: usize,
) -> Result<Act<'p>, NoMemory>
    ensures refines { Computes state.old (with_length LengthFunction.Join object args.now length) result state.new }
    ensures bounded { RankAtMost state.old 60 result state.new }
{
    let alloc = state.alloc();
    let separator = argument(alloc, args, 0)?;
    if is_undefined(&separator) {
        let comma = word(alloc, ",")?;
        return join_elements(state, object, length, comma);
    }
    let progress = Progress::Array(ArrayProgress::JoinSeparator { object, length });
    wait_for_string(state, progress, separator)
}

/// Goes on with the separator as a primitive value.
pub(crate) fn step_join_separator<'p>(
    state: &mut State<'p>,
    object: ObjId,
    length: usize,
    p: &Value,
) -> Result<Act<'p>, NoMemory>
    ensures refines { Computes state.old (array_after (ArrayProgress.JoinSeparator object length) p.now) result
        state.new }
    ensures bounded { RankAtMost state.old 42 result state.new }
{
    let alloc = state.alloc();
    let separator = text_of(alloc, p)?;
    join_elements(state, object, length, separator)
}

/// The elements are joined by a separator.
fn join_elements<'p>(
    state: &mut State<'p>,
    object: ObjId,
    length: usize,
    separator: Text,
) -> Result<Act<'p>, NoMemory>
    ensures refines { Computes state.old (join_elements object length separator) result state.new }
    ensures bounded { RankAtMost state.old 34 result state.new }
{
    let alloc = state.alloc();
    if length == 0 {
        return Ok(Act::Give(Value::Text(word(alloc, "")?)));
    }
    let joining = Joining {
        object,
        separator,
        left: length - 1,
        k: 1,
    };
    let progress = ArrayProgress::JoinFirst { joining };
    get_for(state, object, 0, progress)
}

/// Goes on with the first element.
pub(crate) fn step_join_first<'p>(
    state: &mut State<'p>,
    joining: Joining,
    v: Value,
) -> Result<Act<'p>, NoMemory>
    ensures refines { Computes state.old (array_after (ArrayProgress.JoinFirst joining) v) result state.new }
    ensures bounded { RankAtMost state.old 32 result state.new }
{
    let alloc = state.alloc();
    if is_nothing(&v) {
        let first = word(alloc, "")?;
        return join_first(state, joining, first);
    }
    let progress = Progress::Array(ArrayProgress::JoinFirstPrimitive { joining });
    wait_for_string(state, progress, v)
}

/// Goes on with the first element as a primitive value.
pub(crate) fn step_join_first_primitive<'p>(
    state: &mut State<'p>,
    joining: Joining,
    p: &Value,
) -> Result<Act<'p>, NoMemory>
    ensures refines { Computes state.old (array_after (ArrayProgress.JoinFirstPrimitive joining) p.now) result
        state.new }
    ensures bounded { RankAtMost state.old 12 result state.new }
{
    let alloc = state.alloc();
    let first = text_of(alloc, p)?;
    join_first(state, joining, first)
}

/// The line begins with the string of the first element.
fn join_first<'p>(state: &mut State<'p>, joining: Joining, first: Text) -> Result<Act<'p>, NoMemory>
    ensures refines { Computes state.old (join_first joining first) result state.new }
    ensures bounded { RankAtMost state.old 12 result state.new }
{
    let alloc = state.alloc();
    let line = with_units(List::new(alloc), first.units())?;
    begin_turn(state, ArrayProgress::JoinTurn { joining, line })
}

/// A turn begins, if any is left, and else the line is given.
pub(crate) fn join_turn_begins<'p>(
    state: &mut State<'p>,
    joining: Joining,
    line: List<u16>,
) -> Result<Act<'p>, NoMemory>
    ensures refines { Computes state.old (join_others joining line) result state.new }
    ensures bounded { RankAtMost state.old 8 result state.new }
{
    let alloc = state.alloc();
    if joining.left == 0 {
        return give_text(alloc, line.items());
    }
    if !state.spend() {
        return Ok(Act::Spent);
    }
    let left = joining.left - 1;
    let k = sum(joining.k, 1)?;
    join_one(state, joining.k, Joining { left, k, ..joining }, line)
}

/// The separator and the element at an index come last in a line, and then those that are left.
fn join_one<'p>(
    state: &mut State<'p>,
    index: usize,
    joining: Joining,
    line: List<u16>,
) -> Result<Act<'p>, NoMemory>
    ensures refines { Computes state.old (join_turn joining.object joining.separator index line then join_others
        joining) result state.new }
    ensures bounded { RankAtMost state.old 34 result state.new }
{
    let object = joining.object;
    let separator = joining.separator.units();
    if !has_room(line.len(), separator.len()) {
        return Ok(Act::Fault(Fault::StringTooLong));
    }
    let line = with_units(line, separator)?;
    let progress = ArrayProgress::JoinElement { joining, line };
    get_for(state, object, index, progress)
}

/// Goes on with an element.
pub(crate) fn step_join_element<'p>(
    state: &mut State<'p>,
    joining: Joining,
    line: List<u16>,
    v: Value,
) -> Result<Act<'p>, NoMemory>
    ensures refines { Computes state.old (array_after (ArrayProgress.JoinElement joining line) v) result state.new }
    ensures bounded { RankAtMost state.old 32 result state.new }
{
    if is_nothing(&v) {
        return join_next(state, joining, line, &[]);
    }
    let progress = Progress::Array(ArrayProgress::JoinElementPrimitive { joining, line });
    wait_for_string(state, progress, v)
}

/// Goes on with an element as a primitive value.
pub(crate) fn step_join_element_primitive<'p>(
    state: &mut State<'p>,
    joining: Joining,
    line: List<u16>,
    p: &Value,
) -> Result<Act<'p>, NoMemory>
    ensures refines { Computes state.old (array_after (ArrayProgress.JoinElementPrimitive joining line) p.now) result
        state.new }
    ensures bounded { RankAtMost state.old 12 result state.new }
{
    let alloc = state.alloc();
    let next = text_of(alloc, p)?;
    join_next(state, joining, line, next.units())
}

/// The string of an element comes last in a line, and then those that are left.
fn join_next<'p>(
    state: &mut State<'p>,
    joining: Joining,
    line: List<u16>,
    next: &[u16],
) -> Result<Act<'p>, NoMemory>
    ensures refines { Computes state.old (join_next joining line next.now) result state.new }
    ensures bounded { RankAtMost state.old 12 result state.new }
{
    if !has_room(line.len(), next.len()) {
        return Ok(Act::Fault(Fault::StringTooLong));
    }
    let line = with_units(line, next)?;
    begin_turn(state, ArrayProgress::JoinTurn { joining, line })
}
