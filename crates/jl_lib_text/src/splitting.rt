//! `split` (15.5.4.14).
ghost use Rattle.std.specs.Prelude.{◌≡◌, ◌<◌, ◌∷◌, [], length, map, take, IfOk};
ghost use Rattle.jl_meaning.specs.Conversions.{to_uint32};
ghost use Rattle.jl_meaning.specs.Parts.{◌>>=◌ as ◌then◌};
ghost use Rattle.jl_meaning.specs.builtins.Arguments.{give_object, unless_undefined};
ghost use Rattle.jl_meaning.specs.builtins.Elements.{add_in_turns};
ghost use Rattle.jl_meaning.specs.builtins.String.{pieces, string_split};
ghost use Rattle.jl_progress.specs.Strings.{split_up_to, string_after};
ghost use Rattle.jl_progress.specs.declared.string.StringProgress.TheVariants as progress;
ghost use Rattle.jl_state.specs.Clauses.{Computes, RankAtMost};
ghost use Rattle.jl_value.specs.declared.value.Value.TheVariants as value;

use crate::texts::text_of_units;
use jl_builtin::{argument, copy_of, fill_array, wait_for_number, wait_for_string};
use jl_num::{NumberOutside, to_uint32};
use jl_operator::{number_of, text_of};
use jl_progress::{Progress, StringProgress};
use jl_state::{Act, State};
use jl_text::{List, NoMemory, Text};
use jl_value::{Fault, ObjId, Value, is_undefined};
use std::alloc::Global;

/// The pieces of a string between the places of a separator that isn't empty.
fn pieces_between(alloc: Global, separator: &Text, units: &Text) -> Result<List<Value>, NoMemory>
    requires { 0 < length separator.now }
    ensures { IfOk result (λ list. list ≡ map (λ part. value.Text part) (pieces separator.now units.now)) }
{
    let end = units.units().len();
    let mut list = List::new(alloc);
    let mut start = 0;
    while let Some(place) = units.find(separator, start) {
        list.push(Value::Text(units.slice(alloc, start, place)?))?;
        start = place + separator.units().len();
    }
    list.push(Value::Text(units.slice(alloc, start, end)?))?;
    Ok(list)
}

/// Each unit of a string as a piece.
fn single_units(alloc: Global, units: &[u16]) -> Result<List<Value>, NoMemory>
    ensures { IfOk result (λ list. list ≡ map (λ part. value.Text part) (map (λ u. u ∷ []) units.now)) }
{
    let mut list = List::new(alloc);
    for unit in units {
        list.push(Value::Text(text_of_units(alloc, &[*unit])?))?;
    }
    Ok(list)
}

/// The pieces of a string between the places of a separator; an empty one stands between any two units.
fn pieces(alloc: Global, separator: &Text, units: &Text) -> Result<List<Value>, NoMemory>
    ensures { IfOk result (λ list. list ≡ map (λ part. value.Text part) (pieces separator.now units.now)) }
{
    if separator.units().is_empty() {
        return single_units(alloc, units.units());
    }
    pieces_between(alloc, separator, units)
}

/// The whole string as the one piece.
fn one_piece(alloc: Global, units: Text) -> Result<List<Value>, NoMemory>
    ensures { IfOk result (λ list. list ≡ value.Text units ∷ []) }
{
    let mut list = List::new(alloc);
    list.push(Value::Text(units))?;
    Ok(list)
}

/// As many of these as a limit allows.
fn first_values(alloc: Global, values: &[Value], limit: usize) -> Result<List<Value>, NoMemory>
    ensures { IfOk result (λ list. list ≡ take limit values.now) }
{
    let count = limit.min(values.len());
    copy_of(alloc, &values[..count])
}

/// An array is filled with as many pieces as the limit allows, and given.
fn fill_with_pieces<'p>(
    state: &mut State<'p>,
    array: ObjId,
    limit: u32,
    pieces: &[Value],
) -> Result<Act<'p>, NoMemory>
    ensures refines { Computes state.old (add_in_turns array 0 (take limit pieces.now) then λ _. give_object array)
        result state.new }
    ensures bounded { RankAtMost state.old 6 result state.new }
{
    let alloc = state.alloc();
    let values = first_values(alloc, pieces, limit as usize)?;
    fill_array(state, array, values, 0)
}

/// The separator is converted, or there is one piece where it is undefined.
fn convert_separator<'p>(
    state: &mut State<'p>,
    units: Text,
    array: ObjId,
    separator: Value,
    limit: u32,
) -> Result<Act<'p>, NoMemory>
    ensures refines { Computes state.old (split_up_to units array separator limit) result state.new }
    ensures bounded { RankAtMost state.old 22 result state.new }
{
    let alloc = state.alloc();
    if is_undefined(&separator) {
        let piece = one_piece(alloc, units)?;
        return fill_with_pieces(state, array, limit, piece.items());
    }
    let progress = Progress::String(StringProgress::Separator {
        units,
        array,
        limit,
    });
    wait_for_string(state, progress, separator)
}

/// The limit is converted, or allows any number of pieces where it is undefined.
fn convert_limit<'p>(
    state: &mut State<'p>,
    units: Text,
    array: ObjId,
    separator: Value,
    limit: Value,
) -> Result<Act<'p>, NoMemory>
    ensures refines { Computes state.old (unless_undefined 4294967295 to_uint32 limit then split_up_to units array
        separator) result state.new }
    ensures bounded { RankAtMost state.old 46 result state.new }
{
    if is_undefined(&limit) {
        return convert_separator(state, units, array, separator, u32::MAX);
    }
    let progress = Progress::String(StringProgress::Limit {
        units,
        array,
        separator,
    });
    wait_for_number(state, progress, limit)
}

/// An array is made for the pieces of a string, and then the limit is converted.
pub(crate) fn split<'p>(
    state: &mut State<'p>,
    units: Text,
    args: &[Value],
) -> Result<Act<'p>, NoMemory>
    ensures refines { Computes state.old (string_split units args.now) result state.new }
    ensures bounded { RankAtMost state.old 46 result state.new }
{
    let alloc = state.alloc();
    let separator = argument(alloc, args, 0)?;
    let limit = argument(alloc, args, 1)?;
    let array = state.store.new_array()?;
    convert_limit(state, units, array, separator, limit)
}

/// Goes on with the limit.
pub(crate) fn resume_limit<'p>(
    state: &mut State<'p>,
    units: Text,
    array: ObjId,
    separator: Value,
    p: &Value,
) -> Result<Act<'p>, NoMemory>
    ensures refines { Computes state.old (string_after (progress.Limit units array separator) p.now) result state.new }
    ensures bounded { RankAtMost state.old 22 result state.new }
{
    match number_of(p) {
        Ok(limit) => {
            let limit = to_uint32(limit);
            convert_separator(state, units, array, separator, limit)
        }
        Err(NumberOutside) => Ok(Act::Fault(Fault::NumberOutside)),
    }
}

/// Goes on with the separator.
pub(crate) fn resume_separator<'p>(
    state: &mut State<'p>,
    units: &Text,
    array: ObjId,
    limit: u32,
    p: &Value,
) -> Result<Act<'p>, NoMemory>
    ensures refines { Computes state.old (string_after (progress.Separator units.now array limit) p.now) result
        state.new }
    ensures bounded { RankAtMost state.old 6 result state.new }
{
    let alloc = state.alloc();
    let separator = text_of(alloc, p)?;
    let pieces = pieces(alloc, &separator, units)?;
    fill_with_pieces(state, array, limit, pieces.items())
}
