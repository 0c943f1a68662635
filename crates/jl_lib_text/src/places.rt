//! `indexOf` and `lastIndexOf` (15.5.4.7, 15.5.4.8).
ghost use Rattle.std.specs.Prelude.{◌≡◌, IfOk};
ghost use Rattle.jl_lib_text.specs.inner.Methods.{place_in_string};
ghost use Rattle.jl_meaning.specs.Conversions.{to_number};
ghost use Rattle.jl_meaning.specs.Parts.{give, ◌>>=◌ as ◌then◌};
ghost use Rattle.jl_meaning.specs.builtins.String.{last_start};
ghost use Rattle.jl_progress.specs.Strings.{place_of_part, string_after};
ghost use Rattle.jl_progress.specs.declared.string.StringProgress.TheVariants as progress;
ghost use Rattle.jl_state.specs.Clauses.{Computes, RankAtMost};

use jl_builtin::{argument, clamp, index_or_none, wait_for_number, wait_for_string};
use jl_num::{Num, NumberOutside};
use jl_operator::{number_of, text_of};
use jl_progress::{Progress, Search, StringProgress};
use jl_state::{Act, State};
use jl_text::{NoMemory, Text};
use jl_value::{Fault, Value};

/// A part is converted that is searched for from a position on, which waits.
pub(crate) fn convert_part<'p>(
    state: &mut State<'p>,
    search: Search,
    units: Text,
    args: &[Value],
) -> Result<Act<'p>, NoMemory>
    ensures refines { Computes state.old (place_in_string search units args.now) result state.new }
    ensures bounded { RankAtMost state.old 46 result state.new }
{
    let alloc = state.alloc();
    let part = argument(alloc, args, 0)?;
    let position = argument(alloc, args, 1)?;
    let progress = Progress::String(StringProgress::Part {
        search,
        units,
        position,
    });
    wait_for_string(state, progress, part)
}

/// The position is converted from which on a part is searched for.
fn convert_place<'p>(
    state: &mut State<'p>,
    search: Search,
    units: Text,
    part: Text,
    position: Value,
) -> Result<Act<'p>, NoMemory>
    ensures refines { Computes state.old (to_number position then λ n. give (place_of_part search units part n))
        result state.new }
    ensures bounded { RankAtMost state.old 22 result state.new }
{
    let progress = Progress::String(StringProgress::Place {
        search,
        units,
        part,
    });
    wait_for_number(state, progress, position)
}

/// Goes on with the part that is searched for.
pub(crate) fn resume_part<'p>(
    state: &mut State<'p>,
    search: Search,
    units: Text,
    position: Value,
    p: &Value,
) -> Result<Act<'p>, NoMemory>
    ensures refines { Computes state.old (string_after (progress.Part search units position) p.now) result state.new }
    ensures bounded { RankAtMost state.old 22 result state.new }
{
    let alloc = state.alloc();
    let part = text_of(alloc, p)?;
    convert_place(state, search, units, part, position)
}

/// Where a search for the last place begins; NaN stands for an infinity.
fn last_start(n: Num, length: usize) -> usize
    ensures { result ≡ last_start n length }
{
    match n.value() {
        None => length,
        Some(_) => clamp(n, length),
    }
}

/// The place of a part, which is searched for from a position on, or -1.
fn place_of_part(
    search: Search,
    units: &Text,
    part: &Text,
    position: Num,
) -> Result<Value, NoMemory>
    ensures { IfOk result (λ v. v ≡ place_of_part search units.now part.now position) }
{
    let length = units.units().len();
    match search {
        Search::First => index_or_none(units.find(part, clamp(position, length))),
        Search::Last => index_or_none(units.find_last(part, last_start(position, length))),
    }
}

/// Goes on with the position from which on a part is searched for.
pub(crate) fn resume_place<'p>(
    state: &mut State<'p>,
    search: Search,
    units: &Text,
    part: &Text,
    p: &Value,
) -> Result<Act<'p>, NoMemory>
    ensures refines { Computes state.old (string_after (progress.Place search units.now part.now) p.now) result
        state.new }
    ensures bounded { RankAtMost state.old 3 result state.new }
{
    match number_of(p) {
        Ok(position) => Ok(Act::Give(place_of_part(search, units, part, position)?)),
        Err(NumberOutside) => Ok(Act::Fault(Fault::NumberOutside)),
    }
}
