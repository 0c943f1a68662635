//! `slice` and `substring` (15.5.4.13, 15.5.4.15).
ghost use Rattle.std.specs.Prelude.{◌≡◌, ◌≤◌, length, pos, IfOk, Some};
ghost use Rattle.jl_lib_text.specs.inner.Methods.{part_of_string};
ghost use Rattle.jl_meaning.specs.Conversions.{integer_of};
ghost use Rattle.jl_meaning.specs.Parts.{◌>>=◌ as ◌then◌};
ghost use Rattle.jl_meaning.specs.builtins.Arguments.{give_string};
ghost use Rattle.jl_meaning.specs.builtins.Elements.{to_end};
ghost use Rattle.jl_progress.specs.Strings.{string_after, units_cut};
ghost use Rattle.jl_progress.specs.declared.string.StringProgress.TheVariants as progress;
ghost use Rattle.jl_state.specs.Clauses.{Computes, RankAtMost};
ghost use Rattle.jl_state.specs.Rank.{rank_act};
ghost use Rattle.jl_state.specs.Rest.{RefinesAlgorithm};
ghost use Rattle.jl_state.specs.declared.state.State.{State as Machine};

use crate::texts::range_of;
use jl_builtin::{argument, clamp, relative_index, wait_for_number};
use jl_num::{Num, NumberOutside};
use jl_operator::number_of;
use jl_progress::{Cut, Progress, StringProgress};
use jl_state::{Act, State};
use jl_text::{NoMemory, Text};
use jl_value::{Fault, Value, is_undefined};
use std::alloc::Global;

/// The start of a part is converted, whose end waits.
pub(crate) fn convert_start<'p>(
    state: &mut State<'p>,
    cut: Cut,
    units: Text,
    args: &[Value],
) -> Result<Act<'p>, NoMemory>
    ensures refines { Computes state.old (part_of_string cut units args.now) result state.new }
    ensures bounded { RankAtMost state.old 46 result state.new }
{
    let alloc = state.alloc();
    let start = argument(alloc, args, 0)?;
    let end = argument(alloc, args, 1)?;
    let progress = Progress::String(StringProgress::Start { cut, units, end });
    wait_for_number(state, progress, start)
}

/// The length of a string as a number.
fn length_of(units: &Text) -> Num
    ensures { result ≡ Some (pos (length units.now)) }
{
    match Num::new(units.units().len() as i64) {
        Ok(length) => length,
        Err(NumberOutside) => unreachable!(),
    }
}

/// The units from a start up to an end.
fn units_cut(alloc: Global, cut: Cut, units: &Text, start: Num, end: Num) -> Result<Text, NoMemory>
    ensures { IfOk result (λ part. part ≡ units_cut cut units.now (integer_of start) (integer_of end)) }
{
    let length = units.units().len();
    match cut {
        Cut::Slice => {
            let from = relative_index(start, length);
            range_of(alloc, units, from, relative_index(end, length))
        }
        Cut::Substring => {
            let a = clamp(start, length);
            let b = clamp(end, length);
            range_of(alloc, units, a.min(b), a.max(b))
        }
    }
}

/// The units from a start up to an end are given.
fn give_cut<'p>(
    alloc: Global,
    cut: Cut,
    units: &Text,
    start: Num,
    end: Num,
) -> Result<Act<'p>, NoMemory>
    ensures refines { IfOk result (λ act. (s : Machine) → RefinesAlgorithm s
        (give_string (units_cut cut units.now (integer_of start) (integer_of end))) s act) }
    ensures low { IfOk result (λ act. rank_act act ≤ 2) }
{
    Ok(Act::Give(Value::Text(units_cut(alloc, cut, units, start, end)?)))
}

/// The end of a part is converted, or is the end of the string where it is undefined.
fn convert_end<'p>(
    state: &mut State<'p>,
    cut: Cut,
    units: Text,
    start: Num,
    end: Value,
) -> Result<Act<'p>, NoMemory>
    ensures refines { Computes state.old (to_end end (length units) then λ b. give_string (units_cut cut units
        (integer_of start) b)) result state.new }
    ensures bounded { RankAtMost state.old 22 result state.new }
{
    let alloc = state.alloc();
    if is_undefined(&end) {
        let length = length_of(&units);
        return give_cut(alloc, cut, &units, start, length);
    }
    let progress = Progress::String(StringProgress::End { cut, units, start });
    wait_for_number(state, progress, end)
}

/// Goes on with the start of a part.
pub(crate) fn resume_start<'p>(
    state: &mut State<'p>,
    cut: Cut,
    units: Text,
    end: Value,
    p: &Value,
) -> Result<Act<'p>, NoMemory>
    ensures refines { Computes state.old (string_after (progress.Start cut units end) p.now) result state.new }
    ensures bounded { RankAtMost state.old 22 result state.new }
{
    match number_of(p) {
        Ok(start) => convert_end(state, cut, units, start, end),
        Err(NumberOutside) => Ok(Act::Fault(Fault::NumberOutside)),
    }
}

/// Goes on with the end of a part.
pub(crate) fn resume_end<'p>(
    state: &mut State<'p>,
    cut: Cut,
    units: &Text,
    start: Num,
    p: &Value,
) -> Result<Act<'p>, NoMemory>
    ensures refines { Computes state.old (string_after (progress.End cut units.now start) p.now) result state.new }
    ensures bounded { RankAtMost state.old 3 result state.new }
{
    let alloc = state.alloc();
    match number_of(p) {
        Ok(end) => give_cut(alloc, cut, units, start, end),
        Err(NumberOutside) => Ok(Act::Fault(Fault::NumberOutside)),
    }
}
