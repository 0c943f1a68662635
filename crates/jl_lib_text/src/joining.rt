//! `concat` (15.5.4.6).
ghost use Rattle.std.specs.Prelude.{◌≤◌, ◌∷◌, drop, length};
ghost use Rattle.jl_text.specs.Limits.{most_units};
ghost use Rattle.jl_lib_text.specs.inner.Turns.{string_joined};
ghost use Rattle.jl_progress.specs.Strings.{string_after};
ghost use Rattle.jl_progress.specs.declared.string.StringProgress.TheVariants as progress;
ghost use Rattle.jl_state.specs.Clauses.{Computes, RankAtMost};

use crate::texts::text_of_units;
use jl_builtin::{copy_of, value_from, wait_for_string, with_units};
use jl_operator::text_of;
use jl_progress::{Progress, StringProgress};
use jl_state::{Act, State};
use jl_text::{List, MOST_UNITS, NoMemory, Text};
use jl_value::{Fault, Value};

/// The arguments from an index on as strings after the units so far, one a turn.
fn string_joined<'p>(
    state: &mut State<'p>,
    units: List<u16>,
    args: List<Value>,
    from: usize,
) -> Result<Act<'p>, NoMemory>
    requires { length units ≤ most_units }
    ensures refines { Computes state.old (string_joined units (drop from args)) result state.new }
    ensures bounded { RankAtMost state.old 3 result state.new }
{
    let alloc = state.alloc();
    match value_from(alloc, args.items(), from)? {
        None => Ok(Act::Give(Value::Text(text_of_units(alloc, units.items())?))),
        Some((v, next)) => convert_next(state, units, v, args, next),
    }
}

/// An argument takes a step, and is converted; those from an index on wait.
fn convert_next<'p>(
    state: &mut State<'p>,
    units: List<u16>,
    v: Value,
    args: List<Value>,
    from: usize,
) -> Result<Act<'p>, NoMemory>
    ensures refines { Computes state.old (string_joined units (v ∷ drop from args)) result state.new }
    ensures bounded { RankAtMost state.old 1 result state.new }
{
    if !state.spend() {
        return Ok(Act::Spent);
    }
    let progress = Progress::String(StringProgress::Joined { units, args, from });
    wait_for_string(state, progress, v)
}

/// Other strings are joined to one.
pub(crate) fn join_all<'p>(
    state: &mut State<'p>,
    units: &Text,
    args: &[Value],
) -> Result<Act<'p>, NoMemory>
    ensures refines { Computes state.old (string_joined units.now args.now) result state.new }
    ensures bounded { RankAtMost state.old 3 result state.new }
{
    let alloc = state.alloc();
    let units = with_units(List::new(alloc), units.units())?;
    let args = copy_of(alloc, args)?;
    string_joined(state, units, args, 0)
}

/// Goes on with an argument that has been converted.
pub(crate) fn resume_joined<'p>(
    state: &mut State<'p>,
    units: List<u16>,
    args: List<Value>,
    from: usize,
    p: &Value,
) -> Result<Act<'p>, NoMemory>
    ensures refines { Computes state.old (string_after (progress.Joined units args from) p.now) result state.new }
    ensures bounded { RankAtMost state.old 3 result state.new }
{
    let alloc = state.alloc();
    let text = text_of(alloc, p)?;
    let units = with_units(units, text.units())?;
    if units.len() > MOST_UNITS {
        return Ok(Act::Fault(Fault::StringTooLong));
    }
    string_joined(state, units, args, from)
}
