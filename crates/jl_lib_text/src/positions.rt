//! `charAt` and `charCodeAt` (15.5.4.4, 15.5.4.5).
ghost use Rattle.std.specs.Prelude.{◌≡◌, ◌≤◌, IfOk};
ghost use Rattle.jl_lib_text.specs.inner.Methods.{unit_of_string};
ghost use Rattle.jl_meaning.specs.Conversions.{integer_of};
ghost use Rattle.jl_meaning.specs.Parts.{give};
ghost use Rattle.jl_meaning.specs.builtins.String.{unit_at_position};
ghost use Rattle.jl_progress.specs.Strings.{string_after, unit_given};
ghost use Rattle.jl_progress.specs.declared.string.StringProgress.TheVariants as progress;
ghost use Rattle.jl_state.specs.Clauses.{Computes, RankAtMost};
ghost use Rattle.jl_state.specs.Rank.{rank_act};
ghost use Rattle.jl_state.specs.Rest.{RefinesAlgorithm};
ghost use Rattle.jl_state.specs.declared.state.State.{State as Machine};

use crate::texts::text_of_units;
use jl_builtin::{argument, integer_of, wait_for_number};
use jl_num::{Num, NumberOutside};
use jl_operator::number_of;
use jl_progress::{Progress, StringProgress, UnitForm};
use jl_state::{Act, State};
use jl_store::count;
use jl_text::{NoMemory, Text, word};
use jl_value::{Fault, Value};
use std::alloc::Global;

/// The position is converted at which a unit is given.
pub(crate) fn convert_position<'p>(
    state: &mut State<'p>,
    form: UnitForm,
    units: Text,
    args: &[Value],
) -> Result<Act<'p>, NoMemory>
    ensures refines { Computes state.old (unit_of_string form units args.now) result state.new }
    ensures bounded { RankAtMost state.old 22 result state.new }
{
    let alloc = state.alloc();
    let position = argument(alloc, args, 0)?;
    let progress = Progress::String(StringProgress::Position { form, units });
    wait_for_number(state, progress, position)
}

/// The unit at a position, if there is one.
fn unit_at_position(units: &[u16], position: Num) -> Option<u16>
    ensures { result ≡ unit_at_position units.now (integer_of position) }
{
    match usize::try_from(integer_of(position)) {
        Ok(at) => units.get(at).copied(),
        Err(_) => None,
    }
}

/// A unit that was found as a string or as a number; else the empty string or NaN.
fn unit_given(alloc: Global, form: UnitForm, unit: Option<u16>) -> Result<Value, NoMemory>
    ensures { IfOk result (λ v. v ≡ unit_given form unit) }
{
    match (form, unit) {
        (UnitForm::Text, Some(unit)) => Ok(Value::Text(text_of_units(alloc, &[unit])?)),
        (UnitForm::Text, None) => Ok(Value::Text(word(alloc, "")?)),
        (UnitForm::Code, Some(unit)) => count(usize::from(unit)),
        (UnitForm::Code, None) => Ok(Value::Num(Num::NAN)),
    }
}

/// The unit at a position is given.
fn give_unit<'p>(
    alloc: Global,
    form: UnitForm,
    units: &Text,
    position: Num,
) -> Result<Act<'p>, NoMemory>
    ensures refines { IfOk result (λ act. (s : Machine) → RefinesAlgorithm s
        (give (unit_given form (unit_at_position units.now (integer_of position)))) s act) }
    ensures low { IfOk result (λ act. rank_act act ≤ 2) }
{
    let unit = unit_at_position(units.units(), position);
    Ok(Act::Give(unit_given(alloc, form, unit)?))
}

/// Goes on with the position at which a unit is given.
pub(crate) fn resume_position<'p>(
    state: &mut State<'p>,
    form: UnitForm,
    units: Text,
    p: &Value,
) -> Result<Act<'p>, NoMemory>
    ensures refines { Computes state.old (string_after (progress.Position form units) p.now) result state.new }
    ensures bounded { RankAtMost state.old 3 result state.new }
{
    let alloc = state.alloc();
    match number_of(p) {
        Ok(position) => give_unit(alloc, form, &units, position),
        Err(NumberOutside) => Ok(Act::Fault(Fault::NumberOutside)),
    }
}
