//! Methods of strings, which begin with `this` as a string (15.5.4).
ghost use Rattle.std.specs.Prelude.{◌≤◌, IfOk};
ghost use Rattle.jl_meaning.specs.builtins.String.{method_of_string, string_method_algorithm, string_trim};
ghost use Rattle.jl_progress.specs.Strings.{string_after};
ghost use Rattle.jl_progress.specs.declared.string.StringProgress.TheVariants as progress;
ghost use Rattle.jl_state.specs.Clauses.{Computes, RankAtMost};
ghost use Rattle.jl_state.specs.Rank.{rank_act};
ghost use Rattle.jl_state.specs.Rest.{RefinesAlgorithm};
ghost use Rattle.jl_state.specs.Words.{call_of};
ghost use Rattle.jl_state.specs.declared.state.State.{State as Machine};

use crate::casing::{LetterCase, give_in_case};
use crate::cutting::convert_start;
use crate::joining::join_all;
use crate::places::convert_part;
use crate::positions::convert_position;
use crate::splitting::split;
use crate::texts::text_of_units;
use jl_algorithm::throw_native;
use jl_builtin::{copy_of, wait_for_string};
use jl_conv::{without_end, without_front};
use jl_operator::text_of;
use jl_progress::{Cut, Progress, Search, StringProgress, UnitForm};
use jl_state::{Act, Invocation, State};
use jl_text::{List, NoMemory, Text};
use jl_value::{ErrorKind, StringMethod, Value, share};
use std::alloc::Global;

/// Begins a method: `this` is converted first, which throws where it is undefined or null (9.10).
pub fn start_method<'p>(
    state: &mut State<'p>,
    method: StringMethod,
    call: &Invocation,
) -> Result<Act<'p>, NoMemory>
    ensures refines { Computes state.old (string_method_algorithm method (call_of call.now)) result state.new }
    ensures bounded { RankAtMost state.old 76 result state.new }
{
    let alloc = state.alloc();
    match &call.this {
        Value::Undefined => {
            let message = "no property of undefined";
            throw_native(state, ErrorKind::TypeError, message)
        }
        Value::Null => {
            let message = "no property of null";
            throw_native(state, ErrorKind::TypeError, message)
        }
        this => {
            let args = copy_of(alloc, call.args.items())?;
            let value = share(alloc, this)?;
            let progress = Progress::String(StringProgress::This { method, args });
            wait_for_string(state, progress, value)
        }
    }
}

/// A string is given without the spaces at its ends (15.5.4.20).
fn give_trimmed<'p>(alloc: Global, units: &Text) -> Result<Act<'p>, NoMemory>
    ensures refines { IfOk result (λ act. (s : Machine) → RefinesAlgorithm s (string_trim units.now) s act) }
    ensures low { IfOk result (λ act. rank_act act ≤ 2) }
{
    let trimmed = without_end(without_front(units.units()));
    Ok(Act::Give(Value::Text(text_of_units(alloc, trimmed)?)))
}

/// What a method does when it has `this` as a string.
fn method_of_string<'p>(
    state: &mut State<'p>,
    method: StringMethod,
    units: Text,
    args: &[Value],
) -> Result<Act<'p>, NoMemory>
    ensures refines { Computes state.old (method_of_string method units args.now) result state.new }
    ensures bounded { RankAtMost state.old 46 result state.new }
{
    let alloc = state.alloc();
    match method {
        StringMethod::CharAt => convert_position(state, UnitForm::Text, units, args),
        StringMethod::CharCodeAt => convert_position(state, UnitForm::Code, units, args),
        StringMethod::Concat => join_all(state, &units, args),
        StringMethod::IndexOf => convert_part(state, Search::First, units, args),
        StringMethod::LastIndexOf => convert_part(state, Search::Last, units, args),
        StringMethod::Slice => convert_start(state, Cut::Slice, units, args),
        StringMethod::Split => split(state, units, args),
        StringMethod::Substring => convert_start(state, Cut::Substring, units, args),
        StringMethod::ToLowerCase => give_in_case(alloc, LetterCase::Lower, &units),
        StringMethod::ToUpperCase => give_in_case(alloc, LetterCase::Upper, &units),
        StringMethod::Trim => give_trimmed(alloc, &units),
    }
}

/// Goes on with `this` as a primitive value.
pub(crate) fn resume_this<'p>(
    state: &mut State<'p>,
    method: StringMethod,
    args: &List<Value>,
    p: &Value,
) -> Result<Act<'p>, NoMemory>
    ensures refines { Computes state.old (string_after (progress.This method args.now) p.now) result state.new }
    ensures bounded { RankAtMost state.old 46 result state.new }
{
    let alloc = state.alloc();
    let units = text_of(alloc, p)?;
    method_of_string(state, method, units, args.items())
}
