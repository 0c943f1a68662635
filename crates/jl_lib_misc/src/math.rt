//! Functions of one number or two (15.8.2).
ghost use Rattle.std.specs.Prelude.{◌≡◌, ◌≤◌};
ghost use Rattle.jl_meaning.specs.Conversions.{to_number};
ghost use Rattle.jl_meaning.specs.Operators.{give_number};
ghost use Rattle.jl_meaning.specs.Parts.{◌>>=◌ as ◌then◌};
ghost use Rattle.jl_meaning.specs.builtins.Math.{math_pow, on_argument};
ghost use Rattle.jl_num.specs.Power.{power_of};
ghost use Rattle.jl_progress.specs.Numbers.{number_after, of_number};
ghost use Rattle.jl_progress.specs.declared.number.NumberProgress.TheVariants as progress;
ghost use Rattle.jl_state.specs.Clauses.{Computes, RankAtMost};
ghost use Rattle.jl_state.specs.Rank.{rank_act};
ghost use Rattle.jl_state.specs.Rest.{RefinesAlgorithm};
ghost use Rattle.jl_state.specs.Words.{call_of};
ghost use Rattle.jl_state.specs.declared.state.State.{State as Machine};

use jl_builtin::{argument, wait_for_number};
use jl_num::{Num, NumberOutside, neg, pow};
use jl_operator::number_of;
use jl_progress::{NumberFunction, NumberProgress, Progress};
use jl_state::{Act, Invocation, State};
use jl_text::NoMemory;
use jl_value::{Fault, Value};

/// A function of one number.
pub(crate) fn on_argument<'p>(
    state: &mut State<'p>,
    function: NumberFunction,
    call: &Invocation,
) -> Result<Act<'p>, NoMemory>
    ensures refines { Computes state.old (on_argument (of_number function) (call_of call.now)) result state.new }
    ensures bounded { RankAtMost state.old 22 result state.new }
{
    let alloc = state.alloc();
    let first = argument(alloc, call.args.items(), 0)?;
    let progress = Progress::Number(NumberProgress::Argument { function });
    wait_for_number(state, progress, first)
}

/// What a function gives for a number.
fn of_number(function: NumberFunction, n: Num) -> Num
    ensures { result ≡ of_number function n }
{
    match (function, n.value()) {
        (NumberFunction::Absolute, Some(whole)) if whole < 0 => neg(n),
        _ => n,
    }
}

/// Goes on with the argument of a function of one number.
pub(crate) fn resume_argument<'p>(
    state: &mut State<'p>,
    function: NumberFunction,
    p: &Value,
) -> Result<Act<'p>, NoMemory>
    ensures refines { Computes state.old (number_after (progress.Argument function) p.now) result state.new }
    ensures bounded { RankAtMost state.old 3 result state.new }
{
    match number_of(p) {
        Ok(n) => Ok(Act::Give(Value::Num(of_number(function, n)))),
        Err(NumberOutside) => Ok(Act::Fault(Fault::NumberOutside)),
    }
}

/// `Math.pow(x, y)` (15.8.2.13).
pub(crate) fn math_pow<'p>(state: &mut State<'p>, call: &Invocation) -> Result<Act<'p>, NoMemory>
    ensures refines { Computes state.old (math_pow (call_of call.now)) result state.new }
    ensures bounded { RankAtMost state.old 46 result state.new }
{
    let alloc = state.alloc();
    let args = call.args.items();
    let base = argument(alloc, args, 0)?;
    let exponent = argument(alloc, args, 1)?;
    let progress = Progress::Number(NumberProgress::Base { exponent });
    wait_for_number(state, progress, base)
}

/// The exponent of a power is converted.
fn convert_exponent<'p>(
    state: &mut State<'p>,
    base: Num,
    exponent: Value,
) -> Result<Act<'p>, NoMemory>
    ensures refines { Computes state.old (to_number exponent then λ y. give_number (power_of base y)) result state.new }
    ensures bounded { RankAtMost state.old 22 result state.new }
{
    let progress = Progress::Number(NumberProgress::Exponent { base });
    wait_for_number(state, progress, exponent)
}

/// Goes on with the base of a power.
pub(crate) fn resume_base<'p>(
    state: &mut State<'p>,
    exponent: Value,
    p: &Value,
) -> Result<Act<'p>, NoMemory>
    ensures refines { Computes state.old (number_after (progress.Base exponent) p.now) result state.new }
    ensures bounded { RankAtMost state.old 22 result state.new }
{
    match number_of(p) {
        Ok(base) => convert_exponent(state, base, exponent),
        Err(NumberOutside) => Ok(Act::Fault(Fault::NumberOutside)),
    }
}

/// A power is given.
fn give_power<'p>(base: Num, exponent: Num) -> Act<'p>
    ensures refines { (s : Machine) → RefinesAlgorithm s (give_number (power_of base exponent)) s result }
    ensures low { rank_act result ≤ 2 }
{
    match pow(base, exponent) {
        Ok(n) => Act::Give(Value::Num(n)),
        Err(NumberOutside) => Act::Fault(Fault::NumberOutside),
    }
}

/// Goes on with the exponent of a power.
pub(crate) fn resume_exponent<'p>(
    state: &mut State<'p>,
    base: Num,
    p: &Value,
) -> Result<Act<'p>, NoMemory>
    ensures refines { Computes state.old (number_after (progress.Exponent base) p.now) result state.new }
    ensures bounded { RankAtMost state.old 3 result state.new }
{
    match number_of(p) {
        Ok(exponent) => Ok(give_power(base, exponent)),
        Err(NumberOutside) => Ok(Act::Fault(Fault::NumberOutside)),
    }
}
