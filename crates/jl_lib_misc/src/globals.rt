//! `parseInt`, `isNaN` and `isFinite` (15.1.2.2, 15.1.2.4, 15.1.2.5).
ghost use Rattle.std.specs.Prelude.{◌≡◌, ◌+◌, ◌≤◌};
ghost use Rattle.jl_meaning.specs.Conversions.{to_number};
ghost use Rattle.jl_meaning.specs.Parts.{◌>>=◌ as ◌then◌};
ghost use Rattle.jl_meaning.specs.Relations.{give_truth};
ghost use Rattle.jl_meaning.specs.builtins.Arguments.{argument};
ghost use Rattle.jl_meaning.specs.builtins.Global.{parse_int};
ghost use Rattle.jl_progress.specs.Globals.{global_after, parse_in, passes, rank_global};
ghost use Rattle.jl_progress.specs.declared.global.GlobalProgress.TheVariants as progress;
ghost use Rattle.jl_state.specs.Clauses.{Computes, RankAtMost};
ghost use Rattle.jl_state.specs.Rank.{rank_act};
ghost use Rattle.jl_state.specs.Rest.{RefinesAlgorithm};
ghost use Rattle.jl_state.specs.Words.{call_of};
ghost use Rattle.jl_state.specs.declared.state.State.{State as Machine};

use crate::parsing::parse_signed;
use crate::printing::resume_print;
use jl_builtin::{argument, wait_for_number, wait_for_string};
use jl_num::{Num, NumberOutside, to_int32};
use jl_operator::{number_of, text_of};
use jl_progress::{GlobalProgress, NumberTest, Progress};
use jl_state::{Act, Invocation, State};
use jl_text::{NoMemory, Text};
use jl_value::{Fault, Value};
use std::alloc::Global;

/// `parseInt(string, radix)` (15.1.2.2).
pub(crate) fn parse_int<'p>(state: &mut State<'p>, call: &Invocation) -> Result<Act<'p>, NoMemory>
    ensures refines { Computes state.old (parse_int (call_of call.now)) result state.new }
    ensures bounded { RankAtMost state.old 46 result state.new }
{
    let alloc = state.alloc();
    let args = call.args.items();
    let numeral = argument(alloc, args, 0)?;
    let radix = argument(alloc, args, 1)?;
    let progress = Progress::Global(GlobalProgress::Numeral { radix });
    wait_for_string(state, progress, numeral)
}

/// The radix of `parseInt` is converted.
fn convert_radix<'p>(state: &mut State<'p>, units: Text, radix: Value) -> Result<Act<'p>, NoMemory>
    ensures refines { Computes state.old (to_number radix then λ n. parse_in n units) result state.new }
    ensures bounded { RankAtMost state.old 22 result state.new }
{
    let progress = Progress::Global(GlobalProgress::Radix { units });
    wait_for_number(state, progress, radix)
}

/// The number that a string writes in front is given.
fn give_parsed<'p>(radix: Num, units: &[u16]) -> Act<'p>
    ensures refines { (s : Machine) → RefinesAlgorithm s (parse_in radix units.now) s result }
    ensures low { rank_act result ≤ 2 }
{
    match parse_signed(to_int32(radix), units) {
        Ok(n) => Act::Give(Value::Num(n)),
        Err(NumberOutside) => Act::Fault(Fault::NumberOutside),
    }
}

/// `isNaN(number)` and `isFinite(number)` (15.1.2.4, 15.1.2.5).
pub(crate) fn test_argument<'p>(
    state: &mut State<'p>,
    test: NumberTest,
    call: &Invocation,
) -> Result<Act<'p>, NoMemory>
    ensures refines { Computes state.old (to_number (argument (call_of call.now) 0) then λ n. give_truth (passes test
        n)) result state.new }
    ensures bounded { RankAtMost state.old 22 result state.new }
{
    let alloc = state.alloc();
    let first = argument(alloc, call.args.items(), 0)?;
    let progress = Progress::Global(GlobalProgress::Test { test });
    wait_for_number(state, progress, first)
}

/// What is asked of a number; none is an infinity.
fn passes(test: NumberTest, n: Num) -> bool
    ensures { result ≡ passes test n }
{
    match test {
        NumberTest::IsNan => n.value().is_none(),
        NumberTest::IsFinite => n.value().is_some(),
    }
}

/// Goes on with the string of `parseInt`.
fn resume_numeral<'p>(state: &mut State<'p>, radix: Value, p: &Value) -> Result<Act<'p>, NoMemory>
    ensures refines { Computes state.old (global_after (progress.Numeral radix) p.now) result state.new }
    ensures bounded { RankAtMost state.old 22 result state.new }
{
    let alloc = state.alloc();
    let units = text_of(alloc, p)?;
    convert_radix(state, units, radix)
}

/// Goes on with the radix of `parseInt`.
fn resume_radix<'p>(state: &mut State<'p>, units: &Text, p: &Value) -> Result<Act<'p>, NoMemory>
    ensures refines { Computes state.old (global_after (progress.Radix units.now) p.now) result state.new }
    ensures bounded { RankAtMost state.old 3 result state.new }
{
    match number_of(p) {
        Ok(radix) => Ok(give_parsed(radix, units.units())),
        Err(NumberOutside) => Ok(Act::Fault(Fault::NumberOutside)),
    }
}

/// Goes on with a number of which something is asked.
fn resume_test<'p>(state: &mut State<'p>, test: NumberTest, p: &Value) -> Result<Act<'p>, NoMemory>
    ensures refines { Computes state.old (global_after (progress.Test test) p.now) result state.new }
    ensures bounded { RankAtMost state.old 3 result state.new }
{
    match number_of(p) {
        Ok(n) => Ok(Act::Give(Value::Bool(passes(test, n)))),
        Err(NumberOutside) => Ok(Act::Fault(Fault::NumberOutside)),
    }
}

/// Goes on with the value that a function of the global object waited for.
pub fn resume_global<'p>(
    state: &mut State<'p>,
    progress: GlobalProgress,
    v: Value,
) -> Result<Act<'p>, NoMemory>
    ensures refines { Computes state.old (global_after progress v) result state.new }
    ensures bounded { RankAtMost state.old (rank_global progress + 2) result state.new }
{
    match progress {
        GlobalProgress::Print {
            line,
            is_first,
            args,
            from,
        } => resume_print(state, line, is_first, args, from, &v),
        GlobalProgress::Numeral { radix } => resume_numeral(state, radix, &v),
        GlobalProgress::Radix { units } => resume_radix(state, &units, &v),
        GlobalProgress::Test { test } => resume_test(state, test, &v),
    }
}
