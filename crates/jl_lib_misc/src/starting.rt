//! Which function begins each builtin of this crate, and how those of numbers go on.
ghost use Rattle.std.specs.Prelude.{◌+◌};
ghost use Rattle.jl_meaning.specs.builtins.Boolean.{boolean_algorithm};
ghost use Rattle.jl_meaning.specs.builtins.Error.{error_algorithm};
ghost use Rattle.jl_meaning.specs.builtins.Global.{global_algorithm};
ghost use Rattle.jl_meaning.specs.builtins.Math.{math_algorithm};
ghost use Rattle.jl_meaning.specs.builtins.Number.{number_algorithm};
ghost use Rattle.jl_progress.specs.Numbers.{number_after, rank_number};
ghost use Rattle.jl_state.specs.Clauses.{Computes, RankAtMost};
ghost use Rattle.jl_state.specs.Words.{call_of};

use crate::booleans::{boolean_constructor, boolean_to_string, boolean_value_of};
use crate::errors::{error_constructor, error_to_string};
use crate::globals::{parse_int, test_argument};
use crate::math::{math_pow, on_argument, resume_argument, resume_base, resume_exponent};
use crate::numbers::{
    number_constructor, number_to_string, number_value_of, resume_given, resume_radix,
};
use crate::printing::print;
use crate::several::{one_of_arguments, resume_extreme};
use jl_builtin::unsupported;
use jl_progress::{Extreme, NumberFunction, NumberProgress, NumberTest};
use jl_state::{Act, Invocation, State};
use jl_text::NoMemory;
use jl_value::{
    BooleanBuiltin, Builtin, ErrorBuiltin, GlobalBuiltin, MathBuiltin, NumberBuiltin, ObjId, Value,
};

/// Begins a function of the global object (15.1.2), or `console.log`.
pub fn start_global<'p>(
    state: &mut State<'p>,
    builtin: GlobalBuiltin,
    call: &Invocation,
) -> Result<Act<'p>, NoMemory>
    ensures refines { Computes state.old (global_algorithm builtin (call_of call.now)) result state.new }
    ensures bounded { RankAtMost state.old 46 result state.new }
{
    match builtin {
        GlobalBuiltin::Print | GlobalBuiltin::ConsoleLog => print(state, call.args.items()),
        GlobalBuiltin::ParseInt => parse_int(state, call),
        GlobalBuiltin::IsNaN => test_argument(state, NumberTest::IsNan, call),
        GlobalBuiltin::IsFinite => test_argument(state, NumberTest::IsFinite, call),
    }
}

/// Begins `Number` or a function of its prototype (15.7).
pub fn start_number<'p>(
    state: &mut State<'p>,
    builtin: NumberBuiltin,
    call: &Invocation,
) -> Result<Act<'p>, NoMemory>
    ensures refines { Computes state.old (number_algorithm builtin (call_of call.now)) result state.new }
    ensures bounded { RankAtMost state.old 22 result state.new }
{
    match builtin {
        NumberBuiltin::Constructor => number_constructor(state, call),
        NumberBuiltin::ToString => number_to_string(state, call),
        NumberBuiltin::ValueOf => number_value_of(state, call),
        NumberBuiltin::ToFixed
        | NumberBuiltin::ToExponential
        | NumberBuiltin::ToPrecision
        | NumberBuiltin::ToLocaleString => Ok(unsupported(Builtin::Number(builtin))),
    }
}

/// Begins `Boolean` or a function of its prototype (15.6).
pub fn start_boolean<'p>(
    state: &mut State<'p>,
    builtin: BooleanBuiltin,
    call: &Invocation,
) -> Result<Act<'p>, NoMemory>
    ensures refines { Computes state.old (boolean_algorithm builtin (call_of call.now)) result state.new }
    ensures bounded { RankAtMost state.old 3 result state.new }
{
    match builtin {
        BooleanBuiltin::Constructor => boolean_constructor(state, call),
        BooleanBuiltin::ToString => boolean_to_string(state, call),
        BooleanBuiltin::ValueOf => boolean_value_of(state, call),
    }
}

/// Begins `Error`, a native error or `Error.prototype.toString` (15.11).
pub fn start_error<'p>(
    state: &mut State<'p>,
    builtin: ErrorBuiltin,
    call: &Invocation,
) -> Result<Act<'p>, NoMemory>
    ensures refines { Computes state.old (error_algorithm builtin (call_of call.now)) result state.new }
    ensures bounded { RankAtMost state.old 84 result state.new }
{
    match builtin {
        ErrorBuiltin::Error => error_constructor(state, ObjId::ERROR_PROTOTYPE, call),
        ErrorBuiltin::EvalError => error_constructor(state, ObjId::EVAL_ERROR_PROTOTYPE, call),
        ErrorBuiltin::RangeError => error_constructor(state, ObjId::RANGE_ERROR_PROTOTYPE, call),
        ErrorBuiltin::ReferenceError => {
            error_constructor(state, ObjId::REFERENCE_ERROR_PROTOTYPE, call)
        }
        ErrorBuiltin::SyntaxError => error_constructor(state, ObjId::SYNTAX_ERROR_PROTOTYPE, call),
        ErrorBuiltin::TypeError => error_constructor(state, ObjId::TYPE_ERROR_PROTOTYPE, call),
        ErrorBuiltin::UriError => error_constructor(state, ObjId::URI_ERROR_PROTOTYPE, call),
        ErrorBuiltin::ToString => error_to_string(state, call),
    }
}

/// Begins a function of Math (15.8.2).
pub fn start_math<'p>(
    state: &mut State<'p>,
    builtin: MathBuiltin,
    call: &Invocation,
) -> Result<Act<'p>, NoMemory>
    ensures refines { Computes state.old (math_algorithm builtin (call_of call.now)) result state.new }
    ensures bounded { RankAtMost state.old 46 result state.new }
{
    match builtin {
        MathBuiltin::Abs => on_argument(state, NumberFunction::Absolute, call),
        MathBuiltin::Ceil | MathBuiltin::Floor | MathBuiltin::Round => {
            on_argument(state, NumberFunction::Whole, call)
        }
        MathBuiltin::Max => one_of_arguments(state, Extreme::Greatest, call.args.items()),
        MathBuiltin::Min => one_of_arguments(state, Extreme::Least, call.args.items()),
        MathBuiltin::Pow => math_pow(state, call),
    }
}

/// Goes on with the value that a builtin of numbers or of Math waited for.
pub fn resume_number<'p>(
    state: &mut State<'p>,
    progress: NumberProgress,
    v: Value,
) -> Result<Act<'p>, NoMemory>
    ensures refines { Computes state.old (number_after progress v) result state.new }
    ensures bounded { RankAtMost state.old (rank_number progress + 2) result state.new }
{
    match progress {
        NumberProgress::Given { by_new } => resume_given(state, by_new, &v),
        NumberProgress::Radix { number } => resume_radix(state, number, &v),
        NumberProgress::Argument { function } => resume_argument(state, function, &v),
        NumberProgress::Extreme {
            extreme,
            so_far,
            args,
            from,
        } => resume_extreme(state, extreme, so_far, args, from, &v),
        NumberProgress::Base { exponent } => resume_base(state, exponent, &v),
        NumberProgress::Exponent { base } => resume_exponent(state, base, &v),
    }
}
