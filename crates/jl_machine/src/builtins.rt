//! Builtins, each in the library of its section (clause 15).
ghost use Rattle.std.specs.Prelude.{◌+◌};
ghost use Rattle.jl_meaning.specs.builtins.Function.{names_of};
ghost use Rattle.jl_meaning.specs.builtins.Table.{builtin_algorithm};
ghost use Rattle.jl_progress.specs.Progress.{progress_after, rank_progress};
ghost use Rattle.jl_state.specs.Clauses.{Computes, RankAtMost};
ghost use Rattle.jl_state.specs.Words.{call_of, table_of};

use jl_builtin::{fill_array, unsupported};
use jl_lib_array as array;
use jl_lib_misc as misc;
use jl_lib_object::{resume_function, resume_object, start_function, start_object};
use jl_lib_text as text;
use jl_progress::Progress;
use jl_state::{Act, Invocation, State};
use jl_text::NoMemory;
use jl_value::{Builtin, Value};

/// A builtin is called.
#[tactic(auto, unfolding(jl_meaning::specs::builtins::Table::builtin_algorithm))]
pub(crate) fn begin_builtin<'p>(
    state: &mut State<'p>,
    builtin: Builtin,
    call: Invocation,
) -> Result<Act<'p>, NoMemory>
    ensures refines { Computes state.old (builtin_algorithm (names_of (table_of state.old.functions)) builtin (call_of
        call)) result state.new }
    ensures bounded { RankAtMost state.old 400 result state.new }
{
    match builtin {
        Builtin::Object(builtin) => start_object(state, builtin, call),
        Builtin::Function(builtin) => start_function(state, builtin, call),
        Builtin::Array(builtin) => array::start(state, builtin, call),
        Builtin::String(builtin) => text::start(state, builtin, call),
        Builtin::StringMethod(method) => text::start_method(state, method, &call),
        Builtin::LeftOutStringMethod(_) => Ok(unsupported(builtin)),
        Builtin::Global(builtin) => misc::start_global(state, builtin, &call),
        Builtin::Number(builtin) => misc::start_number(state, builtin, &call),
        Builtin::Boolean(builtin) => misc::start_boolean(state, builtin, &call),
        Builtin::Error(builtin) => misc::start_error(state, builtin, &call),
        Builtin::Math(builtin) => misc::start_math(state, builtin, &call),
    }
}

/// A builtin goes on with the value that it waited for.
pub(crate) fn step_progress<'p>(
    state: &mut State<'p>,
    progress: Progress,
    v: Value,
) -> Result<Act<'p>, NoMemory>
    ensures refines { Computes state.old (progress_after progress v) result state.new }
    ensures bounded { RankAtMost state.old (rank_progress progress + 2) result state.new }
{
    match progress {
        Progress::Object(progress) => resume_object(state, progress, v),
        Progress::Function(progress) => resume_function(state, progress, v),
        Progress::Array(progress) => array::resume(state, progress, v),
        Progress::ArrayCall(progress) => array::resume_call(state, progress, v),
        Progress::String(progress) => text::resume(state, progress, v),
        Progress::Global(progress) => misc::resume_global(state, progress, v),
        Progress::Number(progress) => misc::resume_number(state, progress, v),
        Progress::Error(progress) => misc::resume_error(state, progress, v),
        Progress::Fill {
            array,
            values,
            from,
        } => fill_array(state, array, values, from),
    }
}
