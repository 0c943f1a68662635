//! Builtins that wait for a value of another type.
ghost use Rattle.std.specs.Prelude.{◌+◌};
ghost use Rattle.jl_meaning.specs.Conversions.{number_hint, string_hint, to_primitive};
ghost use Rattle.jl_meaning.specs.Parts.{◌>>=◌ as ◌then◌};
ghost use Rattle.jl_progress.specs.Progress.{progress_after, rank_progress};
ghost use Rattle.jl_state.specs.Clauses.{Computes, RankAtMost};

use jl_algorithm::to_primitive;
use jl_progress::Progress;
use jl_state::{Act, Hint, State};
use jl_text::NoMemory;
use jl_value::Value;

/// A value is converted to a primitive one that is to be a number, for which a builtin waits (9.3).
pub fn wait_for_number<'p>(
    state: &mut State<'p>,
    progress: Progress,
    v: Value,
) -> Result<Act<'p>, NoMemory>
    ensures refines { Computes state.old (to_primitive number_hint v then progress_after progress) result state.new }
    ensures bounded { RankAtMost state.old (rank_progress progress + 16) result state.new }
{
    state.push_builtin(progress)?;
    to_primitive(state, v, Hint::Number)
}

/// A value is converted to a primitive one that is to be a string, for which a builtin waits (9.8).
pub fn wait_for_string<'p>(
    state: &mut State<'p>,
    progress: Progress,
    v: Value,
) -> Result<Act<'p>, NoMemory>
    ensures refines { Computes state.old (to_primitive string_hint v then progress_after progress) result state.new }
    ensures bounded { RankAtMost state.old (rank_progress progress + 16) result state.new }
{
    state.push_builtin(progress)?;
    to_primitive(state, v, Hint::Text)
}
