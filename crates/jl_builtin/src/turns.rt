//! What a turn of a builtin ends with.
ghost use Rattle.std.specs.Prelude.{◌+◌, ◌≤◌, IfOk};
ghost use Rattle.jl_effects.specs.Effects.{Fail};
ghost use Rattle.jl_meaning.specs.Errors.{string_within};
ghost use Rattle.jl_meaning.specs.Parts.{◌>>=◌ as ◌then◌, Unsupported};
ghost use Rattle.jl_meaning.specs.builtins.Arguments.{give_string};
ghost use Rattle.jl_progress.specs.Progress.{progress_after, rank_progress};
ghost use Rattle.jl_state.specs.Clauses.{Computes, RankAtMost};
ghost use Rattle.jl_state.specs.Rank.{rank_act};
ghost use Rattle.jl_state.specs.Rest.{RefinesAlgorithm};
ghost use Rattle.jl_state.specs.declared.state.State.{State as Machine};
ghost use Rattle.jl_value.specs.declared.value.Value.TheVariants as value;

use jl_progress::Progress;
use jl_state::{Act, State};
use jl_text::{NoMemory, Text, TextFault};
use jl_value::{Builtin, Fault, Value};
use std::alloc::Global;

/// A builtin goes on without a value, in the next act of the machine.
pub fn go_on<'p>(state: &mut State<'p>, progress: Progress) -> Result<Act<'p>, NoMemory>
    ensures refines { Computes state.old (progress_after progress value.Undefined) result state.new }
    ensures bounded { RankAtMost state.old (rank_progress progress + 3) result state.new }
{
    state.push_builtin(progress)?;
    Ok(Act::Give(Value::Undefined))
}

/// A string of these units is given. Where they are too many the run ends.
pub fn give_text<'p>(alloc: Global, units: &[u16]) -> Result<Act<'p>, NoMemory>
    ensures refines { IfOk result (λ act. (s : Machine) → RefinesAlgorithm s (string_within units.now then give_string) s act) }
    ensures low { IfOk result (λ act. rank_act act ≤ 2) }
{
    match Text::from_units(alloc, units) {
        Ok(text) => Ok(Act::Give(Value::Text(text))),
        Err(TextFault::TooLong) => Ok(Act::Fault(Fault::StringTooLong)),
        Err(TextFault::NoMemory) => Err(NoMemory),
    }
}

/// The fault of a builtin that is there, and is left out; it ends the run.
pub fn unsupported<'p>(builtin: Builtin) -> Act<'p>
    ensures refines { (s : Machine) → RefinesAlgorithm s (Fail (Unsupported builtin)) s result }
    ensures low { rank_act result ≤ 2 }
{
    Act::Fault(Fault::Unsupported(builtin))
}
