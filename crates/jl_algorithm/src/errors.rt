//! Errors that the language throws by itself (15.11).
ghost use Rattle.std.specs.Prelude.{◌≡◌};
ghost use Rattle.jl_meaning.specs.Errors.{throw_error, throw_not_defined};
ghost use Rattle.jl_state.specs.Clauses.{Computes, RankAtMost};

use jl_state::{Act, State};
use jl_text::{NoMemory, Text, TextFault, word};
use jl_value::{Completion, ErrorKind, Fault};

/// Throws a new error of this kind, with a message of ASCII characters (15.11.1.1, 15.11.7.4).
pub fn throw_native<'p>(
    state: &mut State<'p>,
    kind: ErrorKind,
    message: &str,
) -> Result<Act<'p>, NoMemory>
    ensures refines { Computes state.old (throw_error kind message.now) result state.new }
    ensures bounded { RankAtMost state.old 3 result state.new }
{
    let alloc = state.alloc();
    let message = word(alloc, message)?;
    throw_error(state, kind, message)
}

/// Throws a new error of this kind with a message (15.11.1.1, 15.11.7.4).
#[tactic(auto, using(crate::proofs::Throwing::works_made))]
fn throw_error<'p>(
    state: &mut State<'p>,
    kind: ErrorKind,
    message: Text,
) -> Result<Act<'p>, NoMemory>
    ensures refines { Computes state.old (throw_error kind message) result state.new }
    ensures bounded { RankAtMost state.old 3 result state.new }
{
    let thrown = state.store.throw_error(kind, message)?;
    Ok(Act::Complete(Completion::Throw(thrown)))
}

/// Throws that nothing binds a name (8.7.1, 8.7.2). Where the message would be too long for a text, the run ends.
#[tactic(auto, using(crate::proofs::Throwing::throws_message, crate::proofs::Throwing::message_too_long))]
pub(crate) fn throw_not_defined<'p>(state: &mut State<'p>, name: &Text) -> Result<Act<'p>, NoMemory>
    ensures refines { Computes state.old (throw_not_defined name.now) result state.new }
    ensures bounded { RankAtMost state.old 3 result state.new }
{
    let alloc = state.alloc();
    let ending = word(alloc, " is not defined")?;
    match Text::concat(alloc, name, &ending) {
        Ok(message) => throw_error(state, ErrorKind::ReferenceError, message),
        Err(TextFault::TooLong) => Ok(Act::Fault(Fault::StringTooLong)),
        Err(TextFault::NoMemory) => Err(NoMemory),
    }
}
