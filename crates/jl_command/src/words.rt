//! What the words of the command line ask for.
ghost use Rattle.std.specs.Prelude.{◌≡◌, None, Some, IfOk, IsErrOf};
ghost use Rattle.clap.specs.Words.{app_of, first_value, found_of};
ghost use Rattle.jl_command.specs.Asked.{Asked, request, asked_with, texts};
ghost use Rattle.jl_command.specs.CommandLine.{command_line};
ghost use Rattle.jl_command.specs.Meant.{Means};
ghost use Rattle.jl_command.specs.inner.Optional.{BothOrNeither};
ghost use Rattle.jl_command.specs.declared.words.WordsRefusal.TheVariants.{BadWords, NoMemory};

use crate::command::Command;
use crate::command_names::command_named;
use clap::error::ErrorKind;
use clap::{Arg, ArgMatches};
use std::alloc::{AllocError, Global};

/// Why words name no command.
#[derive(Drop)]
pub enum WordsRefusal {
    /// They are no words of the command line.
    BadWords,
    NoMemory,
}

impl From<AllocError> for WordsRefusal {
    ghost from_gives = { λ _ e. e ≡ NoMemory };

    fn from(_error: AllocError) -> WordsRefusal {
        WordsRefusal::NoMemory
    }
}

/// The command that these words ask for, which are those after the program's name: its name, and its options. Where no
/// budget is given it is 1,000,000, and where no rules are given they are all.
///
/// It gives `BadWords` where clap refuses the words, where there is no such command, where it does not have an option
/// that is given, where a number is not one to ten decimal digits, or is greater than 1,000,000,000 for a budget and
/// than 8,000 for `soak`, where `soak` is given no number, and where what is given for rules is not names of rules with
/// commas between them, each once; and `NoMemory` where no memory is left.
pub fn parse_words<'a>(alloc: Global, words: &'a [&'a str]) -> Result<Command, WordsRefusal>
    ensures asked { IfOk result (λ c. (a : Asked) × (request (texts words.now) ≡ Some a) × Means c a) }
    ensures bad { IsErrOf result BadWords → request (texts words.now) ≡ None }
{
    let matches = match command_line(alloc)?.try_get_matches_from(words) {
        Ok(matches) => matches,
        Err(error) => return Err(refusal(error.kind())),
    };
    match command_in(&matches) {
        Some(command) => Ok(command),
        None => Err(WordsRefusal::BadWords),
    }
}

/// Why words are refused that clap refuses for this cause.
fn refusal(kind: ErrorKind) -> WordsRefusal
    ensures { result ≡ BadWords → (kind ≡ ErrorKind.OutOfMemory → ⊥) }
{
    match kind {
        ErrorKind::OutOfMemory => WordsRefusal::NoMemory,
        _ => WordsRefusal::BadWords,
    }
}

/// What clap reads: a command and its options, without flags for help and version.
fn command_line<'a>(alloc: Global) -> Result<clap::Command<'a>, AllocError>
    ensures { IfOk result (λ line. app_of line ≡ command_line) }
{
    let command = Arg::new(alloc, "command").required(true);
    let budget = Arg::new(alloc, "budget").long("budget");
    let rules = Arg::new(alloc, "rules").long("rules");
    let number = Arg::new(alloc, "number").long("number");
    clap::Command::new(alloc, "jlint")
        .no_binary_name(true)
        .disable_help_flag(true)
        .disable_version_flag(true)
        .arg(command)?
        .arg(budget)?
        .arg(rules)?
        .arg(number)
}

/// The command that was matched.
fn command_in(matches: &ArgMatches<'_>) -> Option<Command>
    ensures { BothOrNeither Means result (asked_with (first_value (found_of matches.now))) }
{
    let name = matches.get_str("command")?;
    command_named(
        name,
        matches.get_str("budget"),
        matches.get_str("rules"),
        matches.get_str("number"),
    )
}
