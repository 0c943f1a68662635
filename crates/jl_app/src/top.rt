ghost use Rattle.std.specs.Prelude.{◌≡◌, ◌≤◌, [], ℕ, List, Some, codes, length, IfOk, IfSome, IsErrOf};
ghost use Rattle.jl_analysis.specs.Rules.{all_rules};
ghost use Rattle.jl_ast.specs.Tree.{Program as Tree};
ghost use Rattle.jl_command.specs.Asked.{Asked, request, instrument, lint, texts};
ghost use Rattle.jl_command.specs.Meant.{IsChoice, Means};
ghost use Rattle.jl_port.specs.Count.{HasRisen};
ghost use Rattle.jl_soak.specs.Script.{script_of};
ghost use Rattle.jl_text.specs.declared.span.Span.{Span};
ghost use Rattle.jl_app.specs.Accepting.{IsAccepted};
ghost use Rattle.jl_app.specs.Answers.{IsAnswered, IsDue, IsDueTo};
ghost use Rattle.jl_app.specs.Due.{Due, IsGiven, refused_only};
ghost use Rattle.jl_app.specs.Endings.{HasAnswered};
ghost use Rattle.jl_app.specs.Forms.{ReadsSource, most_read, most_read_for};
ghost use Rattle.jl_app.specs.Headline.{Concludes};
ghost use Rattle.jl_app.specs.Misuse.{RunsWithoutMisuse};
ghost use Rattle.jl_app.specs.Scripts.{IsReporting, Reports};
ghost use Rattle.jl_app.specs.StandsAlone.{StandsAlone};
ghost use Rattle.jl_app.specs.inner.Said.{IsAnswerOf};
ghost use Rattle.jl_app.specs.declared.top.Unanswered.TheVariants.{NoMemory};

use crate::answer::{Answer, line_only, refusal_answer, respond};
use crate::form::most_read_by;
use crate::laws::{
    accepted_scripts_run_without_misuse, never_both, one_reading, scripts_are_woven_well,
    text_stands_alone,
};
use crate::refusal::Refusal;
use crate::replay::replay;
use crate::status::Status;
use crate::unmap::unmap;
use jl_analysis::laws::needed_is_enough;
use jl_analysis::{Crowd, Findings, RuleSet};
use jl_command::{Command, WordsRefusal, parse_words};
use jl_op::Observer;
use jl_operation_rows::laws::operations_have_rows;
use jl_port::{ReadRefusal, Shelf, Sink, Source, read_all, write_all};
use jl_soak::script_from;
use std::alloc::{AllocError, Global};
use std::hash::RandomState;

/// The most bytes that the command of these words reads from the source: 1,048,576 of a script, 67,108,928 of a woven
/// text, 67,108,864 of a source map, and 268,435,456 of a stored run. `soak` reads none, and neither do bad words.
pub fn most_read(alloc: Global, words: &[&str]) -> Result<Option<usize>, AllocError>
    ensures { IfOk result (λ most. most ≡ most_read_for (texts words.now)) }
{
    match parse_words(alloc, words) {
        Ok(command) => Ok(most_read_by(command)),
        Err(WordsRefusal::BadWords) => Ok(None),
        Err(WordsRefusal::NoMemory) => Err(AllocError),
    }
}

/// The answer to more bytes than a command reads.
pub fn too_long(alloc: Global) -> Result<Answer, AllocError>
    ensures { IfOk result (λ given. IsAnswerOf given (refused_only (codes "TooLong"))) }
{
    refusal_answer(alloc, &Refusal::TooLong)
}

/// What `lint` answers to the script that is made of this many functions.
fn lint_made<H: Shelf>(
    alloc: Global,
    keys: RandomState,
    number: u32,
    budget: u64,
    rules: RuleSet,
    shelf: &mut H,
    crowd: &mut Crowd,
) -> Result<Answer, AllocError>
    requires few { number ≤ 8000 }
    requires budget { budget ≤ 1000000000 }
    requires choice { (chosen : List ℕ) × IsChoice rules chosen }
    requires rules { ⟦<Crowd as Findings>⟧.rules crowd.old ≡ all_rules }
    requires fresh { ⟦<Crowd as Observer>⟧.stands_for crowd.old [] }
    ensures due { (chosen : List ℕ) → IsChoice rules chosen → IfOk result (λ given. (due : Due)
        × IsAnswered (lint budget chosen) (script_of number) (record {
          handed = H.handed shelf.new;
          lent = H.lent shelf.new;
          same = shelf.new ≡ shelf.old;
        }) due
        × IsGiven (record {
          same = crowd.new ≡ crowd.old;
          told = λ told. ⟦<Crowd as Observer>⟧.stands_for crowd.new told;
        }) given due) }
    ensures same_rules { ⟦<Crowd as Findings>⟧.rules crowd.new ≡ ⟦<Crowd as Findings>⟧.rules crowd.old }
{
    let script = script_from(alloc, number)?;
    let command = Command::Lint { budget, rules };
    respond(alloc, keys, command, &script, shelf, crowd)
}

/// What a command answers, where the source holds these bytes, which are no more than it reads.
fn respond_within<H: Shelf>(
    alloc: Global,
    keys: RandomState,
    command: Command,
    bytes: &[u8],
    shelf: &mut H,
    crowd: &mut Crowd,
) -> Result<Answer, AllocError>
    requires meant { (a : Asked) × Means command a }
    requires small { (a : Asked) → Means command a → IfSome (most_read a) (λ most. length bytes.now ≤ most) }
    requires rules { ⟦<Crowd as Findings>⟧.rules crowd.old ≡ all_rules }
    requires fresh { ⟦<Crowd as Observer>⟧.stands_for crowd.old [] }
    ensures due { (a : Asked) → Means command a → IfOk result (λ given. (due : Due)
        × IsDueTo a bytes.now (record {
          handed = H.handed shelf.new;
          lent = H.lent shelf.new;
          same = shelf.new ≡ shelf.old;
        }) due
        × IsGiven (record {
          same = crowd.new ≡ crowd.old;
          told = λ told. ⟦<Crowd as Observer>⟧.stands_for crowd.new told;
        }) given due) }
    ensures shelf { (a : Asked) → Means command a → ((budget : ℕ) (chosen : List ℕ) → Reports a budget chosen → ⊥)
        → shelf.new ≡ shelf.old }
    ensures crowd { (a : Asked) → Means command a → (IsReporting a → ⊥) → crowd.new ≡ crowd.old }
    ensures same_rules { ⟦<Crowd as Findings>⟧.rules crowd.new ≡ ⟦<Crowd as Findings>⟧.rules crowd.old }
{
    match command {
        Command::Soak {
            number,
            budget,
            rules,
        } => lint_made(alloc, keys, number, budget, rules, shelf, crowd),
        Command::Unmap => unmap(alloc, bytes),
        Command::Replay { rules } => replay(alloc, bytes, rules, crowd),
        _ => respond(alloc, keys, command, bytes, shelf, crowd),
    }
}

/// The same, where they may be more than this, which is as many as it reads.
fn respond_up_to<H: Shelf>(
    alloc: Global,
    keys: RandomState,
    command: Command,
    most: usize,
    bytes: &[u8],
    shelf: &mut H,
    crowd: &mut Crowd,
) -> Result<Answer, AllocError>
    requires meant { (a : Asked) × Means command a }
    requires most { (a : Asked) → Means command a → most_read a ≡ Some most }
    requires rules { ⟦<Crowd as Findings>⟧.rules crowd.old ≡ all_rules }
    requires fresh { ⟦<Crowd as Observer>⟧.stands_for crowd.old [] }
    ensures due { (a : Asked) → Means command a → IfOk result (λ given. (due : Due)
        × IsDueTo a bytes.now (record {
          handed = H.handed shelf.new;
          lent = H.lent shelf.new;
          same = shelf.new ≡ shelf.old;
        }) due
        × IsGiven (record {
          same = crowd.new ≡ crowd.old;
          told = λ told. ⟦<Crowd as Observer>⟧.stands_for crowd.new told;
        }) given due) }
    ensures shelf { (a : Asked) → Means command a → ((budget : ℕ) (chosen : List ℕ) → Reports a budget chosen → ⊥)
        → shelf.new ≡ shelf.old }
    ensures crowd { (a : Asked) → Means command a → (IsReporting a → ⊥) → crowd.new ≡ crowd.old }
    ensures same_rules { ⟦<Crowd as Findings>⟧.rules crowd.new ≡ ⟦<Crowd as Findings>⟧.rules crowd.old }
{
    if most < bytes.len() {
        return too_long(alloc);
    }
    respond_within(alloc, keys, command, bytes, shelf, crowd)
}

/// What a command answers, where the source holds these bytes.
pub(crate) fn respond_to<H: Shelf>(
    alloc: Global,
    keys: RandomState,
    command: Command,
    bytes: &[u8],
    shelf: &mut H,
    crowd: &mut Crowd,
) -> Result<Answer, AllocError>
    requires meant { (a : Asked) × Means command a }
    requires rules { ⟦<Crowd as Findings>⟧.rules crowd.old ≡ all_rules }
    requires fresh { ⟦<Crowd as Observer>⟧.stands_for crowd.old [] }
    ensures due { (a : Asked) → Means command a → IfOk result (λ given. (due : Due)
        × IsDueTo a bytes.now (record {
          handed = H.handed shelf.new;
          lent = H.lent shelf.new;
          same = shelf.new ≡ shelf.old;
        }) due
        × IsGiven (record {
          same = crowd.new ≡ crowd.old;
          told = λ told. ⟦<Crowd as Observer>⟧.stands_for crowd.new told;
        }) given due) }
    ensures shelf { (a : Asked) → Means command a → ((budget : ℕ) (chosen : List ℕ) → Reports a budget chosen → ⊥)
        → shelf.new ≡ shelf.old }
    ensures crowd { (a : Asked) → Means command a → (IsReporting a → ⊥) → crowd.new ≡ crowd.old }
    ensures same_rules { ⟦<Crowd as Findings>⟧.rules crowd.new ≡ ⟦<Crowd as Findings>⟧.rules crowd.old }
{
    match most_read_by(command) {
        Some(most) => respond_up_to(alloc, keys, command, most, bytes, shelf, crowd),
        None => respond_within(alloc, keys, command, bytes, shelf, crowd),
    }
}

/// What is due to these words, where the source holds these bytes.
fn due<H: Shelf>(
    alloc: Global,
    keys: RandomState,
    words: &[&str],
    bytes: &[u8],
    shelf: &mut H,
    crowd: &mut Crowd,
) -> Result<Answer, AllocError>
    requires rules { ⟦<Crowd as Findings>⟧.rules crowd.old ≡ all_rules }
    requires fresh { ⟦<Crowd as Observer>⟧.stands_for crowd.old [] }
    ensures due { IfOk result (λ given. (due : Due)
        × IsDue (texts words.now) bytes.now (record {
          handed = H.handed shelf.new;
          lent = H.lent shelf.new;
          same = shelf.new ≡ shelf.old;
        }) due
        × IsGiven (record {
          same = crowd.new ≡ crowd.old;
          told = λ told. ⟦<Crowd as Observer>⟧.stands_for crowd.new told;
        }) given due) }
    ensures shelf { ((a : Asked) (budget : ℕ) (chosen : List ℕ) → request (texts words.now) ≡ Some a
        → Reports a budget chosen → ⊥) → shelf.new ≡ shelf.old }
    ensures crowd { ((a : Asked) → request (texts words.now) ≡ Some a → IsReporting a → ⊥) → crowd.new ≡ crowd.old }
    ensures same_rules { ⟦<Crowd as Findings>⟧.rules crowd.new ≡ ⟦<Crowd as Findings>⟧.rules crowd.old }
{
    match parse_words(alloc, words) {
        Ok(command) => respond_to(alloc, keys, command, bytes, shelf, crowd),
        Err(WordsRefusal::BadWords) => line_only(alloc, Status::BadWords, "bad words"),
        Err(WordsRefusal::NoMemory) => Err(AllocError),
    }
}

/// The answer to these words, where the source holds these bytes: its status, and the bytes that are to be written.
///
/// `soak` and words that are no command don't look at the bytes. Of more bytes than the command reads (`most_read`) the
/// first that are more will do: the answer is then `too_long`.
pub fn answer_to<H: Shelf>(
    alloc: Global,
    keys: RandomState,
    words: &[&str],
    bytes: &[u8],
    shelf: &mut H,
    crowd: &mut Crowd,
) -> Result<Answer, AllocError>
    requires rules { ⟦<Crowd as Findings>⟧.rules crowd.old ≡ all_rules }
    requires fresh { ⟦<Crowd as Observer>⟧.stands_for crowd.old [] }
    ensures due { IfOk result (λ given. (due : Due)
        × IsDue (texts words.now) bytes.now (record {
          handed = H.handed shelf.new;
          lent = H.lent shelf.new;
          same = shelf.new ≡ shelf.old;
        }) due
        × IsGiven (record {
          same = crowd.new ≡ crowd.old;
          told = λ told. ⟦<Crowd as Observer>⟧.stands_for crowd.new told;
        }) given due) }
    // What the answer says of an accepted script's own run, as where it was written.
    ensures concludes { IfOk result (λ given. HasAnswered given.status × Concludes (record {
      words = texts words.now;
      held = bytes.now;
      read_faults = (0, 0);
      written = (Some [], Some given.bytes.items);
      write_faults = (0, 0);
      shelf = record {
        handed = H.handed shelf.new;
        lent = H.lent shelf.new;
        same = shelf.new ≡ shelf.old;
      };
      crowd = record {
        same = crowd.new ≡ crowd.old;
        told = λ told. ⟦<Crowd as Observer>⟧.stands_for crowd.new told;
      };
    }) given.status) }
    ensures shelf { ((a : Asked) (budget : ℕ) (chosen : List ℕ) → request (texts words.now) ≡ Some a
        → Reports a budget chosen → ⊥) → shelf.new ≡ shelf.old }
    ensures crowd { ((a : Asked) → request (texts words.now) ≡ Some a → IsReporting a → ⊥) → crowd.new ≡ crowd.old }
    ensures same_rules { ⟦<Crowd as Findings>⟧.rules crowd.new ≡ ⟦<Crowd as Findings>⟧.rules crowd.old }
{
    one_reading();
    never_both();
    scripts_are_woven_well();
    needed_is_enough();
    operations_have_rows::<jl_text::Span>();
    jl_profile::laws::kinds_are_enough();
    jl_cover::laws::kinds_are_enough();
    due(alloc, keys, words, bytes, shelf, crowd)
}

/// Why nothing is answered.
#[derive(Drop)]
enum Unanswered {
    ReadFault,
    NoMemory,
}

impl From<AllocError> for Unanswered {
    ghost from_gives = { λ _ e. e ≡ NoMemory };

    fn from(_error: AllocError) -> Unanswered {
        Unanswered::NoMemory
    }
}

/// The answer to these words and to what the source holds, of which at most this many bytes are read.
fn answer_read<S: Source, H: Shelf>(
    alloc: Global,
    keys: RandomState,
    words: &[&str],
    most: usize,
    source: &mut S,
    shelf: &mut H,
    crowd: &mut Crowd,
) -> Result<Answer, Unanswered>
    requires is { Some most ≡ most_read_for (texts words.now) }
    requires rules { ⟦<Crowd as Findings>⟧.rules crowd.old ≡ all_rules }
    requires fresh { ⟦<Crowd as Observer>⟧.stands_for crowd.old [] }
    ensures due { IfOk result (λ given. (bytes : List ℕ) × (due : Due)
        × IfSome (S.left source.old) (λ all. all ≡ bytes)
        × IsDue (texts words.now) bytes (record {
          handed = H.handed shelf.new;
          lent = H.lent shelf.new;
          same = shelf.new ≡ shelf.old;
        }) due
        × IsGiven (record {
          same = crowd.new ≡ crowd.old;
          told = λ told. ⟦<Crowd as Observer>⟧.stands_for crowd.new told;
        }) given due) }
    ensures fault { IsErrOf result Unanswered.ReadFault → HasRisen (S.faults source.old) (S.faults source.new)
        × (shelf.new ≡ shelf.old)
        × (crowd.new ≡ crowd.old) }
    ensures shelf { ((a : Asked) (budget : ℕ) (chosen : List ℕ) → request (texts words.now) ≡ Some a
        → Reports a budget chosen → ⊥) → shelf.new ≡ shelf.old }
    ensures crowd { ((a : Asked) → request (texts words.now) ≡ Some a → IsReporting a → ⊥) → crowd.new ≡ crowd.old }
    ensures same_rules { ⟦<Crowd as Findings>⟧.rules crowd.new ≡ ⟦<Crowd as Findings>⟧.rules crowd.old }
{
    match read_all(alloc, source, most) {
        Ok(bytes) => Ok(answer_to(alloc, keys, words, &bytes, shelf, crowd)?),
        Err(ReadRefusal::TooLong) => Ok(too_long(alloc)?),
        Err(ReadRefusal::ReadFault) => Err(Unanswered::ReadFault),
        Err(ReadRefusal::NoMemory) => Err(Unanswered::NoMemory),
    }
}

/// The answer to these words and to what the source holds, of which as much is read as the command reads.
fn answer_source<S: Source, H: Shelf>(
    alloc: Global,
    keys: RandomState,
    words: &[&str],
    source: &mut S,
    shelf: &mut H,
    crowd: &mut Crowd,
) -> Result<Answer, Unanswered>
    requires rules { ⟦<Crowd as Findings>⟧.rules crowd.old ≡ all_rules }
    requires fresh { ⟦<Crowd as Observer>⟧.stands_for crowd.old [] }
    ensures due { IfOk result (λ given. (bytes : List ℕ) × (due : Due)
        × IfSome (S.left source.old) (λ all. all ≡ bytes)
        × IsDue (texts words.now) bytes (record {
          handed = H.handed shelf.new;
          lent = H.lent shelf.new;
          same = shelf.new ≡ shelf.old;
        }) due
        × IsGiven (record {
          same = crowd.new ≡ crowd.old;
          told = λ told. ⟦<Crowd as Observer>⟧.stands_for crowd.new told;
        }) given due) }
    ensures fault { IsErrOf result Unanswered.ReadFault
        → ((a : Asked) × (request (texts words.now) ≡ Some a) × ReadsSource a)
        × HasRisen (S.faults source.old) (S.faults source.new)
        × (shelf.new ≡ shelf.old)
        × (crowd.new ≡ crowd.old) }
    ensures shelf { ((a : Asked) (budget : ℕ) (chosen : List ℕ) → request (texts words.now) ≡ Some a
        → Reports a budget chosen → ⊥) → shelf.new ≡ shelf.old }
    ensures crowd { ((a : Asked) → request (texts words.now) ≡ Some a → IsReporting a → ⊥) → crowd.new ≡ crowd.old }
    ensures unread { ((a : Asked) → request (texts words.now) ≡ Some a → ReadsSource a → ⊥) → source.new ≡ source.old }
    ensures same_rules { ⟦<Crowd as Findings>⟧.rules crowd.new ≡ ⟦<Crowd as Findings>⟧.rules crowd.old }
{
    let limit = most_read(alloc, words)?;
    match limit {
        Some(most) => answer_read(alloc, keys, words, most, source, shelf, crowd),
        None => Ok(answer_to(alloc, keys, words, &[], shelf, crowd)?),
    }
}

/// Runs the command that the words name, with the source as the script and the sink for the answer; all bytes of an
/// answer are made before the first is written.
///
/// `check` tells whether a script is accepted, `print` writes its canonical text, `instrument` that of the woven
/// script, `map` what the ids in that stand for, `srcmap` the source map of that, `run` runs the script as it stands,
/// and `trace` tells its operations as its woven script runs. `exec` does so of a woven text, such as `instrument`
/// writes, which is the source then. `lint` hands the shelf the text of the script that is woven for the kinds of
/// operations that the chosen rules look at, runs the program that it reads from what the shelf lends, and reports.
/// `soak` reads no source: it makes a script of as many functions as it is told, and answers what `lint` does to that.
/// No other command touches the shelf, and neither does a refusal that comes before. `record` writes the run of the
/// woven script as a text, `objects` where it makes objects and how many of these it never uses, and `cover` which
/// functions and conditions it left out. `unmap` reads a source map and lists its segments, and `replay` a text of
/// `record`, of which it reports.
pub fn jlint<S: Source, K: Sink, H: Shelf>(
    alloc: Global,
    keys: RandomState,
    words: &[&str],
    source: &mut S,
    sink: &mut K,
    shelf: &mut H,
    crowd: &mut Crowd,
) -> Status
    requires rules { ⟦<Crowd as Findings>⟧.rules crowd.old ≡ all_rules }
    requires fresh { ⟦<Crowd as Observer>⟧.stands_for crowd.old [] }
    // There are bytes, those that the source holds where it tells them, to which the call was answered.
    ensures ends { (bytes : List ℕ) × IfSome (S.left source.old) (λ all. all ≡ bytes) × Concludes (record {
      words = texts words.now;
      held = bytes;
      read_faults = (S.faults source.old, S.faults source.new);
      written = (K.written sink.old, K.written sink.new);
      write_faults = (K.faults sink.old, K.faults sink.new);
      shelf = record {
        handed = H.handed shelf.new;
        lent = H.lent shelf.new;
        same = shelf.new ≡ shelf.old;
      };
      crowd = record {
        same = crowd.new ≡ crowd.old;
        told = λ told. ⟦<Crowd as Observer>⟧.stands_for crowd.new told;
      };
    }) result }
    // Whatever accepted script is read or made, the fault Misuse ends no run that is answered of, but for `exec`, and
    // for a program that is read from another text than the shelf was handed.
    ensures no_misuse { (a : Asked) (bytes : List ℕ) (p : Tree Span) → request (texts words.now) ≡ Some a
        → IsAccepted bytes p → RunsWithoutMisuse a p }
    // What `instrument` writes of an accepted script can be kept without the script: what is due to `exec` on these
    // bytes is what is due to `trace` on the script.
    ensures stands_alone { (bytes : List ℕ) (p : Tree Span) → request (texts words.now) ≡ Some instrument
        → IsAccepted bytes p → StandsAlone bytes p }
    ensures unread { ((a : Asked) → request (texts words.now) ≡ Some a → ReadsSource a → ⊥) → source.new ≡ source.old }
    ensures shelf { ((a : Asked) (budget : ℕ) (chosen : List ℕ) → request (texts words.now) ≡ Some a
        → Reports a budget chosen → ⊥) → shelf.new ≡ shelf.old }
    ensures crowd { ((a : Asked) → request (texts words.now) ≡ Some a → IsReporting a → ⊥) → crowd.new ≡ crowd.old }
    ensures same_rules { ⟦<Crowd as Findings>⟧.rules crowd.new ≡ ⟦<Crowd as Findings>⟧.rules crowd.old }
{
    one_reading();
    never_both();
    scripts_are_woven_well();
    accepted_scripts_run_without_misuse();
    text_stands_alone();
    needed_is_enough();
    operations_have_rows::<jl_text::Span>();
    jl_profile::laws::kinds_are_enough();
    jl_cover::laws::kinds_are_enough();
    let answer = match answer_source(alloc, keys, words, source, shelf, crowd) {
        Ok(answer) => answer,
        Err(Unanswered::ReadFault) => return Status::ReadFault,
        Err(Unanswered::NoMemory) => return Status::NoMemory,
    };
    match write_all(sink, &answer.bytes) {
        Ok(()) => answer.status,
        Err(_) => Status::WriteFault,
    }
}
