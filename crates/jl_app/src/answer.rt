ghost use Rattle.std.specs.Prelude.{◌≡◌, ◌≤◌, ℕ, List, [], Some, length, IfOk, IfSome};
ghost use Rattle.jl_analysis.specs.Rules.{all_rules};
ghost use Rattle.jl_command.specs.Asked.{Asked, lint};
ghost use Rattle.jl_command.specs.Meant.{Means};
ghost use Rattle.jl_app.specs.Answers.{IsAnswered};
ghost use Rattle.jl_app.specs.Due.{Due, IsGiven, line_only, refused_only};
ghost use Rattle.jl_app.specs.Forms.{form_of, most_read};
ghost use Rattle.jl_app.specs.Refusals.{refusal_words};
ghost use Rattle.jl_app.specs.declared.form.Form.{Form as Kind};

use crate::accept::{Unaccepted, accept};
use crate::check::check;
use crate::cover::cover;
use crate::execute::execute;
use crate::form::Form;
use crate::instrument::instrument;
use crate::lint::lint;
use crate::listing::list_map;
use crate::objects::objects;
use crate::print::print;
use crate::recording::record_run;
use crate::refusal::Refusal;
use crate::srcmap::srcmap;
use crate::status::Status;
use crate::trace::{trace, trace_alone};
use jl_analysis::{Crowd, Findings};
use jl_command::Command;
use jl_op::Observer;
use jl_port::Shelf;
use std::alloc::{AllocError, Global};
use std::hash::RandomState;

/// A status, and the bytes that are written with it.
#[derive(Drop)]
pub struct Answer {
    pub status: Status,
    pub bytes: Vec<u8>,
}

/// The answer without a run: a line.
pub(crate) fn line_only(alloc: Global, status: Status, text: &str) -> Result<Answer, AllocError>
    ensures { IfOk result (λ a. (a.status ≡ (line_only status text.now).status)
        × (a.bytes.items ≡ (line_only status text.now).bytes)) }
{
    let line = format!(in alloc; "jlint: {text}\n")?;
    Ok(Answer {
        status,
        bytes: Vec::from_slice(alloc, line.as_bytes())?,
    })
}

/// The answer to bytes that are refused.
pub(crate) fn refusal_answer(alloc: Global, refusal: &Refusal) -> Result<Answer, AllocError>
    ensures { IfOk result (λ a. (a.status ≡ (refused_only (refusal_words refusal.now)).status)
        × (a.bytes.items ≡ (refused_only (refusal_words refusal.now)).bytes)) }
{
    let words = refusal.words(alloc)?;
    let text = format!(in alloc; "refused {words}")?;
    line_only(alloc, Status::Refused, &text)
}

/// What a command that reads a program answers to these bytes.
pub(crate) fn respond<H: Shelf>(
    alloc: Global,
    keys: RandomState,
    command: Command,
    bytes: &[u8],
    shelf: &mut H,
    crowd: &mut Crowd,
) -> Result<Answer, AllocError>
    requires meant { (a : Asked) × (form : Kind) × (form_of a ≡ Some form) × Means command a }
    requires small { (a : Asked) → Means command a → IfSome (most_read a) (λ most. length bytes.now ≤ most) }
    requires rules { ⟦<Crowd as Findings>⟧.rules crowd.old ≡ all_rules }
    requires fresh { ⟦<Crowd as Observer>⟧.stands_for crowd.old [] }
    ensures due { (a : Asked) → Means command a → IfOk result (λ given. (due : Due)
        × IsAnswered a bytes.now (record {
          handed = H.handed shelf.new;
          lent = H.lent shelf.new;
          same = shelf.new ≡ shelf.old;
        }) due
        × IsGiven (record {
          same = crowd.new ≡ crowd.old;
          told = λ told. ⟦<Crowd as Observer>⟧.stands_for crowd.new told;
        }) given due) }
    ensures shelf { ((budget : ℕ) (chosen : List ℕ) → Means command (lint budget chosen) → ⊥)
        → shelf.new ≡ shelf.old }
    ensures crowd { ((budget : ℕ) (chosen : List ℕ) → Means command (lint budget chosen) → ⊥)
        → crowd.new ≡ crowd.old }
    ensures same_rules { ⟦<Crowd as Findings>⟧.rules crowd.new ≡ ⟦<Crowd as Findings>⟧.rules crowd.old }
{
    let form = Form::of(command);
    let accepted = match accept(alloc, form, bytes) {
        Ok(accepted) => accepted,
        Err(Unaccepted::Refused(refusal)) => return refusal_answer(alloc, &refusal),
        Err(Unaccepted::NoMemory) => return Err(AllocError),
    };
    match command {
        Command::Lint { budget, rules } => lint(
            alloc, keys, &accepted, budget, rules, shelf, crowd,
        ),
        Command::Run { budget } => execute(alloc, keys, &accepted.program, budget),
        Command::Check => check(alloc, &accepted.program),
        Command::Print => print(alloc, &accepted.program),
        Command::Instrument => instrument(alloc, &accepted.program),
        Command::Map => list_map(alloc, &accepted),
        Command::Srcmap => srcmap(alloc, &accepted),
        Command::Trace { budget } => trace(alloc, keys, &accepted.program, budget),
        Command::Exec { budget } => trace_alone(alloc, keys, &accepted.program, budget),
        Command::Record { budget } => record_run(alloc, keys, &accepted, budget),
        Command::Objects { budget } => objects(alloc, keys, &accepted, budget),
        Command::Cover { budget } => cover(alloc, keys, &accepted, budget),
        Command::Soak { .. } => unreachable!(),
        Command::Unmap => unreachable!(),
        Command::Replay { .. } => unreachable!(),
    }
}
