//! A script that runs as it stands.
ghost use Rattle.std.specs.Prelude.{◌≡◌, ◌++◌, IfOk};
ghost use Rattle.std.specs.String.{string_bytes};
ghost use Rattle.jl_ast.specs.View.{view};
ghost use Rattle.jl_app.specs.Answers.{execute_due};
ghost use Rattle.jl_app.specs.OwnRuns.{ending_status, ending_text, own_run, steps_line, uncaught_line};

use crate::answer::Answer;
use crate::lint::append_texts;
use crate::run::run_program;
use crate::status::Status;
use jl_ast::Program;
use jl_heap::Heap;
use jl_machine::Run;
use jl_op::{KindSet, Nobody};
use jl_value::Outcome;
use std::alloc::{AllocError, Global};
use std::hash::RandomState;

/// How a run ended, in words.
pub(crate) fn ending_text(alloc: Global, outcome: &Outcome) -> Result<String, AllocError>
    ensures { IfOk result (λ text. string_bytes text ≡ ending_text outcome.now) }
{
    match outcome {
        Outcome::Normal => String::from_str(alloc, "normal"),
        Outcome::Thrown(_) => String::from_str(alloc, "thrown"),
        Outcome::Fault(fault) => format!(in alloc; "fault {fault}"),
        Outcome::Spent => String::from_str(alloc, "spent"),
    }
}

/// The status of a run that ended so.
pub(crate) fn ending_status(outcome: &Outcome) -> Status
    ensures { result ≡ ending_status outcome.now }
{
    match outcome {
        Outcome::Normal => Status::Clean,
        Outcome::Thrown(_) => Status::Thrown,
        Outcome::Fault(_) => Status::Fault,
        Outcome::Spent => Status::Spent,
    }
}

/// The line that tells what was thrown and not caught, in UTF-8, if anything was.
pub(crate) fn uncaught_line(
    alloc: Global,
    heap: &Heap,
    outcome: &Outcome,
) -> Result<String, AllocError>
    ensures { IfOk result (λ text. string_bytes text ≡ uncaught_line heap.now outcome.now) }
{
    match outcome {
        Outcome::Normal => Ok(String::new(alloc)),
        Outcome::Thrown(v) => {
            let description = String::from_utf16_lossy(alloc, &heap.describe(v)?)?;
            format!(in alloc; "uncaught {description}\n")
        }
        Outcome::Fault(_) => Ok(String::new(alloc)),
        Outcome::Spent => Ok(String::new(alloc)),
    }
}

/// The last line.
fn steps_line(alloc: Global, outcome: &Outcome, steps: u64) -> Result<String, AllocError>
    ensures { IfOk result (λ text. string_bytes text ≡ steps_line outcome.now steps) }
{
    let end = ending_text(alloc, outcome)?;
    format!(in alloc; "jlint: {end} steps={steps}\n")
}

/// What a run printed, what it threw, and the last line.
fn answer_bytes(alloc: Global, run: &Run) -> Result<Vec<u8>, AllocError>
    ensures { IfOk result (λ bytes. bytes.items ≡ run.now.output
        ++ (uncaught_line run.now.store.heap run.now.outcome ++ steps_line run.now.outcome run.now.steps)) }
{
    let uncaught = uncaught_line(alloc, run.store.heap(), &run.outcome)?;
    let end = steps_line(alloc, &run.outcome, run.steps)?;
    append_texts(
        Vec::from_slice(alloc, run.output.items())?,
        uncaught.as_bytes(),
        &end,
    )
}

/// What `run` answers to a script that is accepted as this program, with at most so many steps.
pub(crate) fn execute(
    alloc: Global,
    keys: RandomState,
    program: &Program,
    budget: u64,
) -> Result<Answer, AllocError>
    ensures { IfOk result (λ a. (a.status ≡ (execute_due (own_run (view program.now) budget) budget).status)
        × (a.bytes.items ≡ (execute_due (own_run (view program.now) budget) budget).bytes)) }
{
    let run = run_program(alloc, keys, program, budget, KindSet::all(), &mut Nobody)?;
    Ok(Answer {
        status: ending_status(&run.outcome),
        bytes: answer_bytes(alloc, &run)?,
    })
}
