//! A run that is told by its operations, a line each.
ghost use Rattle.std.specs.Prelude.{◌≡◌, ◌≤◌, ◌++◌, IfOk};
ghost use Rattle.std.specs.String.{string_bytes};
ghost use Rattle.jl_ast.specs.View.{view};
ghost use Rattle.jl_op.specs.Chosen.{every_kind};
ghost use Rattle.jl_simulation.specs.Plain.{HasFewIds};
ghost use Rattle.jl_app.specs.Answers.{trace_due};
ghost use Rattle.jl_app.specs.WovenRuns.{woven_budget};
ghost use Rattle.jl_app.specs.OwnRuns.{own_run, uncaught_line};
ghost use Rattle.jl_app.specs.Telling.{told_run};
ghost use Rattle.jl_app.specs.Tracing.{hooks_line};

use crate::answer::Answer;
use crate::execute::{ending_status, ending_text, uncaught_line};
use crate::lint::{append_texts, woven_budget};
use crate::run::run_program;
use crate::tracer::Tracer;
use jl_ast::Program;
use jl_machine::Run;
use jl_op::KindSet;
use jl_value::Outcome;
use jl_weave::weave;
use std::alloc::{AllocError, Global};
use std::hash::RandomState;

/// The last line.
fn hooks_line(
    alloc: Global,
    outcome: &Outcome,
    steps: u64,
    hooks: u64,
) -> Result<String, AllocError>
    ensures { IfOk result (λ text. string_bytes text ≡ hooks_line outcome.now steps hooks) }
{
    let end = ending_text(alloc, outcome)?;
    format!(in alloc; "jlint: {end} steps={steps} hooks={hooks}\n")
}

/// The lines of a run's operations, what it threw, and the last line.
fn answer_bytes(alloc: Global, lines: Vec<u8>, run: &Run) -> Result<Vec<u8>, AllocError>
    ensures { IfOk result (λ bytes. bytes.items ≡ lines.items
        ++ (uncaught_line run.now.store.heap run.now.outcome
        ++ hooks_line run.now.outcome run.now.steps run.now.hooks)) }
{
    let uncaught = uncaught_line(alloc, run.store.heap(), &run.outcome)?;
    let end = hooks_line(alloc, &run.outcome, run.steps, run.hooks)?;
    append_texts(lines, uncaught.as_bytes(), &end)
}

/// What `exec` answers to a woven text that is read as this program: it runs as it stands, with at most so many steps.
pub(crate) fn trace_alone(
    alloc: Global,
    keys: RandomState,
    program: &Program,
    budget: u64,
) -> Result<Answer, AllocError>
    ensures { IfOk result (λ a. (a.status ≡ (trace_due (own_run (view program.now) budget) budget).status)
        × (a.bytes.items ≡ (trace_due (own_run (view program.now) budget) budget).bytes)) }
{
    let mut tracer = Tracer::new(alloc);
    let run = run_program(alloc, keys, program, budget, KindSet::all(), &mut tracer)?;
    Ok(Answer {
        status: ending_status(&run.outcome),
        bytes: answer_bytes(alloc, tracer.into_lines(), &run)?,
    })
}

/// What `trace` answers to a script that is accepted as this program: it runs woven, with as many steps as that has
/// where the script has at most so many.
pub(crate) fn trace(
    alloc: Global,
    keys: RandomState,
    program: &Program,
    budget: u64,
) -> Result<Answer, AllocError>
    requires few { HasFewIds (view program.now) }
    requires budget { budget ≤ 1000000000 }
    ensures { IfOk result (λ a.
        (a.status ≡ (trace_due (told_run every_kind (view program.now) budget) (woven_budget budget)).status)
        × (a.bytes.items ≡ (trace_due (told_run every_kind (view program.now) budget) (woven_budget budget)).bytes)) }
{
    let woven = weave(alloc, program, KindSet::all())?;
    trace_alone(alloc, keys, &woven, woven_budget(budget))
}
