//! The functions that a script never enters, and the conditions that are never true or never false.
ghost use Rattle.std.specs.Prelude.{◌≡◌, ◌≤◌, ◌++◌, IfOk};
ghost use Rattle.std.specs.String.{string_bytes};
ghost use Rattle.jl_ast.specs.View.{view};
ghost use Rattle.jl_command.specs.Asked.{cover};
ghost use Rattle.jl_simulation.specs.Plain.{HasFewIds};
ghost use Rattle.jl_app.specs.Covering.{cover_line, missed_lines, totals_text};
ghost use Rattle.jl_app.specs.Due.{Due};
ghost use Rattle.jl_app.specs.OwnRuns.{uncaught_line};
ghost use Rattle.jl_app.specs.Telling.{IsToldOfWoven};
ghost use Rattle.jl_app.specs.inner.MapRows.{RowsBeginIn};
ghost use Rattle.jl_app.specs.inner.Said.{IsSaid};

use crate::accept::Accepted;
use crate::answer::Answer;
use crate::execute::{ending_status, ending_text, uncaught_line};
use crate::lint::append_texts;
use crate::listing::map_in;
use crate::woven_run::run_woven;
use jl_cover::{Cover, Missed, Totals, covered_kinds, missed_text};
use jl_machine::Run;
use std::alloc::{AllocError, Global};
use std::hash::RandomState;

/// The lines of the gaps.
fn missed_lines(alloc: Global, gaps: &[Missed]) -> Result<Vec<u8>, AllocError>
    ensures { IfOk result (λ text. text.items ≡ missed_lines gaps.now) }
{
    let mut text = Vec::new(alloc);
    for gap in gaps {
        text.extend_from_slice(&missed_text(alloc, gap)?)?;
        text.push(b'\n')?;
    }
    Ok(text)
}

/// How much of the functions and conditions was covered.
fn totals_text(alloc: Global, totals: Totals) -> Result<String, AllocError>
    ensures { IfOk result (λ text. string_bytes text ≡ totals_text totals) }
{
    let entered = totals.entered;
    let functions = totals.functions;
    let decided = totals.decided;
    let conditions = totals.conditions;
    format!(in alloc; "functions={entered} of {functions} conditions={decided} of {conditions}")
}

/// The last line.
fn cover_line(alloc: Global, run: &Run, totals: Totals) -> Result<String, AllocError>
    ensures { IfOk result (λ text. string_bytes text ≡ cover_line run.now.outcome run.now.steps totals) }
{
    let end = ending_text(alloc, &run.outcome)?;
    let steps = run.steps;
    let covered = totals_text(alloc, totals)?;
    format!(in alloc; "jlint: {end} steps={steps} {covered}\n")
}

/// The gaps, what the run threw, and the last line.
fn answer_bytes(
    alloc: Global,
    run: &Run,
    gaps: &[Missed],
    totals: Totals,
) -> Result<Vec<u8>, AllocError>
    ensures { IfOk result (λ bytes. bytes.items ≡ missed_lines gaps.now
        ++ (uncaught_line run.now.store.heap run.now.outcome ++ cover_line run.now.outcome run.now.steps totals)) }
{
    let lines = missed_lines(alloc, gaps)?;
    let uncaught = uncaught_line(alloc, run.store.heap(), &run.outcome)?;
    let end = cover_line(alloc, run, totals)?;
    append_texts(lines, uncaught.as_bytes(), &end)
}

/// What `cover` answers to an accepted script with this budget.
pub(crate) fn cover(
    alloc: Global,
    keys: RandomState,
    accepted: &Accepted,
    budget: u64,
) -> Result<Answer, AllocError>
    requires few { HasFewIds (view accepted.now.program) }
    requires places { RowsBeginIn accepted.now.source (view accepted.now.program) }
    requires budget { budget ≤ 1000000000 }
    ensures { IfOk result (λ given. (due : Due)
        × IsToldOfWoven (cover budget) accepted.now.source (view accepted.now.program) budget due
        × IsSaid given due) }
{
    let mut cover = Cover::new(alloc);
    let run = run_woven(
        alloc,
        keys,
        &accepted.program,
        budget,
        covered_kinds(),
        &mut cover,
    )?;
    let map = map_in(alloc, accepted)?;
    let gaps = cover.missed(alloc, &map, accepted.source.lines())?;
    let totals = cover.totals(&map);
    Ok(Answer {
        status: ending_status(&run.outcome),
        bytes: answer_bytes(alloc, &run, &gaps, totals)?,
    })
}
