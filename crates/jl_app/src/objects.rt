//! Where a script makes objects, and how many of these it never uses.
ghost use Rattle.std.specs.Prelude.{◌≡◌, ◌≤◌, ◌<◌, ◌^◌, ◌++◌, IfOk};
ghost use Rattle.std.specs.String.{string_bytes};
ghost use Rattle.jl_ast.specs.View.{view};
ghost use Rattle.jl_command.specs.Asked.{objects};
ghost use Rattle.jl_profile.specs.Births.{all_made, all_unused};
ghost use Rattle.jl_simulation.specs.Plain.{HasFewIds};
ghost use Rattle.jl_app.specs.Due.{Due};
ghost use Rattle.jl_app.specs.OwnRuns.{uncaught_line};
ghost use Rattle.jl_app.specs.Profiling.{births_lines, objects_line};
ghost use Rattle.jl_app.specs.Telling.{IsToldOfWoven};
ghost use Rattle.jl_app.specs.inner.MapRows.{RowsBeginIn};
ghost use Rattle.jl_app.specs.inner.Said.{IsSaid};

use crate::accept::Accepted;
use crate::answer::Answer;
use crate::execute::{ending_status, ending_text, uncaught_line};
use crate::lint::append_texts;
use crate::listing::map_in;
use crate::woven_run::run_woven;
use jl_machine::Run;
use jl_profile::{Births, Profile, births_text, profiled_kinds};
use std::alloc::{AllocError, Global};
use std::hash::RandomState;

/// The lines of a profile.
fn births_lines(alloc: Global, rows: &[Births]) -> Result<Vec<u8>, AllocError>
    ensures { IfOk result (λ text. text.items ≡ births_lines rows.now) }
{
    let mut text = Vec::new(alloc);
    for row in rows {
        text.extend_from_slice(&births_text(alloc, row)?)?;
        text.push(b'\n')?;
    }
    Ok(text)
}

/// The last line, with the sums of the rows.
fn objects_line(alloc: Global, run: &Run, rows: &[Births]) -> Result<String, AllocError>
    requires made { all_made rows.now < 2 ^ 64 }
    requires unused { all_unused rows.now < 2 ^ 64 }
    ensures { IfOk result (λ text. string_bytes text ≡ objects_line run.now.outcome run.now.steps rows.now) }
{
    let end = ending_text(alloc, &run.outcome)?;
    let steps = run.steps;
    let made: u64 = rows.iter().map(|row| row.made).sum();
    let unused: u64 = rows.iter().map(|row| row.unused).sum();
    format!(in alloc; "jlint: {end} steps={steps} objects={made} unused={unused}\n")
}

/// The profile, what the run threw, and the last line.
fn answer_bytes(alloc: Global, run: &Run, rows: &[Births]) -> Result<Vec<u8>, AllocError>
    requires made { all_made rows.now < 2 ^ 64 }
    requires unused { all_unused rows.now < 2 ^ 64 }
    ensures { IfOk result (λ bytes. bytes.items ≡ births_lines rows.now
        ++ (uncaught_line run.now.store.heap run.now.outcome ++ objects_line run.now.outcome run.now.steps rows.now)) }
{
    let lines = births_lines(alloc, rows)?;
    let uncaught = uncaught_line(alloc, run.store.heap(), &run.outcome)?;
    let end = objects_line(alloc, run, rows)?;
    append_texts(lines, uncaught.as_bytes(), &end)
}

/// What `objects` answers to an accepted script with this budget.
pub(crate) fn objects(
    alloc: Global,
    keys: RandomState,
    accepted: &Accepted,
    budget: u64,
) -> Result<Answer, AllocError>
    requires few { HasFewIds (view accepted.now.program) }
    requires places { RowsBeginIn accepted.now.source (view accepted.now.program) }
    requires budget { budget ≤ 1000000000 }
    ensures { IfOk result (λ given. (due : Due)
        × IsToldOfWoven (objects budget) accepted.now.source (view accepted.now.program) budget due
        × IsSaid given due) }
{
    let mut profile = Profile::new(alloc);
    let run = run_woven(
        alloc,
        keys,
        &accepted.program,
        budget,
        profiled_kinds(),
        &mut profile,
    )?;
    let map = map_in(alloc, accepted)?;
    let rows = profile.births(alloc, &map, accepted.source.lines())?;
    Ok(Answer {
        status: ending_status(&run.outcome),
        bytes: answer_bytes(alloc, &run, &rows)?,
    })
}
