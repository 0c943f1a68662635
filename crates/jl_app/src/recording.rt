//! A script's run as a text that can be kept.
ghost use Rattle.std.specs.Prelude.{◌≡◌, ◌≤◌, ℕ, IfOk, List as Items};
ghost use Rattle.jl_ast.specs.View.{view};
ghost use Rattle.jl_command.specs.Asked.{record_of_run};
ghost use Rattle.jl_simulation.specs.Plain.{HasFewIds};
ghost use Rattle.jl_text.specs.Encoding.{units_of};
ghost use Rattle.jl_app.specs.Accepting.{IsAccepted};
ghost use Rattle.jl_app.specs.Due.{Due};
ghost use Rattle.jl_app.specs.Telling.{IsToldOfWoven};
ghost use Rattle.jl_app.specs.inner.MapRows.{RowsBeginIn};
ghost use Rattle.jl_app.specs.inner.Said.{IsSaid};

use crate::accept::Accepted;
use crate::answer::{Answer, line_only};
use crate::execute::ending_status;
use crate::form::MOST_RECORD_BYTES;
use crate::laws::recorded_runs_are_stored;
use crate::listing::map_in;
use crate::report::switched_off;
use crate::status::Status;
use crate::woven_run::run_woven;
use jl_op::KindSet;
use jl_record::{RecordRefusal, Recorder};
use std::alloc::{AllocError, Global};
use std::hash::RandomState;

/// What `record` answers to an accepted script with this budget.
pub(crate) fn record_run(
    alloc: Global,
    keys: RandomState,
    accepted: &Accepted,
    budget: u64,
) -> Result<Answer, AllocError>
    requires few { HasFewIds (view accepted.now.program) }
    requires places { RowsBeginIn accepted.now.source (view accepted.now.program) }
    requires script { (bytes : Items ℕ) × IsAccepted bytes (view accepted.now.program)
        × (accepted.now.source ≡ units_of bytes) }
    requires budget { budget ≤ 1000000000 }
    ensures { IfOk result (λ given. (due : Due)
        × IsToldOfWoven (record_of_run budget) accepted.now.source (view accepted.now.program) budget due
        × IsSaid given due) }
{
    recorded_runs_are_stored();
    let mut recorder = Recorder::new(alloc, MOST_RECORD_BYTES as u64);
    let run = run_woven(
        alloc,
        keys,
        &accepted.program,
        budget,
        KindSet::all(),
        &mut recorder,
    )?;
    let map = map_in(alloc, accepted)?;
    let off = switched_off(alloc, &accepted.source)?;
    match recorder.finish(alloc, &map, accepted.source.lines(), &off) {
        Ok(bytes) => Ok(Answer {
            status: ending_status(&run.outcome),
            bytes,
        }),
        Err(RecordRefusal::TooLong) => line_only(alloc, Status::Refused, "refused RecordTooLong"),
        Err(RecordRefusal::NoMemory) => Err(AllocError),
    }
}
