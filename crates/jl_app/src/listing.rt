//! The map of a script.
ghost use Rattle.std.specs.Prelude.{◌≡◌, All, IfOk};
ghost use Rattle.jl_ast.specs.View.{view};
ghost use Rattle.jl_op.specs.IdMap.{id_map};
ghost use Rattle.jl_op.specs.Map.{BeginsIn};
ghost use Rattle.jl_simulation.specs.Plain.{HasFewIds};
ghost use Rattle.jl_text.specs.Places.{line_table};
ghost use Rattle.jl_app.specs.Answers.{listed_map};
ghost use Rattle.jl_app.specs.inner.MapRows.{RowsBeginIn};

use crate::accept::Accepted;
use crate::answer::Answer;
use crate::status::Status;
use jl_map::map_of;
use jl_op::{OpMap, map_text};
use std::alloc::{AllocError, Global};

/// The map of a script, each part of which begins in the source.
pub(crate) fn map_in(alloc: Global, accepted: &Accepted) -> Result<OpMap, AllocError>
    requires few { HasFewIds (view accepted.now.program) }
    requires places { RowsBeginIn accepted.now.source (view accepted.now.program) }
    ensures rows { IfOk result (λ map. map ≡ id_map (view accepted.now.program)) }
    ensures within { IfOk result (λ map. All (BeginsIn (line_table accepted.now.source)) map) }
{
    map_of(alloc, &accepted.program)
}

/// What `map` answers to an accepted script.
pub(crate) fn list_map(alloc: Global, accepted: &Accepted) -> Result<Answer, AllocError>
    requires few { HasFewIds (view accepted.now.program) }
    requires places { RowsBeginIn accepted.now.source (view accepted.now.program) }
    ensures { IfOk result (λ a.
        (a.status ≡ (listed_map accepted.now.source (view accepted.now.program)).status)
        × (a.bytes.items ≡ (listed_map accepted.now.source (view accepted.now.program)).bytes)) }
{
    let map = map_in(alloc, accepted)?;
    Ok(Answer {
        status: Status::Clean,
        bytes: map_text(alloc, &map, accepted.source.lines())?,
    })
}
