//! The source map of a woven script.
ghost use Rattle.std.specs.Prelude.{◌≡◌, ◌<◌, IfOk, List as Items, length, ℕ};
ghost use Rattle.jl_ast.specs.View.{view};
ghost use Rattle.jl_op.specs.IdMap.{id_map};
ghost use Rattle.jl_simulation.specs.Plain.{HasFewIds};
ghost use Rattle.jl_srcmap.specs.Hooks.{segments_of};
ghost use Rattle.jl_srcmap.specs.Segments.{AreInOrder};
ghost use Rattle.jl_text.specs.Places.{line_table};
ghost use Rattle.jl_token.specs.Tokens.{Tokens};
ghost use Rattle.jl_token.specs.declared.token.Token.{Token as OneToken};
ghost use Rattle.jl_app.specs.Accepting.{IsAccepted};
ghost use Rattle.jl_app.specs.Due.{Due};
ghost use Rattle.jl_app.specs.SourceMapping.{IsMappedBack};
ghost use Rattle.jl_app.specs.inner.MapRows.{RowsBeginIn};
ghost use Rattle.jl_app.specs.inner.Said.{IsSaid};

use crate::accept::Accepted;
use crate::answer::Answer;
use crate::instrument::woven_text;
use crate::laws::scripts_are_woven_well;
use crate::listing::map_in;
use crate::status::Status;
use jl_lex::{LexRefusal, lex};
use jl_op::KindSet;
use jl_srcmap::{Segment, origins, write_json, write_mappings};
use jl_text::{Lines, List};
use jl_token::Token;
use jl_token::laws::spans_are_in_order;
use std::alloc::{AllocError, Global};

/// The tokens of a text in which each input element can be formed.
fn lex_woven(alloc: Global, text: &[u16]) -> Result<List<Token>, AllocError>
    requires lexed { (tokens : Items OneToken) × Tokens text.now tokens }
    requires short { length text.now < 4294967295 }
    ensures { IfOk result (λ tokens. Tokens text.now tokens) }
{
    match lex(alloc, text) {
        Ok(tokens) => Ok(tokens),
        Err(LexRefusal::BadInput { .. }) => unreachable!(),
        Err(LexRefusal::NoMemory) => Err(AllocError),
    }
}

/// The segments of the text of the woven script.
fn woven_segments(
    alloc: Global,
    accepted: &Accepted,
    text: &[u16],
) -> Result<Vec<Segment>, AllocError>
    requires few { HasFewIds (view accepted.now.program) }
    requires places { RowsBeginIn accepted.now.source (view accepted.now.program) }
    requires lexed { (tokens : Items OneToken) × Tokens text.now tokens }
    requires short { length text.now < 4294967295 }
    ensures are { (tokens : Items OneToken) → Tokens text.now tokens → IfOk result (λ segments. segments.items
        ≡ segments_of (line_table text.now) (id_map (view accepted.now.program))
        (line_table accepted.now.source) tokens) }
    ensures in_order { IfOk result (λ segments. AreInOrder 0 segments.items) }
{
    spans_are_in_order();
    let tokens = lex_woven(alloc, text)?;
    let woven = Lines::new(alloc, text)?;
    let map = map_in(alloc, accepted)?;
    origins(alloc, tokens.items(), &woven, &map, accepted.source.lines())
}

/// What `srcmap` answers to an accepted script.
pub(crate) fn srcmap(alloc: Global, accepted: &Accepted) -> Result<Answer, AllocError>
    requires few { HasFewIds (view accepted.now.program) }
    requires places { RowsBeginIn accepted.now.source (view accepted.now.program) }
    requires accepted { (bytes : Items ℕ) × IsAccepted bytes (view accepted.now.program) }
    ensures { IfOk result (λ given. (due : Due)
        × IsMappedBack accepted.now.source (view accepted.now.program) due
        × IsSaid given due) }
{
    scripts_are_woven_well();
    let text = woven_text(alloc, &accepted.program, KindSet::all())?;
    let segments = woven_segments(alloc, accepted, &text)?;
    let mappings = write_mappings(alloc, &segments)?;
    Ok(Answer {
        status: Status::Clean,
        bytes: write_json(alloc, &mappings)?,
    })
}
