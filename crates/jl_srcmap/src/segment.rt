//! Segments of a source map.
ghost use Rattle.std.specs.Prelude.{◌≡◌, IfOk};
ghost use Rattle.std.specs.String.{string_bytes};
ghost use Rattle.jl_srcmap.specs.Segments.{name_text, origin_text, place_text, segment_line};

use std::alloc::{AllocError, Global};

/// Where a place of the generated text comes from: the source by its number, the line and the column there, in UTF-16
/// units, and the name by its number. All numbers count from 0.
#[derive(Clone, Copy, PartialEq, Eq, Debug)]
pub struct Origin {
    pub source: u32,
    pub line: u32,
    pub column: u32,
    pub name: Option<u32>,
}

/// A segment of a source map: the line and the column of the generated text at which it begins, and where that comes
/// from, if it is said. Both count from 0; a column counts UTF-16 units.
#[derive(Clone, Copy, PartialEq, Eq, Debug)]
pub struct Segment {
    pub line: u32,
    pub column: u32,
    pub origin: Option<Origin>,
}

/// A segment as text, without a line terminator: `LINE:COLUMN`, then its source, `LINE:COLUMN` there and its name, each
/// after a space and as far as the segment has them. Lines and columns count from 1 there, the others from 0.
pub fn segment_text(alloc: Global, segment: &Segment) -> Result<Vec<u8>, AllocError>
    ensures { IfOk result (λ text. text.items ≡ segment_line segment.now) }
{
    let place = place_text(alloc, segment.line, segment.column)?;
    let origin = origin_text(alloc, segment.origin)?;
    let text = format!(in alloc; "{place}{origin}")?;
    Ok(text.into_bytes())
}

/// A place, whose line and column count from 0.
fn place_text(alloc: Global, line: u32, column: u32) -> Result<String, AllocError>
    ensures { IfOk result (λ text. string_bytes text ≡ place_text line column) }
{
    let line = u64::from(line) + 1;
    let column = u64::from(column) + 1;
    format!(in alloc; "{line}:{column}")
}

/// What follows the place of a segment.
fn origin_text(alloc: Global, origin: Option<Origin>) -> Result<String, AllocError>
    ensures { IfOk result (λ text. string_bytes text ≡ origin_text origin) }
{
    let Some(origin) = origin else {
        return Ok(String::new(alloc));
    };
    let source = origin.source;
    let place = place_text(alloc, origin.line, origin.column)?;
    let name = name_text(alloc, origin.name)?;
    format!(in alloc; " {source} {place}{name}")
}

fn name_text(alloc: Global, name: Option<u32>) -> Result<String, AllocError>
    ensures { IfOk result (λ text. string_bytes text ≡ name_text name) }
{
    match name {
        None => Ok(String::new(alloc)),
        Some(name) => format!(in alloc; " {name}"),
    }
}
