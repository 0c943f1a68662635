//! The mappings text of segments.
ghost use Rattle.std.specs.Prelude.{◌≡◌, ◌-◌, [], ◌∷◌, ◌++◌, All, IfOk, OnOk, Some, replicate};
ghost use Rattle.std.specs.Str.{IsAscii};
ghost use Rattle.jl_srcmap.specs.Laws.{IsSmall};
ghost use Rattle.jl_srcmap.specs.Mappings.{Reads, semicolon};
ghost use Rattle.jl_srcmap.specs.Numbers.{below_limit, differences};
ghost use Rattle.jl_srcmap.specs.Segments.{AreInOrder, origin_fields};
ghost use Rattle.jl_srcmap.specs.Written.{between, mappings_text, segment_text};
ghost use Rattle.jl_srcmap.specs.inner.Reading.{kept};

use crate::quantity::push_field;
use crate::running::Running;
use crate::segment::{Origin, Segment};
use std::alloc::{AllocError, Global};

/// The mappings text of these segments, whose lines don't fall: each number has the fewest digits, and nothing follows
/// the last segment. It is read as these segments. Its steps are in the order of the length of the text.
pub fn write_mappings(alloc: Global, segments: &[Segment]) -> Result<Vec<u8>, AllocError>
    requires { AreInOrder 0 segments.now }
    ensures text { IfOk result (λ text. text.items ≡ mappings_text segments.now) }
    ensures reads_back { IfOk result (λ text. Reads text.items segments.now) }
    ensures ascii { IfOk result (λ text. IsAscii text.items) }
{
    let mut text = Vec::new(alloc);
    let Some((first, others)) = segments.split_first() else {
        return Ok(text);
    };
    let start = Running::start();
    push_lines(&mut text, first.line)?;
    push_segment(&mut text, start, first)?;
    let mut running = start.after(first);
    for segment in others {
        push_between(&mut text, running.line, segment.line)?;
        push_segment(&mut text, running, segment)?;
        running = running.after(segment);
    }
    Ok(text)
}

/// Adds so many semicolons.
fn push_lines(text: &mut Vec<u8>, lines: u32) -> Result<(), AllocError>
    ensures { OnOk result (text.new.items ≡ text.old.items ++ replicate lines semicolon) }
{
    for _ in 0..lines {
        text.push(b';')?;
    }
    Ok(())
}

/// Adds what stands between two segments on these lines.
fn push_between(text: &mut Vec<u8>, line: u32, next: u32) -> Result<(), AllocError>
    ensures { OnOk result (text.new.items ≡ text.old.items ++ between line next) }
{
    if next == line {
        text.push(b',')?;
        return Ok(());
    }
    push_lines(text, next.saturating_sub(line))
}

/// Adds a segment.
fn push_segment(text: &mut Vec<u8>, running: Running, segment: &Segment) -> Result<(), AllocError>
    ensures text { OnOk result (text.new.items ≡ text.old.items ++ segment_text (kept running) segment.now) }
    ensures small { OnOk result (IsSmall segment.now) }
{
    let sums = running.on_line(segment.line);
    push_field(text, sums.column, segment.column)?;
    match segment.origin {
        None => Ok(()),
        Some(origin) => push_origin(text, sums, origin),
    }
}

/// Adds the fields of an origin after these sums.
fn push_origin(text: &mut Vec<u8>, sums: Running, origin: Origin) -> Result<(), AllocError>
    ensures text { OnOk result (text.new.items ≡ text.old.items
        ++ differences (sums.source ∷ sums.original_line ∷ sums.original_column ∷ sums.name ∷ [])
        (origin_fields (Some origin))) }
    ensures small { OnOk result (All below_limit (origin_fields (Some origin))) }
{
    push_field(text, sums.source, origin.source)?;
    push_field(text, sums.original_line, origin.line)?;
    push_field(text, sums.original_column, origin.column)?;
    match origin.name {
        None => Ok(()),
        Some(name) => push_field(text, sums.name, name),
    }
}
