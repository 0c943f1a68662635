//! The segments of a source map.
ghost use Rattle.std.specs.Prelude.{◌≡◌, ◌≤◌, ◌++◌, codes, length, IfOk, MatchOption};
ghost use Rattle.std.specs.Str.{IsUtf8};
ghost use Rattle.std.specs.Str.Lossy.{utf8_valid_len};
ghost use Rattle.jl_app.specs.Texts.{IsTextWithin};
ghost use Rattle.std.specs.Fmt.{decimal};
ghost use Rattle.jl_app.specs.Due.{Due, refused_only};
ghost use Rattle.jl_app.specs.Forms.{most_map_bytes};
ghost use Rattle.jl_app.specs.SourceMapping.{IsUnmapped, segment_lines};
ghost use Rattle.jl_app.specs.inner.Said.{IsAnswerOf, IsSaid};

use crate::answer::{Answer, line_only, refusal_answer};
use crate::refusal::Refusal;
use crate::status::Status;
use jl_srcmap::{MapRefusal, Segment, read_json, segment_text};
use std::alloc::{AllocError, Global};
use std::str;

/// A line for each segment.
fn segment_lines(alloc: Global, segments: &[Segment]) -> Result<Vec<u8>, AllocError>
    ensures { IfOk result (λ text. text.items ≡ segment_lines segments.now) }
{
    let mut text = Vec::new(alloc);
    for segment in segments {
        text.extend_from_slice(&segment_text(alloc, segment)?)?;
        text.push(b'\n')?;
    }
    Ok(text)
}

/// The answer to a source map whose mappings have no segment at this byte.
fn bad_segment(alloc: Global, at: usize) -> Result<Answer, AllocError>
    ensures { IfOk result (λ given. IsAnswerOf given (refused_only (codes "MapText at " ++ decimal at))) }
{
    let text = format!(in alloc; "refused MapText at {at}")?;
    line_only(alloc, Status::Refused, &text)
}

/// The length of the longest prefix that is UTF-8, where the bytes are not.
fn not_utf8_at(bytes: &[u8]) -> Option<usize>
    ensures { MatchOption result (IsUtf8 bytes.now) (λ at. ¬ (IsUtf8 bytes.now) × (at ≡ utf8_valid_len bytes.now)) }
{
    match str::from_utf8(bytes) {
        Ok(_) => None,
        Err(fault) => Some(fault.valid_up_to()),
    }
}

/// What `unmap` answers to a text.
fn list_segments(alloc: Global, bytes: &[u8]) -> Result<Answer, AllocError>
    requires { IsTextWithin most_map_bytes bytes.now }
    ensures { IfOk result (λ given. (due : Due) × IsUnmapped bytes.now due × IsSaid given due) }
{
    match read_json(alloc, bytes) {
        Ok(segments) => Ok(Answer {
            status: Status::Clean,
            bytes: segment_lines(alloc, &segments)?,
        }),
        Err(MapRefusal::MapJson) => line_only(alloc, Status::Refused, "refused MapJson"),
        Err(MapRefusal::MapShape) => line_only(alloc, Status::Refused, "refused MapShape"),
        Err(MapRefusal::BadSegment { at }) => bad_segment(alloc, at),
        Err(MapRefusal::NoMemory) => Err(AllocError),
    }
}

/// What `unmap` answers to these bytes.
pub(crate) fn unmap(alloc: Global, bytes: &[u8]) -> Result<Answer, AllocError>
    requires { length bytes.now ≤ most_map_bytes }
    ensures { IfOk result (λ given. (due : Due) × IsUnmapped bytes.now due × IsSaid given due) }
{
    match not_utf8_at(bytes) {
        Some(at) => refusal_answer(alloc, &Refusal::NotUtf8 { at }),
        None => list_segments(alloc, bytes),
    }
}
