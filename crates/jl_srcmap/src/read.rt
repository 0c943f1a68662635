//! Reading a mappings text.
ghost use Rattle.std.specs.Prelude.{◌≡◌, ℕ, ◌+◌, ◌<◌, ◌≤◌, ◌^◌, [], ◌∷◌, IfErr, IfOk, OnOk, length, option_and_then};
ghost use Rattle.std.specs.Prelude.{option_map, slice_range};
ghost use Rattle.jl_srcmap.specs.Mappings.{Reads, pieces_of_group};
ghost use Rattle.jl_srcmap.specs.Segments.{name_field};
ghost use Rattle.jl_srcmap.specs.SourceMap.{IsTextRefusal};
ghost use Rattle.jl_srcmap.specs.inner.Fields.{fields_in};
ghost use Rattle.jl_srcmap.specs.inner.Reading.{IsStopped, kept, origin_with, part_at, parts_from, piece_at, progress};
ghost use Rattle.jl_srcmap.specs.inner.Reading.{read_piece, read_pieces, segment_in};

use crate::quantity::read_field;
use crate::refusal::MapRefusal;
use crate::running::Running;
use crate::segment::{Origin, Segment};
use std::alloc::Global;

const SEMICOLON: u8 = b';';

const COMMA: u8 = b',';

/// The segments of a mappings text; `BadSegment` where a piece of it is no segment, with the place of the first. It is
/// refused for no other cause but want of memory. Its steps are in the order of the length of the text.
pub fn read_mappings(alloc: Global, text: &[u8]) -> Result<Vec<Segment>, MapRefusal>
    ensures read { IfOk result (λ ss. Reads text.now ss.items) }
    ensures refused { IfErr result (λ refusal. IsTextRefusal text.now refusal) }
{
    let mut reader = Reader {
        running: Running::start(),
        segments: Vec::new(alloc),
    };
    let mut line = 0;
    let mut from = 0;
    while from <= text.len() {
        let end = end_of_part(text, from, SEMICOLON);
        let group = &text[from..end];
        reader.read_group(line, from, group)?;
        line += 1;
        from = end + 1;
    }
    Ok(reader.segments)
}

/// What has been read of a text.
#[derive(Drop)]
struct Reader {
    running: Running,
    segments: Vec<Segment>,
}

impl Reader {
    /// Reads the group of a line, which stands at a place of the text.
    fn read_group(&mut self, line: usize, at: usize, group: &[u8]) -> Result<(), MapRefusal>
        requires { at + length group.now < 2 ^ 63 }
        ensures ok { OnOk result
            (read_pieces (progress self.old) (pieces_of_group line at group.now) ≡ progress self.new) }
        ensures err { IfErr result
            (λ e. IsStopped e (read_pieces (progress self.old) (pieces_of_group line at group.now))) }
    {
        if group.is_empty() {
            return Ok(());
        }
        let mut from = 0;
        while from <= group.len() {
            let end = end_of_part(group, from, COMMA);
            let piece = &group[from..end];
            self.read_piece(line, at + from, piece)?;
            from = end + 1;
        }
        Ok(())
    }

    /// Reads a piece of the group of a line, which stands at a place of the text.
    fn read_piece(&mut self, line: usize, at: usize, piece: &[u8]) -> Result<(), MapRefusal>
        ensures ok { OnOk result (read_piece (progress self.old)
            (piece_at line at piece.now) ≡ progress self.new) }
        ensures err { IfErr result (λ e. IsStopped e (read_piece (progress self.old)
            (piece_at line at piece.now))) }
    {
        let Ok(line) = u32::try_from(line) else {
            return Err(MapRefusal::BadSegment { at });
        };
        let Some(segment) = read_segment(self.running.on_line(line), piece) else {
            return Err(MapRefusal::BadSegment { at });
        };
        self.segments.push(segment)?;
        self.running = self.running.after(&segment);
        Ok(())
    }
}

/// The segment that a piece is, after these sums on its line.
fn read_segment(sums: Running, piece: &[u8]) -> Option<Segment>
    ensures { result ≡ segment_in sums.line (kept sums).sums piece.now }
{
    let line = sums.line;
    let (column, rest) = read_field(sums.column, piece)?;
    if rest.is_empty() {
        return Some(Segment {
            line,
            column,
            origin: None,
        });
    }
    let origin = read_origin(sums, rest)?;
    Some(Segment {
        line,
        column,
        origin: Some(origin),
    })
}

/// The origin that the fields after the first make.
fn read_origin(sums: Running, text: &[u8]) -> Option<Origin>
    ensures { result ≡ option_and_then origin_with (fields_in
        (sums.source ∷ sums.original_line ∷ sums.original_column ∷ sums.name ∷ []) text.now) }
{
    let (source, past_source) = read_field(sums.source, text)?;
    let (line, past_line) = read_field(sums.original_line, past_source)?;
    let (column, past_column) = read_field(sums.original_column, past_line)?;
    let name = read_name(sums.name, past_column)?;
    Some(Origin {
        source,
        line,
        column,
        name,
    })
}

/// The name of a segment, if its text has one; `None` where the text is none.
fn read_name(sum: u32, text: &[u8]) -> Option<Option<u32>>
    ensures { option_map name_field result ≡ fields_in (sum ∷ []) text.now }
{
    if text.is_empty() {
        return Some(None);
    }
    let (name, rest) = read_field(sum, text)?;
    if rest.is_empty() {
        Some(Some(name))
    } else {
        None
    }
}

/// The end of the part of a text that begins at a place: the next separator, or the end of the text.
fn end_of_part(text: &[u8], from: usize, separator: u8) -> usize
    requires { from ≤ length text.now }
    ensures from { from ≤ result }
    ensures within { result ≤ length text.now }
    ensures part { (at : ℕ) → parts_from separator at text.now from
        ≡ part_at (at + from) (slice_range text.now from result) ∷ parts_from separator at text.now (result + 1) }
{
    let mut end = from;
    while end < text.len() {
        if text[end] == separator {
            return end;
        }
        end += 1;
    }
    end
}
