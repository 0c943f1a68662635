ghost use Rattle.std.specs.Prelude.{◌≡◌, ◌<◌, ◌-◌, ◌^◌, [], ◌∷◌, ◌++◌, All, Some, length, slice_get, IfOk, OnOk, OnErr};
ghost use Rattle.std.specs.Prelude.{option_map};
ghost use Rattle.std.specs.String.{string_bytes};
ghost use Rattle.jl_op.specs.Map.{HasRow, BeginsIn, id_after, row_line, map_lines};

use crate::kind::OpKind;
use crate::op::OpId;
use jl_text::{Lines, Span};
use std::alloc::{AllocError, Global};
use std::marker::Model;

/// What each id of a script stands for: a kind of operation, and the part of the source that does it. Contracts see the
/// list of these rows, where the first one has the id 1.
#[derive(Drop)]
pub struct OpMap {
    rows: Vec<(OpKind, Span)>,
}

impl Model for OpMap {
    ghost use Rattle.std.specs.Prelude.{List, ◌<◌, ◌^◌, length};
    ghost use Rattle.jl_op.specs.Map.{MapRow};

    ghost Value = { List MapRow };

    ghost view = { λ m. m.rows.items };

    ghost invariant = { λ m. length m.rows.items < 2 ^ 32 };
}

impl OpMap {
    /// No rows.
    pub fn new(alloc: Global) -> OpMap
        ensures { result ≡ [] }
    {
        OpMap {
            rows: Vec::new(alloc),
        }
    }

    /// How many rows there are, which is the greatest id.
    pub fn len(&self) -> u32
        ensures { result ≡ length self.now }
    {
        self.rows.len() as u32
    }

    /// Adds a row, and gives its id. Where no memory is left, the map stays as it was.
    pub fn add(&mut self, kind: OpKind, span: Span) -> Result<OpId, AllocError>
        requires { length self.old < 2 ^ 32 - 1 }
        ensures id { IfOk result (λ id. id ≡ id_after (length self.old)) }
        ensures ok { OnOk result (self.new ≡ self.old ++ (kind, span) ∷ []) }
        ensures err { OnErr result (self.new ≡ self.old) }
    {
        self.rows.push((kind, span))?;
        Ok(OpId(self.rows.len() as u32))
    }

    /// The part of the source that does the operation with this id.
    pub fn place_of(&self, id: OpId) -> Span
        requires { HasRow self.now id }
        ensures { option_map (λ row. row.1) (slice_get self.now (id.0 - 1)) ≡ Some result }
    {
        self.rows[id.0 as usize - 1].1
    }

    /// The kind of the operation with this id.
    pub fn kind_of(&self, id: OpId) -> OpKind
        requires { HasRow self.now id }
        ensures { option_map (λ row. row.0) (slice_get self.now (id.0 - 1)) ≡ Some result }
    {
        self.rows[id.0 as usize - 1].0
    }
}

/// The text of a map, in UTF-8: a line `ID KIND LINE:COLUMN` for each row, by rising id. A place is looked up in a
/// number of steps in the order of the logarithm of the number of lines.
pub fn map_text(alloc: Global, map: &OpMap, lines: &Lines) -> Result<Vec<u8>, AllocError>
    requires { All (BeginsIn lines.now) map.now }
    ensures { IfOk result (λ text. text.items ≡ map_lines lines.now map.now) }
{
    let mut text = Vec::new(alloc);
    for (index, row) in map.rows.iter().enumerate() {
        let id = OpId(index as u32 + 1);
        text.extend_from_slice(row_text(alloc, id, row, lines)?.as_bytes())?;
    }
    Ok(text)
}

fn row_text(
    alloc: Global,
    id: OpId,
    row: &(OpKind, Span),
    lines: &Lines,
) -> Result<String, AllocError>
    requires { BeginsIn lines.now row.now }
    ensures { IfOk result (λ text. string_bytes text ≡ row_line lines.now id row.now) }
{
    let number = id.0;
    let name = row.0.name();
    let (line, column) = lines.line_col(row.1.from);
    format!(in alloc; "{number} {name} {line}:{column}\n")
}
