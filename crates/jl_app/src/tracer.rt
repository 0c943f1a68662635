//! Who writes down the operations of a run.
ghost use Rattle.std.specs.Prelude.{◌≡◌, ◌++◌, [], List, IfOk, OnOk};
ghost use Rattle.jl_op.specs.Operations.{Operation};
ghost use Rattle.jl_app.specs.Tracing.{trace_line, trace_lines};

use jl_op::{Observer, Op, OpId, op_text};
use jl_text::to_utf8;
use std::alloc::{AllocError, Global};

/// An observer that writes a line for each operation, in UTF-8. Once it finds no memory left, it refuses each later
/// one.
#[derive(Drop)]
pub(crate) struct Tracer {
    alloc: Global,
    lines: Vec<u8>,
    refused: bool,
}

impl Observer for Tracer {
    ghost stands_for = { λ t told. t.lines.items ≡ trace_lines told };

    ghost has_refused = { λ t. t.refused };

    fn see(&mut self, id: OpId, op: &Op) -> Result<(), AllocError> {
        if self.refused {
            return Err(AllocError);
        }
        match self.write(id, op) {
            Ok(()) => Ok(()),
            Err(error) => {
                self.refused = true;
                Err(error)
            }
        }
    }
}

impl Tracer {
    /// One that was told of nothing.
    pub(crate) fn new(alloc: Global) -> Tracer
        ensures { ⟦<Tracer as Observer>⟧.stands_for result [] }
    {
        Tracer {
            alloc,
            lines: Vec::new(alloc),
            refused: false,
        }
    }

    /// The lines, with LF after each.
    pub(crate) fn into_lines(self) -> Vec<u8>
        ensures { (told : List Operation) → ⟦<Tracer as Observer>⟧.stands_for self told
            → result.items ≡ trace_lines told }
    {
        self.lines
    }

    /// Writes the line of one more operation.
    fn write(&mut self, id: OpId, op: &Op) -> Result<(), AllocError>
        ensures line { OnOk result (self.new.lines.items ≡ self.old.lines.items ++ trace_line (id, op.now)) }
        ensures same { self.new.refused ≡ self.old.refused }
    {
        let line = line(self.alloc, id, op)?;
        self.lines.extend_from_slice(&line)?;
        Ok(())
    }
}

/// The line of an operation, in UTF-8, and LF.
fn line(alloc: Global, id: OpId, op: &Op) -> Result<Vec<u8>, AllocError>
    ensures { IfOk result (λ line. line.items ≡ trace_line (id, op.now)) }
{
    let mut line = to_utf8(alloc, &op_text(alloc, id, op)?)?;
    line.push(b'\n')?;
    Ok(line)
}
