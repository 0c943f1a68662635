ghost use Rattle.std.specs.Prelude.{◌≡◌, ◌<◌, ◌+◌, length, IfOk};
ghost use Rattle.jl_text.specs.Places.{line_table};
ghost use Rattle.jl_app.specs.Positions.{position};

use crate::position::Position;
use jl_text::Lines;
use std::alloc::{AllocError, Global};
use std::marker::Model;

/// The UTF-16 units of a script, and where its lines start. Contracts see the units.
#[derive(Drop)]
pub struct Source {
    units: Vec<u16>,
    lines: Lines,
}

impl Model for Source {
    ghost use Rattle.std.specs.Prelude.{◌≡◌, ◌<◌, ℕ, List, length};
    ghost use Rattle.jl_text.specs.Places.{line_table};

    ghost Value = { List ℕ };

    ghost view = { λ s. s.units.items };

    ghost invariant = { λ s. (length s.units.items < 4294967295) × (s.lines ≡ line_table s.units.items) };
}

impl Source {
    /// The source of these units.
    pub fn new(alloc: Global, units: Vec<u16>) -> Result<Source, AllocError>
        requires { length units.items < 4294967295 }
        ensures { IfOk result (λ s. s ≡ units.items) }
    {
        let lines = Lines::new(alloc, &units)?;
        Ok(Source { units, lines })
    }

    /// Its units.
    pub fn units(&self) -> &[u16]
        ensures same { result.now ≡ self.now }
        ensures short { length self.now < 4294967295 }
    {
        &self.units
    }

    /// Its lines.
    pub fn lines(&self) -> &Lines
        ensures { result.now ≡ line_table self.now }
    {
        &self.lines
    }

    /// The line and the column of a place. A place past the end is told as the end. It takes a number of steps in the
    /// order of the logarithm of the number of lines.
    pub fn position(&self, at: u32) -> Position
        ensures { result ≡ position self.now at }
    {
        let within = at.min(self.units().len() as u32);
        let (line, column) = self.lines.line_col(within);
        Position { line, column }
    }
}
