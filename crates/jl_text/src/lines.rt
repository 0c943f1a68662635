// The lines of a source (7.3).
ghost use Rattle.std.specs.Prelude.{◌≡◌, ◌<◌, ◌≤◌, ◌-◌, ℕ, List, length, slice_index, IfOk};
ghost use Rattle.std.specs.List.Sorted.{IsNonDecreasing};
ghost use Rattle.jl_text.specs.Places.{ends_line, line_at, line_table, line_col, position_of};

use crate::quoting::unit_at;
use std::alloc::{AllocError, Global};
use std::marker::Model;

/// Where the lines of a source start. Contracts see the list of those places and the number of units.
#[derive(Debug, Drop)]
pub struct Lines {
    starts: Vec<u32>,
    end: u32,
}

impl Model for Lines {
    ghost use Rattle.jl_text.specs.Places.{LineTable, IsLineTable};

    ghost Value = { LineTable };

    ghost view = { λ l. record { starts = l.starts.items; end = l.end } };

    ghost invariant = { λ l. IsLineTable l.starts.items l.end };
}

impl Lines {
    /// The lines of these units, in one pass. A line ends with LF, CR, U+2028 or U+2029, or with CR LF.
    pub fn new(alloc: Global, units: &[u16]) -> Result<Lines, AllocError>
        requires { length units.now < 4294967295 }
        ensures { IfOk result (λ lines. lines ≡ line_table units.now) }
    {
        let mut starts = Vec::new(alloc);
        starts.push(0)?;
        for (at, unit) in units.iter().enumerate() {
            if ends_line(*unit, unit_at(units, at + 1)) {
                starts.push(at as u32 + 1)?;
            }
        }
        Ok(Lines {
            starts,
            end: units.len() as u32,
        })
    }

    /// The line and the column of a place, which count from 1; columns count units. A place between CR and LF is on
    /// the line that they end. It takes a number of steps in the order of the logarithm of the number of lines.
    pub fn line_col(&self, at: u32) -> (u32, u32)
        requires { at ≤ self.now.end }
        ensures value { result ≡ line_col self.now at }
        ensures source { (units : List ℕ) → self.now ≡ line_table units → result ≡ position_of units at }
    {
        let line = lines_begun(&self.starts, at);
        let start = self.starts[line - 1];
        (line as u32, at - start + 1)
    }
}

/// How many lines start at or before a place.
fn lines_begun(starts: &[u32], at: u32) -> usize
    requires { IsNonDecreasing starts.now }
    ensures bound { result ≤ length starts.now }
    ensures value { result ≡ line_at starts.now at }
    ensures last { 0 < result → slice_index starts.now (result - 1) ≤ at }
{
    starts.partition_point(|start| *start <= at)
}

/// Whether a line ends with this unit, before the unit `next`.
fn ends_line(unit: u16, next: u16) -> bool
    ensures { result ≡ ends_line unit next }
{
    match unit {
        0x0D => next != 0x0A,
        0x0A | 0x2028 | 0x2029 => true,
        _ => false,
    }
}
