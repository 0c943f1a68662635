//! Running sums, by which numbers of a mappings text are differences.
ghost use Rattle.std.specs.Prelude.{◌≡◌};
ghost use Rattle.jl_srcmap.specs.Mappings.{after, start, sums_on};
ghost use Rattle.jl_srcmap.specs.Numbers.{below_limit};
ghost use Rattle.jl_srcmap.specs.inner.Reading.{kept};

use crate::segment::Segment;

/// How far a text has been read or written: the line of the last segment, and the last of each field.
#[derive(Clone, Copy)]
pub(crate) struct Running {
    pub(crate) line: u32,
    pub(crate) column: u32,
    pub(crate) source: u32,
    pub(crate) original_line: u32,
    pub(crate) original_column: u32,
    pub(crate) name: u32,
}

impl Running {
    /// Before the first segment.
    pub(crate) fn start() -> Running
        ensures { kept result ≡ start }
    {
        Running {
            line: 0,
            column: 0,
            source: 0,
            original_line: 0,
            original_column: 0,
            name: 0,
        }
    }

    /// Before a segment on a line: the column begins anew on another line than the last.
    pub(crate) fn on_line(self, line: u32) -> Running
        ensures sums { (kept result).sums ≡ sums_on line (kept self) }
        ensures line { result.line ≡ line }
        ensures small { below_limit line }
    {
        let column = if line == self.line { self.column } else { 0 };
        Running {
            line,
            column,
            ..self
        }
    }

    /// After a segment.
    pub(crate) fn after(self, segment: &Segment) -> Running
        ensures { kept result ≡ after (kept self) segment.now }
    {
        let column = segment.column;
        let line = segment.line;
        match segment.origin {
            None => Running {
                line,
                column,
                ..self
            },
            Some(origin) => Running {
                line,
                column,
                source: origin.source,
                original_line: origin.line,
                original_column: origin.column,
                name: origin.name.unwrap_or(self.name),
            },
        }
    }
}
