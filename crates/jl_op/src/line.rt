// The lines of a trace, as they are made.
ghost use Rattle.std.specs.Prelude.{◌≡◌, ◌∷◌, ◌++◌, map, IfOk};
ghost use Rattle.std.specs.Fmt.{decimal};
ghost use Rattle.jl_text.specs.Quoted.{quote};
ghost use Rattle.jl_op.specs.Trace.{callee_text, function_text, seen_text, with_spaces, truth_text, way_text};

use crate::callee::Callee;
use crate::op::OpId;
use jl_text::{Text, quote};
use jl_value::Seen;
use std::alloc::{AllocError, Global};
use std::marker::Model;

/// A line that grows by parts. Contracts see its units.
#[derive(Drop)]
pub(crate) struct Line {
    alloc: Global,
    units: Vec<u16>,
}

impl Model for Line {
    ghost use Rattle.std.specs.Prelude.{List, ℕ};

    ghost Value = { List ℕ };

    ghost view = { λ l. l.units.items };
}

impl Line {
    /// The line that is a number so far.
    pub(crate) fn of(alloc: Global, id: OpId) -> Result<Line, AllocError>
        ensures { IfOk result (λ line. line ≡ decimal id.0) }
    {
        let number = id.0;
        let digits = format!(in alloc; "{number}")?;
        let units = widen(alloc, digits.as_bytes())?;
        Ok(Line { alloc, units })
    }

    /// One more part, after a space.
    pub(crate) fn part(self, part: &[u16]) -> Result<Line, AllocError>
        ensures { IfOk result (λ line. line ≡ self ++ 32 ∷ part.now) }
    {
        let Line { alloc, mut units } = self;
        units.push(0x20)?;
        units.extend_from_slice(part)?;
        Ok(Line { alloc, units })
    }

    pub(crate) fn word(self, word: &str) -> Result<Line, AllocError>
        ensures { IfOk result (λ line. line ≡ self ++ 32 ∷ word.now) }
    {
        let units = widen(self.alloc, word.as_bytes())?;
        self.part(&units)
    }

    pub(crate) fn number(self, number: u64) -> Result<Line, AllocError>
        ensures { IfOk result (λ line. line ≡ self ++ 32 ∷ decimal number) }
    {
        let digits = format!(in self.alloc; "{number}")?;
        self.word(&digits)
    }

    pub(crate) fn function(self, number: u32) -> Result<Line, AllocError>
        ensures { IfOk result (λ line. line ≡ self ++ 32 ∷ function_text number) }
    {
        let text = format!(in self.alloc; "f{number}")?;
        self.word(&text)
    }

    pub(crate) fn callee(self, callee: &Callee) -> Result<Line, AllocError>
        ensures { IfOk result (λ line. line ≡ self ++ 32 ∷ callee_text callee.now) }
    {
        match callee {
            Callee::Script { function, .. } => self.function(*function),
            Callee::Native(builtin) => self.word(builtin.name()),
        }
    }

    pub(crate) fn way(self, by_new: bool) -> Result<Line, AllocError>
        ensures { IfOk result (λ line. line ≡ self ++ 32 ∷ way_text by_new) }
    {
        self.word(if by_new { "new" } else { "call" })
    }

    pub(crate) fn truth(self, truth: bool) -> Result<Line, AllocError>
        ensures { IfOk result (λ line. line ≡ self ++ 32 ∷ truth_text truth) }
    {
        self.word(if truth { "true" } else { "false" })
    }

    pub(crate) fn text(self, text: &Text) -> Result<Line, AllocError>
        ensures { IfOk result (λ line. line ≡ self ++ 32 ∷ quote text.now) }
    {
        let quoted = quote(self.alloc, text.units())?;
        self.part(&quoted)
    }

    pub(crate) fn quoted_word(self, word: &str) -> Result<Line, AllocError>
        ensures { IfOk result (λ line. line ≡ self ++ 32 ∷ quote word.now) }
    {
        let units = widen(self.alloc, word.as_bytes())?;
        let quoted = quote(self.alloc, &units)?;
        self.part(&quoted)
    }

    pub(crate) fn seen_value(self, seen: &Seen) -> Result<Line, AllocError>
        ensures { IfOk result (λ line. line ≡ self ++ 32 ∷ seen_text seen.now) }
    {
        let text = seen.text(self.alloc)?;
        self.part(&text)
    }

    /// A part for each value.
    pub(crate) fn all_seen(self, values: &[Seen]) -> Result<Line, AllocError>
        ensures { IfOk result (λ line. line ≡ self ++ with_spaces (map seen_text values.now)) }
    {
        let mut line = self;
        for value in values {
            line = line.seen_value(value)?;
        }
        Ok(line)
    }

    /// Its units.
    pub(crate) fn into_units(self) -> Vec<u16>
        ensures { result.items ≡ self }
    {
        self.units
    }
}

// A unit for each byte.
fn widen(alloc: Global, bytes: &[u8]) -> Result<Vec<u16>, AllocError>
    ensures { IfOk result (λ units. units.items ≡ bytes.now) }
{
    let mut units = Vec::with_capacity(alloc, bytes.len())?;
    for byte in bytes {
        units.push(u16::from(*byte))?;
    }
    Ok(units)
}
