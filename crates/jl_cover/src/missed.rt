ghost use Rattle.std.specs.Prelude.{◌≡◌, IfOk};
ghost use Rattle.jl_cover.specs.Coverage.{gap_text, missed_bytes};

use std::alloc::{AllocError, Global};

/// What a run left out at a place.
#[derive(Clone, Copy, PartialEq, Eq, Debug)]
pub enum Gap {
    /// A function was never entered.
    NeverEntered,
    /// A condition was never evaluated.
    NeverReached,
    /// A condition was evaluated, but its value was never true by ToBoolean (9.2).
    NeverTrue,
    /// A condition was true, but never false.
    NeverFalse,
}

/// A place with what a run left out there. Lines and columns count from 1, and columns in UTF-16 units.
#[derive(Clone, Copy, PartialEq, Eq, Debug)]
pub struct Missed {
    pub line: u32,
    pub column: u32,
    pub gap: Gap,
}

impl Gap {
    /// How it is written.
    fn text(self) -> &'static str
        ensures { result.now ≡ gap_text self }
    {
        match self {
            Gap::NeverEntered => "function never entered",
            Gap::NeverReached => "condition never reached",
            Gap::NeverTrue => "condition never true",
            Gap::NeverFalse => "condition never false",
        }
    }
}

/// The text of a line of the answer, `LINE:COLUMN GAP`, in UTF-8 and without a line terminator.
pub fn missed_text(alloc: Global, missed: &Missed) -> Result<Vec<u8>, AllocError>
    ensures { IfOk result (λ text. text.items ≡ missed_bytes missed.now) }
{
    let line = missed.line;
    let column = missed.column;
    let gap = missed.gap.text();
    let text = format!(in alloc; "{line}:{column} {gap}")?;
    Ok(text.into_bytes())
}
