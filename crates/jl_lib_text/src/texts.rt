//! Strings that are no longer than one that there is.
ghost use Rattle.std.specs.Prelude.{◌≡◌, ◌≤◌, length, slice_range, IfOk};
ghost use Rattle.jl_text.specs.Limits.{most_units};

use jl_text::{NoMemory, Text, TextFault};
use std::alloc::Global;

/// The string of these units.
pub(crate) fn text_of_units(alloc: Global, units: &[u16]) -> Result<Text, NoMemory>
    requires { length units.now ≤ most_units }
    ensures { IfOk result (λ text. text ≡ units.now) }
{
    match Text::from_units(alloc, units) {
        Ok(text) => Ok(text),
        Err(TextFault::NoMemory) => Err(NoMemory),
        Err(TextFault::TooLong) => unreachable!(),
    }
}

/// The units from one place to the one before another; none where that isn't after the first.
pub(crate) fn range_of(
    alloc: Global,
    units: &Text,
    from: usize,
    to: usize,
) -> Result<Text, NoMemory>
    requires { to ≤ length units.now }
    ensures { IfOk result (λ text. text ≡ slice_range units.now from to) }
{
    if from < to {
        return units.slice(alloc, from, to);
    }
    text_of_units(alloc, &[])
}
