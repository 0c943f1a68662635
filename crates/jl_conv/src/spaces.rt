//! Spaces at the ends of strings (9.3.1, 15.5.4.20).
ghost use Rattle.std.specs.Prelude.{◌≡◌};
ghost use Rattle.jl_conv.specs.Numerals.{is_space, without_end, without_front};

use jl_lex::{is_line_terminator, is_white_space};

/// Whether a unit is white space or ends a line (7.2, 7.3).
fn is_space(unit: u16) -> bool
    ensures { result ≡ is_space unit }
{
    is_white_space(unit) || is_line_terminator(unit)
}

/// The UTF-16 units without the spaces in front, each of which is looked at once.
pub fn without_front(units: &[u16]) -> &[u16]
    ensures { result.now ≡ without_front units.now }
{
    let mut from = 0;
    while from < units.len() && is_space(units[from]) {
        from += 1;
    }
    &units[from..]
}

/// The UTF-16 units without the spaces at the end, each of which is looked at once.
pub fn without_end(units: &[u16]) -> &[u16]
    ensures { result.now ≡ without_end units.now }
{
    let mut end = units.len();
    while end > 0 && is_space(units[end - 1]) {
        end -= 1;
    }
    &units[..end]
}
