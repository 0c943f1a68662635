// Text between quotes, as a program may write it.
ghost use Rattle.std.specs.Prelude.{◌≡◌, ◌<◌, ◌++◌, IfOk, OnOk, slice_index};
ghost use Rattle.std.specs.Char.{digit_char};
ghost use Rattle.jl_text.specs.Quoted.{quote, quoted_unit, short_escape, is_lone, is_hidden, unicode_escape};

use std::alloc::{AllocError, Global};

const QUOTE: u16 = 0x22;

const BACKSLASH: u16 = 0x5C;

/// The unit at a place, and 0 past the end.
pub(crate) fn unit_at(units: &[u16], at: usize) -> u16
    ensures { result ≡ slice_index units.now at }
{
    match units.get(at) {
        Some(unit) => *unit,
        None => 0,
    }
}

/// These units between quotes, as a string literal (7.8.4) that has them as its value. A quote and a backslash get a
/// backslash, LF, CR, TAB, BS and FF are written by their letters, and other control characters, U+2028, U+2029 and
/// surrogates without a partner as `\u` and four hexadecimal digits. One pass.
pub fn quote(alloc: Global, units: &[u16]) -> Result<Vec<u16>, AllocError>
    ensures { IfOk result (λ made. made.items ≡ quote units.now) }
{
    let mut made = Vec::with_capacity(alloc, units.len() + 2)?;
    made.push(QUOTE)?;
    let mut before = 0;
    for (at, unit) in units.iter().enumerate() {
        push_quoted(&mut made, before, *unit, unit_at(units, at + 1))?;
        before = *unit;
    }
    made.push(QUOTE)?;
    Ok(made)
}

fn push_quoted(made: &mut Vec<u16>, before: u16, unit: u16, after: u16) -> Result<(), AllocError>
    ensures { OnOk result (made.new.items ≡ made.old.items ++ quoted_unit before unit after) }
{
    if let Some(letter) = short_escape(unit) {
        made.extend_from_slice(&[BACKSLASH, letter])?;
        return Ok(());
    }
    if is_hidden(unit) || is_lone(before, unit, after) {
        let digits = unicode_escape(unit);
        made.extend_from_slice(&digits)?;
        return Ok(());
    }
    made.push(unit)?;
    Ok(())
}

fn short_escape(unit: u16) -> Option<u16>
    ensures { result ≡ short_escape unit }
{
    match unit {
        QUOTE | BACKSLASH => Some(unit),
        0x0A => Some(0x6E),
        0x0D => Some(0x72),
        0x09 => Some(0x74),
        0x08 => Some(0x62),
        0x0C => Some(0x66),
        _ => None,
    }
}

fn is_hidden(unit: u16) -> bool
    ensures { result ≡ is_hidden unit }
{
    unit < 0x20 || (0x7F <= unit && unit <= 0x9F) || unit == 0x2028 || unit == 0x2029
}

fn is_lone(before: u16, unit: u16, after: u16) -> bool
    ensures { result ≡ is_lone before unit after }
{
    let high = |u: u16| 0xD800 <= u && u < 0xDC00;
    let low = |u: u16| 0xDC00 <= u && u < 0xE000;
    (high(unit) && !low(after)) || (low(unit) && !high(before))
}

fn unicode_escape(unit: u16) -> [u16; 6]
    ensures { result ≡ unicode_escape unit }
{
    [
        BACKSLASH,
        0x75,
        hex_digit(unit / 0x1000),
        hex_digit(unit / 0x100 % 0x10),
        hex_digit(unit / 0x10 % 0x10),
        hex_digit(unit % 0x10),
    ]
}

fn hex_digit(digit: u16) -> u16
    requires { digit < 16 }
    ensures { result ≡ digit_char digit }
{
    if digit < 10 { 48 + digit } else { 87 + digit }
}
