//! Numbers as digits in base64, the least first (Source Map revision 3, "Base64 VLQ").
ghost use Rattle.std.specs.Prelude.{◌≡◌, ◌<◌, ◌≤◌, ◌^◌, ◌++◌, IfSome, OnOk, option_map};
ghost use Rattle.jl_srcmap.specs.Numbers.{below_limit, difference, digit_of, digit_value, digits_of, most_digits};
ghost use Rattle.jl_srcmap.specs.inner.Fields.{field, moved, quantity};

use std::alloc::AllocError;

/// The most digits of a quantity.
const MOST_DIGITS: u32 = 7;

/// The value of a base64 digit.
#[tactic(auto, unfolding(crate::specs::Numbers::digit_value))]
fn digit_value(byte: u8) -> Option<u64>
    ensures value { result ≡ digit_value byte }
    ensures small { IfSome result (λ v. v < 64) }
{
    match byte {
        b'A'..=b'Z' => Some(u64::from(byte) - 65),
        b'a'..=b'z' => Some(u64::from(byte) - 71),
        b'0'..=b'9' => Some(u64::from(byte) + 4),
        b'+' => Some(62),
        b'/' => Some(63),
        _ => None,
    }
}

/// The quantity that the first digits of a text make, if they are at most so many, and what follows them.
#[tactic(auto, unfolding(crate::specs::inner::Fields::quantity))]
fn read_quantity(text: &[u8], most: u32) -> Option<(u64, &[u8])>
    requires { most ≤ most_digits }
    ensures value { option_map (λ r. (r.0, r.1.now)) result ≡ quantity most text.now }
    ensures bound { IfSome result (λ r. r.0 < 32 ^ most) }
{
    if most == 0 {
        return None;
    }
    let [byte, rest @ ..] = text else {
        return None;
    };
    let value = digit_value(*byte)?;
    if value < 32 {
        return Some((value, rest));
    }
    let (more, rest) = read_quantity(rest, most - 1)?;
    Some((value - 32 + 32 * more, rest))
}

/// Where a quantity leads from a sum, if that is below 2^32: its lowest bit is the sign, and the rest is the size.
#[tactic(auto, unfolding(crate::specs::inner::Fields::moved))]
fn moved(quantity: u64, sum: u32) -> Option<u32>
    requires { quantity < 2 ^ 35 }
    ensures { result ≡ moved quantity sum }
{
    let size = quantity / 2;
    let sum = u64::from(sum);
    let next = if quantity % 2 == 0 {
        sum + size
    } else {
        sum.checked_sub(size)?
    };
    u32::try_from(next).ok()
}

/// The field that a text begins with, after this sum, and what follows it.
#[tactic(auto, unfolding(crate::specs::inner::Fields::field))]
pub(crate) fn read_field(sum: u32, text: &[u8]) -> Option<(u32, &[u8])>
    ensures { option_map (λ r. (r.0, r.1.now)) result ≡ field sum text.now }
{
    let (quantity, rest) = read_quantity(text, MOST_DIGITS)?;
    let next = moved(quantity, sum)?;
    Some((next, rest))
}

/// The base64 digit of a value.
#[tactic(auto, unfolding(crate::specs::Numbers::digit_of))]
fn digit_of(value: u64) -> u8
    requires { value < 64 }
    ensures { result ≡ digit_of value }
{
    match value as u8 {
        value @ 0..=25 => value + 65,
        value @ 26..=51 => value + 71,
        value @ 52..=61 => value - 4,
        62 => b'+',
        _ => b'/',
    }
}

/// Adds the fewest digits of a quantity.
fn push_quantity(text: &mut Vec<u8>, quantity: u64) -> Result<(), AllocError>
    requires { quantity < 2 ^ 35 }
    ensures { OnOk result (text.new.items ≡ text.old.items ++ digits_of quantity) }
{
    let mut left = quantity;
    while left >= 32 {
        text.push(digit_of(32 + left % 32))?;
        left /= 32;
    }
    text.push(digit_of(left))?;
    Ok(())
}

/// Adds a field after this sum.
pub(crate) fn push_field(text: &mut Vec<u8>, sum: u32, field: u32) -> Result<(), AllocError>
    ensures text { OnOk result (text.new.items ≡ text.old.items ++ digits_of (difference sum field)) }
    ensures small { below_limit field }
{
    let quantity = if sum <= field {
        2 * u64::from(field - sum)
    } else {
        2 * u64::from(sum - field) + 1
    };
    push_quantity(text, quantity)
}
