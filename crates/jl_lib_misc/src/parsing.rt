//! What `parseInt` reads of a string (15.1.2.2).
ghost use Rattle.std.specs.Prelude.{◌≡◌, ◌≤◌, MatchOption, Option, Some};
ghost use Rattle.std.specs.Result.{result_ok};
ghost use Rattle.jl_num.specs.Number.{largest};
ghost use Rattle.jl_conv.specs.Numerals.{with_sign, without_front};
ghost use Rattle.jl_lib_misc.specs.inner.Radix.{IsWithin, leading_number};
ghost use Rattle.jl_meaning.specs.builtins.Global.{after_hex_prefix, digit_of, parse_after_prefix, parse_after_sign};
ghost use Rattle.jl_meaning.specs.builtins.Global.{parse_in_radix, parse_signed};
ghost use Rattle.jl_num.specs.Arithmetic.{number_of};

use jl_conv::without_front;
use jl_num::{LARGEST_SIZE, Num, NumberOutside};

const PLUS: u16 = 0x2b;

const MINUS: u16 = 0x2d;

/// The value of a unit as a digit; one that is no digit has 36.
#[tactic(auto, unfolding(jl_token::specs::Characters::is_digit))]
fn digit_of(unit: u16) -> u64
    ensures { result ≡ digit_of unit }
{
    if 48 <= unit && unit <= 57 {
        u64::from(unit - 48)
    } else if 97 <= unit && unit <= 122 {
        u64::from(unit - 87)
    } else if 65 <= unit && unit <= 90 {
        u64::from(unit - 55)
    } else {
        36
    }
}

/// The number that the digits in front write, if it is none past the largest. It reads no further than it has to.
fn leading_number(radix: u64, units: &[u16]) -> Option<u64>
    requires low { 2 ≤ radix }
    requires high { radix ≤ 36 }
    ensures { IsWithin largest (leading_number radix 0 units.now) result }
{
    let mut number = 0;
    for unit in units {
        let digit = digit_of(*unit);
        if digit >= radix {
            return Some(number);
        }
        number = number * radix + digit;
        if number > LARGEST_SIZE {
            return None;
        }
    }
    Some(number)
}

/// The whole number of this size, or its negative.
fn whole(negative: bool, size: u64) -> Result<Num, NumberOutside>
    requires { size ≤ largest }
    ensures { result_ok result ≡ number_of (with_sign negative size) }
{
    let size = size as i64;
    Num::new(if negative { -size } else { size })
}

/// The number that the digits in front write in a radix; NaN where there is none (steps 11 to 15).
fn parse_in_radix(negative: bool, radix: u64, units: &[u16]) -> Result<Num, NumberOutside>
    requires low { 2 ≤ radix }
    requires high { radix ≤ 36 }
    ensures { result_ok result ≡ parse_in_radix negative radix units.now }
{
    if units.is_empty() || digit_of(units[0]) >= radix {
        return Ok(Num::NAN);
    }
    match leading_number(radix, units) {
        Some(size) => whole(negative, size),
        None => Err(NumberOutside),
    }
}

/// What stands after a `0x` in front, if it is there (step 10).
fn after_hex_prefix(units: &[u16]) -> Option<&[u16]>
    ensures { MatchOption result (after_hex_prefix units.now ≡ Option.None)
        (λ rest. after_hex_prefix units.now ≡ Some rest.now) }
{
    if units.len() >= 2 && units[0] == 0x30 && (units[1] == 0x78 || units[1] == 0x58) {
        return Some(&units[2..]);
    }
    None
}

/// The number in radix 16 after such a sign, and else in this radix.
fn parse_after_prefix(negative: bool, radix: u64, units: &[u16]) -> Result<Num, NumberOutside>
    requires low { 2 ≤ radix }
    requires high { radix ≤ 36 }
    ensures { result_ok result ≡ parse_after_prefix negative radix units.now (after_hex_prefix units.now) }
{
    match after_hex_prefix(units) {
        Some(rest) => parse_in_radix(negative, 16, rest),
        None => parse_in_radix(negative, radix, units),
    }
}

/// The number after a sign: of the radixes 0 stands for 10, and it and 16 allow a `0x` (steps 7 to 15).
fn parse_after_sign(negative: bool, radix: i32, units: &[u16]) -> Result<Num, NumberOutside>
    ensures { result_ok result ≡ parse_after_sign negative radix units.now }
{
    match radix {
        0 => parse_after_prefix(negative, 10, units),
        16 => parse_after_prefix(negative, 16, units),
        2..=36 => parse_in_radix(negative, radix as u64, units),
        _ => Ok(Num::NAN),
    }
}

/// The number that a string writes in front, after spaces and a sign (15.1.2.2).
pub(crate) fn parse_signed(radix: i32, units: &[u16]) -> Result<Num, NumberOutside>
    ensures { result_ok result ≡ parse_signed radix (without_front units.now) }
{
    let units = without_front(units);
    if units.is_empty() {
        return Ok(Num::NAN);
    }
    if units[0] == MINUS {
        return parse_after_sign(true, radix, &units[1..]);
    }
    if units[0] == PLUS {
        return parse_after_sign(false, radix, &units[1..]);
    }
    parse_after_sign(false, radix, units)
}
