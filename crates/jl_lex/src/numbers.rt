//! Numbers (7.8.3). A literal is valued in one pass over its digits, whatever its length and its exponent: its digits
//! are kept without the zeros at their end, which are counted, and no more of them than a number of a script can have.
ghost use Rattle.std.specs.Prelude.{◌≡◌, ◌+◌, ◌-◌, ◌*◌, ◌<◌, ◌≤◌, ◌==◌, ◌&&◌, ◌||◌, ◌^◌, nat_le, if◌then◌else◌, ℕ};
ghost use Rattle.std.specs.Prelude.{List, Some, None, true, drop, length, IfSome, MatchOption};
ghost use Rattle.jl_num.specs.Number.{largest};
ghost use Rattle.jl_token.specs.Characters.{is_digit, is_hex_digit, decimal_from, first_is};
ghost use Rattle.jl_token.specs.inner.Scanner.{many, one_unit, some_digits, exponent, exponent_by, with_exponent};
ghost use Rattle.jl_token.specs.inner.Scanner.{after_fraction, after_whole, after_zero, hex_literal, numeral};
ghost use Rattle.jl_token.specs.inner.Scanner.{number_end};
ghost use Rattle.jl_lex.specs.inner.Amounts.{scale, add_digit, add_digits, value_from, if_number, capped_from};
ghost use Rattle.jl_lex.specs.inner.Amounts.{hex_capped_from, NumeralFrom, ExponentFrom, Stands};
ghost use Rattle.jl_lex.specs.inner.Answers.{IsFrom};

use crate::characters::{is_at, is_digit, is_digit_at, unit_at};
use crate::element::{Element, Stop};
use crate::names::{hex_at, letter_at};
use jl_num::{LARGEST_SIZE, Num};
use jl_token::{BadKind, TokenKind};

// 2^40: an exponent as large as this is as good as any larger one.
const ENOUGH: u64 = 1_099_511_627_776;

/// The digits that were read: `coefficient` and so many zeros. A coefficient past `LARGEST_SIZE` says no more than
/// that.
#[derive(Clone, Copy)]
pub struct Amount {
    pub coefficient: u64,
    pub zeros: u64,
}

/// An exponent: the power of ten to multiply by and the one to divide by, and the place after it.
#[derive(Clone, Copy)]
pub struct Exponent {
    pub raise: u64,
    pub lower: u64,
    pub end: usize,
}

/// The number that an exponent's digits write, as far as `ENOUGH`, and the place after them.
#[derive(Clone, Copy)]
pub struct Power {
    pub number: u64,
    pub end: usize,
}

/// A literal: its value, where that is a number of a script, and the place after it.
#[derive(Clone, Copy)]
pub struct Numeral {
    pub value: Option<u64>,
    pub end: usize,
}

// Ten times a number, so many times, as long as it isn't past `LARGEST_SIZE`: at most ten times that, and so
// 90071992547409919 with a digit after it.
fn scale(number: u64, times: u64) -> u64
    requires { number ≤ 90071992547409910 }
    ensures value { result ≡ scale number times }
    ensures small { result ≤ 90071992547409910 }
{
    let mut value = number;
    let mut left = times;
    while left > 0 {
        if value > LARGEST_SIZE {
            return value;
        }
        value *= 10;
        left -= 1;
    }
    value
}

// The value of a digit.
#[tactic(auto, unfolding(jl_token::specs::Characters::is_digit))]
fn digit_value(unit: u16) -> u64
    requires { is_digit unit ≡ true }
    ensures value { result ≡ unit - 48 }
    ensures small { result < 10 }
{
    u64::from(unit - 48)
}

// One more digit.
#[tactic(auto, unfolding(crate::specs::inner::Amounts::add_digit))]
fn add_digit(amount: Amount, unit: u16) -> Amount
    requires digit { is_digit unit ≡ true }
    requires small { amount.coefficient ≤ 90071992547409919 }
    requires few { amount.zeros < 4294967296 }
    ensures amount { (result.coefficient, result.zeros) ≡ add_digit unit (amount.coefficient, amount.zeros) }
    ensures small { result.coefficient ≤ 90071992547409919 }
    ensures few { result.zeros ≤ amount.zeros + 1 }
{
    if unit == 48 {
        if amount.coefficient == 0 {
            return amount;
        }
        return Amount {
            coefficient: amount.coefficient,
            zeros: amount.zeros + 1,
        };
    }
    if amount.coefficient > LARGEST_SIZE {
        return amount;
    }
    Amount {
        coefficient: scale(amount.coefficient, amount.zeros + 1) + digit_value(unit),
        zeros: 0,
    }
}

// The digits at a place after those that were read, and the place after them.
fn digits(units: &[u16], at: usize, amount: Amount) -> (Amount, usize)
    requires within { at ≤ length units.now }
    requires short { length units.now < 2 ^ 32 }
    requires small { amount.coefficient ≤ 90071992547409919 }
    requires few { amount.zeros ≤ at }
    ensures amount { (result.0.coefficient, result.0.zeros)
        ≡ add_digits (amount.coefficient, amount.zeros) (many (one_unit is_digit) (drop at units.now)).0 }
    ensures rest { drop result.1 units.now ≡ (many (one_unit is_digit) (drop at units.now)).1 }
    ensures small { result.0.coefficient ≤ 90071992547409919 }
    ensures few { result.0.zeros ≤ result.1 }
    ensures later { at ≤ result.1 }
    ensures within { result.1 ≤ length units.now }
{
    let mut read = amount;
    let mut end = at;
    while let Some(unit) = unit_at(units, end) {
        if !is_digit(unit) {
            break;
        }
        read = add_digit(read, unit);
        end += 1;
    }
    (read, end)
}

// The value of these digits with this exponent, where it is a number of a script.
#[tactic(auto, unfolding(crate::specs::inner::Amounts::value_from, crate::specs::inner::Amounts::if_number))]
fn value(amount: Amount, raise: u64, lower: u64) -> Option<u64>
    requires small { amount.coefficient ≤ 90071992547409919 }
    requires few { amount.zeros < 4294967296 }
    requires raise { raise ≤ 10995116277769 }
    ensures { result ≡ value_from amount.coefficient amount.zeros raise lower }
{
    if amount.coefficient == 0 {
        return Some(0);
    }
    if amount.coefficient > LARGEST_SIZE {
        return None;
    }
    let total = amount.zeros + raise;
    if total < lower {
        return None;
    }
    let number = scale(amount.coefficient, total - lower);
    if number > LARGEST_SIZE {
        None
    } else {
        Some(number)
    }
}

// An exponent's digits at a place, if they are there.
fn exponent_digits(units: &[u16], at: usize) -> Option<Power>
    requires { at ≤ length units.now }
    ensures digits { MatchOption result (some_digits is_digit (drop at units.now) ≡ None)
        (λ x. (some_digits is_digit (drop at units.now) ≡ Some (
          (many (one_unit is_digit)
              (drop at units.now)).0,
          drop x.end units.now,
        ))
        × (x.number ≡ capped_from 0 (many (one_unit is_digit) (drop at units.now)).0)) }
    ensures small { IfSome result (λ x. (x.number ≤ 10995116277769) × (at ≤ x.end) × (x.end ≤ length units.now)) }
{
    if !is_digit_at(units, at) {
        return None;
    }
    let mut number = 0;
    let mut end = at;
    while let Some(unit) = unit_at(units, end) {
        if !is_digit(unit) {
            break;
        }
        number = add_exponent_digit(number, unit);
        end += 1;
    }
    Some(Power { number, end })
}

fn add_exponent_digit(number: u64, unit: u16) -> u64
    requires digit { is_digit unit ≡ true }
    requires small { number ≤ 10995116277769 }
    ensures value { result ≡ (if nat_le 1099511627776 number then number else number * 10 + (unit - 48)) }
    ensures small { result ≤ 10995116277769 }
{
    if number >= ENOUGH {
        number
    } else {
        number * 10 + digit_value(unit)
    }
}

// The exponent whose digits stand at a place, after one that begins at another.
fn exponent_after(units: &[u16], at: usize, from: usize, lowers: bool) -> Exponent
    requires order { at ≤ from }
    requires within { from ≤ length units.now }
    ensures read { ExponentFrom units.now at result (exponent_by (drop at units.now) lowers (some_digits is_digit
        (drop from units.now))) }
    ensures small { result.raise ≤ 10995116277769 }
    ensures small_too { result.lower ≤ 10995116277769 }
{
    let Some(power) = exponent_digits(units, from) else {
        return Exponent {
            raise: 0,
            lower: 0,
            end: at,
        };
    };
    if lowers {
        return Exponent {
            raise: 0,
            lower: power.number,
            end: power.end,
        };
    }
    Exponent {
        raise: power.number,
        lower: 0,
        end: power.end,
    }
}

// Whether the letter of an exponent stands at a place.
fn is_exponent_letter_at(units: &[u16], at: usize) -> bool
    ensures { result ≡ first_is (λ e. e == 101 || e == 69) (drop at units.now) }
{
    match unit_at(units, at) {
        Some(unit) => unit == 101 || unit == 69,
        None => false,
    }
}

// The exponent at a place; where there is none, it is 0.
fn exponent_at(units: &[u16], at: usize) -> Exponent
    requires { at ≤ length units.now }
    ensures read { ExponentFrom units.now at result (exponent (drop at units.now)) }
    ensures small { result.raise ≤ 10995116277769 }
    ensures small_too { result.lower ≤ 10995116277769 }
{
    if !is_exponent_letter_at(units, at) {
        return Exponent {
            raise: 0,
            lower: 0,
            end: at,
        };
    }
    if is_at(units, at + 1, 43) {
        return exponent_after(units, at, at + 2, false);
    }
    if is_at(units, at + 1, 45) {
        return exponent_after(units, at, at + 2, true);
    }
    exponent_after(units, at, at + 1, false)
}

// The literal of the digits that were read, so many of them after the point, and the exponent at a place.
fn with_exponent(units: &[u16], at: usize, amount: Amount, places: usize) -> Numeral
    requires within { at ≤ length units.now }
    requires small { amount.coefficient ≤ 90071992547409919 }
    requires few { amount.zeros < 4294967296 }
    requires short { places < 4294967296 }
    ensures read { (ds : List ℕ) → Stands amount.coefficient amount.zeros (decimal_from 0 ds)
        → NumeralFrom units.now at result (with_exponent ds places (exponent (drop at units.now))) }
{
    let exponent = exponent_at(units, at);
    let lower = places as u64 + exponent.lower;
    Numeral {
        value: value(amount, exponent.raise, lower),
        end: exponent.end,
    }
}

// The literal whose fraction stands at a place.
fn after_point(units: &[u16], at: usize, amount: Amount) -> Numeral
    requires within { at ≤ length units.now }
    requires short { length units.now < 2 ^ 32 }
    requires small { amount.coefficient ≤ 90071992547409919 }
    requires few { amount.zeros ≤ at }
    ensures read { (ds : List ℕ) → Stands amount.coefficient amount.zeros (decimal_from 0 ds)
        → NumeralFrom units.now at result (after_fraction ds (many (one_unit is_digit) (drop at units.now))) }
{
    let (amount, end) = digits(units, at, amount);
    with_exponent(units, end, amount, end - at)
}

// The literal whose whole digits were read.
fn after_whole(units: &[u16], at: usize, amount: Amount) -> Numeral
    requires within { at ≤ length units.now }
    requires short { length units.now < 2 ^ 32 }
    requires small { amount.coefficient ≤ 90071992547409919 }
    requires few { amount.zeros ≤ at }
    ensures read { (ds : List ℕ) → Stands amount.coefficient amount.zeros (decimal_from 0 ds)
        → NumeralFrom units.now at result (after_whole ds (drop at units.now)) }
{
    if is_at(units, at, 46) {
        after_point(units, at + 1, amount)
    } else {
        with_exponent(units, at, amount, 0)
    }
}

// One more hexadecimal digit.
fn hex_capped(number: u64, digit: u16) -> u64
    requires digit { digit < 16 }
    requires small { number ≤ 144115188075855871 }
    ensures value { result ≡ (if nat_le number largest then number * 16 + digit else number) }
    ensures small { result ≤ 144115188075855871 }
{
    if number > LARGEST_SIZE {
        number
    } else {
        number * 16 + u64::from(digit)
    }
}

// The value of a whole number, where it is one of a script.
#[tactic(auto, unfolding(crate::specs::inner::Amounts::if_number))]
fn if_number(number: u64) -> Option<u64>
    ensures { result ≡ if_number number }
{
    if number > LARGEST_SIZE {
        None
    } else {
        Some(number)
    }
}

// The hexadecimal literal whose digits stand at a place, if there is one.
fn hex(units: &[u16], at: usize) -> Option<Numeral>
    requires { at ≤ length units.now }
    ensures { MatchOption result (some_digits is_hex_digit (drop at units.now) ≡ None)
        (λ n. (us : List ℕ) → NumeralFrom units.now at n (hex_literal us (some_digits is_hex_digit
        (drop at units.now)))) }
{
    let Some(_first) = hex_at(units, at) else {
        return None;
    };
    let mut number = 0;
    let mut end = at;
    while let Some(digit) = hex_at(units, end) {
        number = hex_capped(number, digit);
        end += 1;
    }
    Some(Numeral {
        value: if_number(number),
        end,
    })
}

// Whether the `x` of a hexadecimal literal stands at a place.
fn is_x_at(units: &[u16], at: usize) -> bool
    ensures { result ≡ first_is (λ x. x == 120 || x == 88) (drop at units.now) }
{
    match unit_at(units, at) {
        Some(unit) => unit == 120 || unit == 88,
        None => false,
    }
}

// The literal that begins with a `0` before a place.
fn after_zero(units: &[u16], at: usize) -> Numeral
    requires within { at ≤ length units.now }
    requires short { length units.now < 2 ^ 32 }
    ensures { NumeralFrom units.now at result (after_zero (drop at units.now)) }
{
    if !is_x_at(units, at) {
        return after_whole(
            units,
            at,
            Amount {
                coefficient: 0,
                zeros: 0,
            },
        );
    }
    let Some(found) = hex(units, at + 1) else {
        return after_whole(
            units,
            at,
            Amount {
                coefficient: 0,
                zeros: 0,
            },
        );
    };
    found
}

// The literal whose first unit, a digit or a point before a digit, stands before a place.
fn numeral_after(units: &[u16], at: usize, unit: u16) -> Numeral
    requires within { at ≤ length units.now }
    requires short { length units.now < 2 ^ 32 }
    requires begins { (is_digit unit || (unit == 46 && first_is is_digit (drop at units.now))) ≡ true }
    ensures { NumeralFrom units.now at result (numeral unit (drop at units.now)) }
{
    if unit == 48 {
        return after_zero(units, at);
    }
    if unit == 46 {
        return after_point(
            units,
            at,
            Amount {
                coefficient: 0,
                zeros: 0,
            },
        );
    }
    let first = add_digit(
        Amount {
            coefficient: 0,
            zeros: 0,
        },
        unit,
    );
    let (amount, end) = digits(units, at, first);
    after_whole(units, end, amount)
}

/// The number whose first unit, a digit or a point before a digit, stands before a place.
pub fn number(units: &[u16], at: usize, unit: u16) -> Result<(Element, usize), Stop>
    requires within { at ≤ length units.now }
    requires short { length units.now < 2 ^ 32 }
    requires begins { (is_digit unit || (unit == 46 && first_is is_digit (drop at units.now))) ≡ true }
    ensures { IsFrom units.now at result (number_end (numeral unit (drop at units.now))) }
{
    let numeral = numeral_after(units, at, unit);
    if is_digit_at(units, numeral.end) {
        return Err(Stop::Bad(BadKind::BadNumber));
    }
    if let Some(_letter) = letter_at(units, numeral.end, false) {
        return Err(Stop::Bad(BadKind::BadNumber));
    }
    let Some(value) = numeral.value else {
        return Err(Stop::Bad(BadKind::BadNumber));
    };
    match Num::new(value as i64) {
        Ok(number) => Ok((Element::Word(TokenKind::Number(number)), numeral.end)),
        Err(_) => Err(Stop::Bad(BadKind::BadNumber)),
    }
}
