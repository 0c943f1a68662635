//! Numerals without a sign (9.3.1). The digits are kept as a number without the zeros at its end, which are counted.
ghost use Rattle.std.specs.Prelude.{◌≡◌, ◌≢◌, ◌+◌, ◌-◌, ◌*◌, ◌^◌, ◌<◌, ◌≤◌, ◌==◌, ◌||◌, ◌++◌, ℕ, true, false, pos};
ghost use Rattle.std.specs.Prelude.{drop, length, codes, Option, Some, MatchOption};
ghost use Rattle.std.specs.List.{list_all, list_any, before_first, after_first};
ghost use Rattle.std.specs.Result.{result_ok};
ghost use Rattle.std.specs.Str.{bytes_eq};
ghost use Rattle.jl_num.specs.Arithmetic.{number_of};
ghost use Rattle.jl_token.specs.Characters.{is_digit, is_hex_digit, hex_digit_value, decimal_from, hex_from};
ghost use Rattle.jl_lex.specs.inner.Amounts.{Stands};
ghost use Rattle.jl_conv.specs.Numerals.{are_digits, is_point, is_exponent_letter, with_sign, exact_value, raises};
ghost use Rattle.jl_conv.specs.Numerals.{lowers};
ghost use Rattle.jl_conv.specs.Numerals.{exponent_of, decimal_number, hexadecimal_number};
ghost use Rattle.jl_conv.specs.inner.Amounts.{Agree, Powers, IsExponent};

use jl_lex::{is_digit, is_hex_digit};
use jl_num::{LARGEST_SIZE, Num, NumberOutside};

const INFINITY: [u16; 8] = [0x49, 0x6e, 0x66, 0x69, 0x6e, 0x69, 0x74, 0x79];

const PLUS: u16 = 0x2b;

const MINUS: u16 = 0x2d;

const POINT: u16 = 0x2e;

/// The digits that were read: `coefficient` and so many zeros. A coefficient past `LARGEST_SIZE` says no more than
/// that.
#[derive(Clone, Copy)]
pub struct Amount {
    pub coefficient: u64,
    pub zeros: u64,
}

/// An exponent: the power of ten to multiply by and the one to divide by.
#[derive(Clone, Copy)]
pub struct Exponent {
    pub raise: u64,
    pub lower: u64,
}

/// The number of a decimal literal without a sign, or its negative; NaN where it is none.
pub fn decimal(negative: bool, units: &[u16]) -> Result<Num, NumberOutside>
    ensures { result_ok result ≡ decimal_number negative units.now }
{
    if is_infinity(units) {
        return Err(NumberOutside);
    }
    let (significand, after_letter) = split_at_letter(units);
    let (whole, fraction) = split_at_point(significand);
    let Some(exponent) = exponent_from(after_letter) else {
        return Ok(Num::NAN);
    };
    if !are_digits(whole, fraction) {
        return Ok(Num::NAN);
    }
    let amount = read(
        read(
            Amount {
                coefficient: 0,
                zeros: 0,
            },
            whole,
        ),
        fraction,
    );
    let lower = exponent.lower.saturating_add(fraction.len() as u64);
    value(negative, amount, exponent.raise, lower)
}

fn is_infinity(units: &[u16]) -> bool
    ensures { result ≡ bytes_eq units.now (codes "Infinity") }
{
    units == INFINITY.as_slice()
}

// What stands before the letter of an exponent, and after it where there is one.
fn split_at_letter(units: &[u16]) -> (&[u16], Option<&[u16]>)
    ensures before { result.0.now ≡ before_first is_exponent_letter units.now }
    ensures after { MatchOption result.1 (list_any is_exponent_letter units.now ≡ false)
        (λ e. (list_any is_exponent_letter units.now ≡ true) × (e.now ≡ after_first is_exponent_letter units.now)) }
{
    match units.iter().position(|unit| *unit == 0x65 || *unit == 0x45) {
        Some(at) => (&units[..at], Some(&units[at + 1..])),
        None => (units, None),
    }
}

// What stands before the point and after it; all and nothing where there is none.
fn split_at_point(units: &[u16]) -> (&[u16], &[u16])
    ensures before { result.0.now ≡ before_first is_point units.now }
    ensures after { result.1.now ≡ after_first is_point units.now }
{
    match units.iter().position(|unit| *unit == POINT) {
        Some(at) => (&units[..at], &units[at + 1..]),
        None => (units, &units[units.len()..]),
    }
}

fn all_digits(units: &[u16]) -> bool
    ensures { result ≡ list_all is_digit units.now }
{
    units.iter().all(|unit| is_digit(*unit))
}

// Whether two parts are digits alone, and not both empty.
fn are_digits(whole: &[u16], fraction: &[u16]) -> bool
    ensures { result ≡ are_digits is_digit (whole.now ++ fraction.now) }
{
    if whole.len() == 0 && fraction.len() == 0 {
        return false;
    }
    all_digits(whole) && all_digits(fraction)
}

// The value of a decimal digit.
#[tactic(auto, unfolding(jl_token::specs::Characters::is_digit))]
fn digit_value(unit: u16) -> u64
    requires { is_digit unit ≡ true }
    ensures value { result ≡ unit - 48 }
    ensures small { result < 10 }
{
    u64::from(unit - 48)
}

// One more digit after those of an amount.
fn with_digit(amount: Amount, digit: u64) -> Amount
    requires digit { digit < 10 }
    requires few { amount.zeros < 2 ^ 63 }
    ensures amount { (m : ℕ) → Stands amount.coefficient amount.zeros m
        → Stands result.coefficient result.zeros (m * 10 + digit) }
    ensures few { result.zeros ≤ amount.zeros + 1 }
{
    if amount.coefficient == 0 {
        return Amount {
            coefficient: digit,
            zeros: 0,
        };
    }
    if digit == 0 {
        return Amount {
            coefficient: amount.coefficient,
            zeros: amount.zeros + 1,
        };
    }
    if amount.zeros > 15 {
        return Amount {
            coefficient: u64::MAX,
            zeros: 0,
        };
    }
    let shifted = amount
        .coefficient
        .saturating_mul(power_of_ten(amount.zeros + 1));
    Amount {
        coefficient: shifted.saturating_add(digit),
        zeros: 0,
    }
}

fn power_of_ten(exponent: u64) -> u64
    requires { exponent ≤ 16 }
    ensures { result ≡ 10 ^ exponent }
{
    10_u64.pow(exponent as u32)
}

// The amount that has these digits after those of another.
fn read(amount: Amount, digits: &[u16]) -> Amount
    requires digits { list_all is_digit digits.now ≡ true }
    requires few { amount.zeros + length digits.now < 2 ^ 63 }
    ensures amount { (m : ℕ) → Stands amount.coefficient amount.zeros m
        → Stands result.coefficient result.zeros (decimal_from m digits.now) }
    ensures few { result.zeros ≤ amount.zeros + length digits.now }
{
    let mut read = amount;
    for unit in digits {
        read = with_digit(read, digit_value(*unit));
    }
    read
}

// The exponent of what stands after its letter, or 0.
fn exponent_from(after_letter: Option<&[u16]>) -> Option<Exponent>
    ensures { MatchOption after_letter.entry (IsExponent result (Some (0, 0))) (λ units. IsExponent result
        (exponent_of units.now)) }
{
    match after_letter {
        Some(units) => signed_exponent(units),
        None => Some(Exponent { raise: 0, lower: 0 }),
    }
}

// The exponent of these units after its letter.
fn signed_exponent(units: &[u16]) -> Option<Exponent>
    ensures { IsExponent result (exponent_of units.now) }
{
    if units.len() == 0 {
        return None;
    }
    if units[0] == PLUS {
        raises(&units[1..])
    } else if units[0] == MINUS {
        lowers(&units[1..])
    } else {
        raises(units)
    }
}

fn raises(digits: &[u16]) -> Option<Exponent>
    ensures { IsExponent result (raises digits.now) }
{
    match size(digits) {
        Some(raise) => Some(Exponent { raise, lower: 0 }),
        None => None,
    }
}

fn lowers(digits: &[u16]) -> Option<Exponent>
    ensures { IsExponent result (lowers digits.now) }
{
    match size(digits) {
        Some(lower) => Some(Exponent { raise: 0, lower }),
        None => None,
    }
}

// The number that these units write, as far as it is below 2^63, if they are digits.
fn size(digits: &[u16]) -> Option<u64>
    ensures { MatchOption result (are_digits is_digit digits.now ≡ false)
        (λ n. (are_digits is_digit digits.now ≡ true) × Agree (2 ^ 63) n (decimal_from 0 digits.now)) }
{
    if digits.len() == 0 || !all_digits(digits) {
        return None;
    }
    let mut number: u64 = 0;
    for unit in digits {
        number = number.saturating_mul(10).saturating_add(digit_value(*unit));
    }
    Some(number)
}

// The value of an amount with an exponent.
fn value(negative: bool, amount: Amount, raise: u64, lower: u64) -> Result<Num, NumberOutside>
    ensures { (m r l : ℕ) → Stands amount.coefficient amount.zeros m → Powers amount.zeros raise lower r l
        → result_ok result ≡ exact_value negative m r l }
{
    if amount.coefficient == 0 {
        return Num::new(0);
    }
    if amount.coefficient > LARGEST_SIZE {
        return Err(NumberOutside);
    }
    let total = amount.zeros.saturating_add(raise);
    // A fraction is left, since the coefficient's last digit is not 0.
    if total < lower {
        return Err(NumberOutside);
    }
    // 16 zeros are past `LARGEST_SIZE`.
    if total - lower > 15 {
        return Err(NumberOutside);
    }
    whole(
        negative,
        amount
            .coefficient
            .saturating_mul(power_of_ten(total - lower)),
    )
}

// The whole number of this size, where it is a number of a script.
fn whole(negative: bool, size: u64) -> Result<Num, NumberOutside>
    ensures { result_ok result ≡ number_of (with_sign negative size) }
{
    if size > LARGEST_SIZE {
        return Err(NumberOutside);
    }
    let size = size as i64;
    Num::new(if negative { -size } else { size })
}

/// The number of hexadecimal digits; NaN where there is none, or anything else.
pub fn hexadecimal(digits: &[u16]) -> Result<Num, NumberOutside>
    ensures { result_ok result ≡ hexadecimal_number digits.now }
{
    if digits.len() == 0 || !all_hex_digits(digits) {
        return Ok(Num::NAN);
    }
    let mut number: u64 = 0;
    for unit in digits {
        number = number
            .saturating_mul(16)
            .saturating_add(hex_digit_value(*unit));
    }
    whole(false, number)
}

fn all_hex_digits(units: &[u16]) -> bool
    ensures { result ≡ list_all is_hex_digit units.now }
{
    units.iter().all(|unit| is_hex_digit(*unit))
}

// The value of a hexadecimal digit.
#[tactic(auto, unfolding(jl_token::specs::Characters::is_hex_digit, jl_token::specs::Characters::is_digit, jl_token::specs::Characters::hex_digit_value))]
fn hex_digit_value(unit: u16) -> u64
    requires { is_hex_digit unit ≡ true }
    ensures value { result ≡ hex_digit_value unit }
    ensures small { result < 16 }
{
    if unit >= 0x61 {
        u64::from(unit - 0x57)
    } else if unit >= 0x41 {
        u64::from(unit - 0x37)
    } else {
        u64::from(unit - 0x30)
    }
}
