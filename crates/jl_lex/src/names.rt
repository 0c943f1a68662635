//! Names (7.6).
ghost use Rattle.std.specs.Prelude.{◌≡◌, ◌+◌, ◌<◌, ◌≤◌, drop, length, IfSome, true};
ghost use Rattle.jl_token.specs.Characters.{is_hex_digit, hex_digit_value, is_identifier_start};
ghost use Rattle.jl_token.specs.inner.Scanner.{letter, name_escape, name_done, name_from};
ghost use Rattle.jl_lex.specs.inner.Parts.{hex_first, two_at, four_at, is_name_character, LetterFrom};
ghost use Rattle.jl_lex.specs.inner.Answers.{IsFound, IsNamed};

use crate::characters::{
    BACKSLASH, is_at, is_hex_digit, is_identifier_part, is_identifier_start, unit_at,
};
use crate::element::{Element, Stop};
use jl_text::{Text, TextFault};
use jl_token::{BadKind, TokenKind};
use std::alloc::Global;

/// A character of a name, whether an escape writes it, and the place after it.
#[derive(Clone, Copy)]
pub struct Letter {
    pub unit: u16,
    pub escaped: bool,
    pub end: usize,
}

#[tactic(auto, unfolding(jl_token::specs::Characters::hex_digit_value, jl_token::specs::Characters::is_hex_digit, jl_token::specs::Characters::is_digit))]
fn hex_digit_value(unit: u16) -> u16
    requires { is_hex_digit unit ≡ true }
    ensures value { result ≡ hex_digit_value unit }
    ensures small { result < 16 }
{
    if unit >= 97 {
        unit - 87
    } else if unit >= 65 {
        unit - 55
    } else {
        unit - 48
    }
}

/// The value of the hexadecimal digit at a place, if there is one.
#[tactic(auto, unfolding(crate::specs::inner::Parts::hex_first))]
pub fn hex_at(units: &[u16], at: usize) -> Option<u16>
    ensures value { result ≡ hex_first (drop at units.now) }
    ensures small { IfSome result (λ v. (v < 16) × (at < length units.now)) }
{
    let unit = unit_at(units, at)?;
    if is_hex_digit(unit) {
        Some(hex_digit_value(unit))
    } else {
        None
    }
}

/// The number that the two hexadecimal digits at a place write, if they are there.
#[tactic(auto, unfolding(crate::specs::inner::Parts::two_at, crate::specs::inner::Parts::two_of))]
pub fn two_at(units: &[u16], at: usize) -> Option<u16>
    requires { at ≤ length units.now }
    ensures value { result ≡ two_at units.now at }
    ensures within { IfSome result (λ v. at + 2 ≤ length units.now) }
{
    let a = hex_at(units, at)?;
    let b = hex_at(units, at + 1)?;
    Some(a * 16 + b)
}

/// The number that the four hexadecimal digits at a place write, if they are there.
#[tactic(auto, unfolding(crate::specs::inner::Parts::four_at, crate::specs::inner::Parts::four_of))]
pub fn four_at(units: &[u16], at: usize) -> Option<u16>
    requires { at ≤ length units.now }
    ensures value { result ≡ four_at units.now at }
    ensures within { IfSome result (λ v. at + 4 ≤ length units.now) }
{
    let a = hex_at(units, at)?;
    let b = hex_at(units, at + 1)?;
    let c = hex_at(units, at + 2)?;
    let d = hex_at(units, at + 3)?;
    Some(((a * 16 + b) * 16 + c) * 16 + d)
}

fn is_allowed(part: bool, unit: u16) -> bool
    ensures { result ≡ is_name_character part unit }
{
    if part {
        is_identifier_part(unit)
    } else {
        is_identifier_start(unit)
    }
}

// The character of a name that an escape writes whose `u` stands at a place.
fn escaped_at(units: &[u16], at: usize, part: bool) -> Option<Letter>
    requires { at ≤ length units.now }
    ensures { LetterFrom units.now at result (name_escape (is_name_character part) (drop at units.now)) }
{
    if !is_at(units, at, 0x75) {
        return None;
    }
    let Some(written) = four_at(units, at + 1) else {
        return None;
    };
    if is_allowed(part, written) {
        Some(Letter {
            unit: written,
            escaped: true,
            end: at + 5,
        })
    } else {
        None
    }
}

/// The character of a name at a place: a part of one, or one that a name may start with.
pub fn letter_at(units: &[u16], at: usize, part: bool) -> Option<Letter>
    requires { at ≤ length units.now }
    ensures { LetterFrom units.now at result (letter (is_name_character part) (drop at units.now)) }
{
    let Some(unit) = unit_at(units, at) else {
        return None;
    };
    if is_allowed(part, unit) {
        return Some(Letter {
            unit,
            escaped: false,
            end: at + 1,
        });
    }
    if unit != BACKSLASH {
        return None;
    }
    escaped_at(units, at + 1, part)
}

// The name of these characters, which go up to a place.
fn name_token(
    alloc: Global,
    units: &[u16],
    text: &[u16],
    escaped: bool,
    end: usize,
) -> Result<(Element, usize), Stop>
    requires { end ≤ length units.now }
    ensures { IsNamed units.now end result (name_done text.now escaped (drop end units.now)) }
{
    if is_at(units, end, BACKSLASH) {
        return Err(Stop::Bad(BadKind::BadEscape));
    }
    match Text::from_units(alloc, text) {
        Ok(text) => Ok((Element::Word(TokenKind::Name { text, escaped }), end)),
        Err(TextFault::TooLong) => Err(Stop::Bad(BadKind::LongText)),
        Err(TextFault::NoMemory) => Err(Stop::NoMemory),
    }
}

/// The name at a place.
pub fn name(alloc: Global, units: &[u16], at: usize) -> Result<(Element, usize), Stop>
    requires { at ≤ length units.now }
    ensures { IsFound units.now at result (name_from (letter is_identifier_start (drop at units.now))) }
{
    let Some(first) = letter_at(units, at, false) else {
        return Err(Stop::Bad(BadKind::BadEscape));
    };
    let mut text = Vec::new(alloc);
    text.push(first.unit)?;
    let mut escaped = first.escaped;
    let mut end = first.end;
    while let Some(next) = letter_at(units, end, true) {
        text.push(next.unit)?;
        if next.escaped {
            escaped = true;
        }
        end = next.end;
    }
    name_token(alloc, units, text.as_slice(), escaped, end)
}
