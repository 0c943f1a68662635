//! Strings (7.8.4).
ghost use Rattle.std.specs.Prelude.{◌≡◌, ◌+◌, ◌≤◌, ◌++◌, Some, true, false, drop, length, OnOk};
ghost use Rattle.jl_token.specs.Characters.{single_escape, is_quote};
ghost use Rattle.jl_token.specs.inner.Scanner.{other_escape, escape, character, many, string_done, string_end};
ghost use Rattle.jl_lex.specs.inner.Parts.{CharacterFrom, values};
ghost use Rattle.jl_lex.specs.inner.Answers.{IsFound};

use crate::characters::{
    BACKSLASH, is_digit, is_digit_at, is_line_terminator, line_terminator_end, unit_at,
};
use crate::element::{Element, Stop};
use crate::names::{four_at, two_at};
use jl_text::{Text, TextFault};
use jl_token::{BadKind, TokenKind};
use std::alloc::{AllocError, Global};

/// A character of a string: its unit, or none for a line continuation; whether it stands there itself; and the place
/// after it.
#[derive(Clone, Copy)]
pub struct Character {
    pub unit: Option<u16>,
    pub plain: bool,
    pub end: usize,
}

// What a single escape character stands for (table 4).
#[tactic(auto, unfolding(jl_token::specs::Characters::single_escape))]
fn single_escape(unit: u16) -> Option<u16>
    ensures { result ≡ single_escape unit }
{
    match unit {
        98 => Some(8),
        116 => Some(9),
        110 => Some(10),
        118 => Some(11),
        102 => Some(12),
        114 => Some(13),
        34 => Some(34),
        39 => Some(39),
        92 => Some(92),
        _ => None,
    }
}

fn escaped_character(unit: u16, end: usize) -> Option<Character>
    ensures { result ≡ Some (record { unit = Some unit; plain = false; end = end }) }
{
    Some(Character {
        unit: Some(unit),
        plain: false,
        end,
    })
}

// What another escaped unit, which stands before a place, comes to.
fn other_escape_at(units: &[u16], at: usize, unit: u16) -> Option<Character>
    requires { at ≤ length units.now }
    ensures { CharacterFrom units.now at result (other_escape unit (drop at units.now)) }
{
    if is_line_terminator(unit) {
        let end = line_terminator_end(units, at, unit);
        return Some(Character {
            unit: None,
            plain: false,
            end,
        });
    }
    if unit == 120 {
        let Some(written) = two_at(units, at) else {
            return None;
        };
        return escaped_character(written, at + 2);
    }
    if unit == 117 {
        let Some(written) = four_at(units, at) else {
            return None;
        };
        return escaped_character(written, at + 4);
    }
    if !is_digit(unit) {
        return escaped_character(unit, at);
    }
    if unit != 48 {
        return None;
    }
    if is_digit_at(units, at) {
        return None;
    }
    escaped_character(0, at)
}

// The character that an escape whose backslash stands before a place writes.
fn escape_at(units: &[u16], at: usize) -> Option<Character>
    requires { at ≤ length units.now }
    ensures { CharacterFrom units.now (at + 1) result (escape (drop at units.now)) }
{
    let Some(unit) = unit_at(units, at) else {
        return None;
    };
    match single_escape(unit) {
        Some(written) => escaped_character(written, at + 1),
        None => other_escape_at(units, at + 1, unit),
    }
}

// The character of a string at a place.
fn character_at(units: &[u16], at: usize, mark: u16) -> Option<Character>
    requires { at ≤ length units.now }
    ensures { CharacterFrom units.now (at + 1) result (character mark (drop at units.now)) }
{
    let Some(unit) = unit_at(units, at) else {
        return None;
    };
    if unit == mark {
        return None;
    }
    if is_line_terminator(unit) {
        return None;
    }
    if unit == BACKSLASH {
        return escape_at(units, at + 1);
    }
    Some(Character {
        unit: Some(unit),
        plain: true,
        end: at + 1,
    })
}

fn put(text: &mut Vec<u16>, unit: Option<u16>) -> Result<(), AllocError>
    ensures { OnOk result (text.new.items ≡ text.old.items ++ values unit) }
{
    if let Some(unit) = unit {
        text.push(unit)?;
    }
    Ok(())
}

// The string of these characters, which go up to a place.
fn close_string(
    alloc: Global,
    units: &[u16],
    text: &[u16],
    plain: bool,
    end: usize,
    mark: u16,
) -> Result<(Element, usize), Stop>
    requires { end ≤ length units.now }
    ensures { IsFound units.now end result (string_done mark text.now plain (drop end units.now)) }
{
    let Some(unit) = unit_at(units, end) else {
        return Err(Stop::Bad(BadKind::UnclosedText));
    };
    if unit == mark {
        return match Text::from_units(alloc, text) {
            Ok(text) => Ok((Element::Word(TokenKind::Str { text, plain }), end + 1)),
            Err(TextFault::TooLong) => Err(Stop::Bad(BadKind::LongText)),
            Err(TextFault::NoMemory) => Err(Stop::NoMemory),
        };
    }
    if is_line_terminator(unit) {
        return Err(Stop::Bad(BadKind::UnclosedText));
    }
    if end + 1 < units.len() {
        return Err(Stop::Bad(BadKind::BadEscape));
    }
    Err(Stop::Bad(BadKind::UnclosedText))
}

/// The string whose mark stands before a place.
pub fn string(alloc: Global, units: &[u16], at: usize, mark: u16) -> Result<(Element, usize), Stop>
    requires within { at ≤ length units.now }
    requires quote { is_quote mark ≡ true }
    ensures { IsFound units.now at result (string_end mark (many (character mark) (drop at units.now))) }
{
    let mut text = Vec::new(alloc);
    let mut plain = true;
    let mut end = at;
    while let Some(next) = character_at(units, end, mark) {
        put(&mut text, next.unit)?;
        if !next.plain {
            plain = false;
        }
        end = next.end;
    }
    close_string(alloc, units, text.as_slice(), plain, end, mark)
}
