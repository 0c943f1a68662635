ghost use Rattle.std.specs.Prelude.{◌≡◌, ◌+◌, ◌-◌, ◌<◌, ◌≤◌, ◌==◌, ◌&&◌, ◌||◌, ◌^◌, ◌⊎◌, ◌∷◌, ◌++◌, ℕ, List as Items};
ghost use Rattle.std.specs.Prelude.{drop, length, IfOk, IfErr, MatchResult};
ghost use Rattle.jl_token.specs.Characters.{is_digit, is_identifier_start, first_is};
ghost use Rattle.jl_token.specs.inner.Scanner.{scan, scan_word};
ghost use Rattle.jl_token.specs.Tokens.{Piece, piece, tokens_among, Tokens, BadAt};
ghost use Rattle.jl_token.specs.declared.token.Token.{Token as OneToken};
ghost use Rattle.jl_token.specs.declared.token.BadKind.{BadKind as Kind};
ghost use Rattle.jl_lex.specs.inner.Answers.{IsFrom, element_of};
ghost use Rattle.jl_lex.specs.Refusals.{IsRefusal, refusal_at};
ghost use Rattle.jl_lex.specs.declared.lexer.LexRefusal.TheVariants.{NoMemory};

use crate::characters::{
    BACKSLASH, is_at, is_digit, is_digit_at, is_identifier_start, is_line_terminator, is_quote,
    is_white_space, line_terminator_end, unit_at,
};
use crate::comment_ends::{block, line_end};
use crate::element::{Element, Stop};
use crate::names::name;
use crate::numbers::number;
use crate::punctuators::longest_punctuator;
use crate::strings::string;
use jl_text::{List, Span};
use jl_token::{BadKind, Token, TokenKind};
use std::alloc::{AllocError, AllocFailed, Global};
use thiserror::Error;

/// Why there are no tokens, and no list of comments.
#[derive(Debug, Drop, Error)]
pub enum LexRefusal {
    /// The first input element that can't be formed begins at this unit, and this is why.
    #[error("no input element can be formed at unit {at}")]
    BadInput { at: u32, kind: BadKind },
    /// No memory was left.
    #[error("out of memory")]
    NoMemory,
}

impl From<AllocError> for LexRefusal {
    ghost from_gives = { λ _ e. e ≡ NoMemory };

    fn from(_error: AllocError) -> LexRefusal {
        LexRefusal::NoMemory
    }
}

impl<T: Drop> From<AllocFailed<T>> for LexRefusal {
    ghost from_gives = { λ _ e. e ≡ NoMemory };

    fn from(_error: AllocFailed<T>) -> LexRefusal {
        LexRefusal::NoMemory
    }
}

// Whether a unit and the one after it, which stands at a place, are these.
fn are_units(units: &[u16], at: usize, unit: u16, first: u16, second: u16) -> bool
    ensures { result ≡ (unit == first && first_is (λ v. v == second) (drop at units.now)) }
{
    unit == first && is_at(units, at, second)
}

fn begins_number(units: &[u16], at: usize, unit: u16) -> bool
    ensures { result ≡ (is_digit unit || (unit == 46 && first_is is_digit (drop at units.now))) }
{
    is_digit(unit) || (unit == 46 && is_digit_at(units, at))
}

fn begins_name(unit: u16) -> bool
    ensures { result ≡ (is_identifier_start unit || unit == 92) }
{
    is_identifier_start(unit) || unit == BACKSLASH
}

// The input element whose first unit stands at a place: a string, a number, a name or a punctuator.
fn word_at(alloc: Global, units: &[u16], at: usize, unit: u16) -> Result<(Element, usize), Stop>
    requires unit { drop at units.now ≡ unit ∷ drop (at + 1) units.now }
    requires within { at < length units.now }
    requires short { length units.now < 2 ^ 32 }
    ensures { IsFrom units.now (at + 1) result (scan_word unit (drop (at + 1) units.now)) }
{
    if is_quote(unit) {
        return string(alloc, units, at + 1, unit);
    }
    if begins_number(units, at + 1, unit) {
        return number(units, at + 1, unit);
    }
    if begins_name(unit) {
        return name(alloc, units, at);
    }
    match longest_punctuator(units, at) {
        Some((punct, end)) => Ok((Element::Word(TokenKind::Punct(punct)), end)),
        None => Err(Stop::Bad(BadKind::BadCharacter)),
    }
}

/// The input element whose first unit stands at a place, and the place after it.
pub(crate) fn element_at(
    alloc: Global,
    units: &[u16],
    at: usize,
    unit: u16,
) -> Result<(Element, usize), Stop>
    requires unit { drop at units.now ≡ unit ∷ drop (at + 1) units.now }
    requires within { at < length units.now }
    requires short { length units.now < 2 ^ 32 }
    ensures { IsFrom units.now (at + 1) result (scan (drop at units.now)) }
{
    if is_white_space(unit) {
        return Ok((Element::White, at + 1));
    }
    if is_line_terminator(unit) {
        return Ok((Element::LineEnd, line_terminator_end(units, at + 1, unit)));
    }
    if are_units(units, at + 1, unit, 47, 47) {
        return Ok((Element::LineComment, line_end(units, at + 2)));
    }
    if are_units(units, at + 1, unit, 47, 42) {
        return match block(units, at + 2) {
            Some((lines, end)) => Ok((Element::BlockComment(lines), end)),
            None => Err(Stop::Bad(BadKind::UnclosedComment)),
        };
    }
    word_at(alloc, units, at, unit)
}

// Adds the token of an element that runs from one place to another, where it is one. Answers whether a line terminator,
// or a comment that holds one, stands before what follows it.
fn add(
    tokens: &mut List<Token>,
    line: bool,
    element: Element,
    from: usize,
    to: usize,
) -> Result<bool, AllocError>
    requires from { from < 2 ^ 32 }
    requires to { to < 2 ^ 32 }
    ensures { IfOk result (λ l. (ps : Items Piece)
        → tokens.new ++ tokens_among l ps ≡ tokens.old ++ tokens_among line (piece (element_of element) from to ∷ ps)) }
{
    match element {
        Element::White | Element::LineComment => Ok(line),
        Element::LineEnd => Ok(true),
        Element::BlockComment(lines) => Ok(line || lines),
        Element::Word(kind) => {
            let span = Span {
                from: from as u32,
                to: to as u32,
            };
            tokens.push(Token {
                kind,
                span,
                line_before: line,
            })?;
            Ok(false)
        }
    }
}

/// The refusal for an element that begins at a place.
pub(crate) fn refusal(stop: Stop, at: usize) -> LexRefusal
    requires { at < 2 ^ 32 }
    ensures { result ≡ refusal_at stop at }
{
    match stop {
        Stop::Bad(kind) => LexRefusal::BadInput {
            at: at as u32,
            kind,
        },
        Stop::NoMemory => LexRefusal::NoMemory,
    }
}

fn tokens_of(alloc: Global, units: &[u16]) -> Result<List<Token>, LexRefusal>
    requires { length units.now < 2 ^ 32 }
    ensures tokens { IfOk result (λ ts. Tokens units.now ts) }
    ensures refused { IfErr result (λ e. IsRefusal units.now e) }
{
    let mut tokens = List::new(alloc);
    let mut line = false;
    let mut at = 0;
    while let Some(unit) = unit_at(units, at) {
        match element_at(alloc, units, at, unit) {
            Ok((element, end)) => {
                line = add(&mut tokens, line, element, at, end)?;
                at = end;
            }
            Err(stop) => return Err(refusal(stop, at)),
        }
    }
    Ok(tokens)
}

/// The tokens of a text (clause 7): its input elements, each the longest that can be formed at its place, without white
/// space, line terminators and comments. A text in which an element can't be formed is refused at the first such place.
/// One pass.
pub fn lex(alloc: Global, units: &[u16]) -> Result<List<Token>, LexRefusal>
    requires { length units.now < 2 ^ 32 }
    ensures tokens { IfOk result (λ ts. Tokens units.now ts) }
    ensures refused { IfErr result (λ e. IsRefusal units.now e) }
    ensures only_these { (ts : Items OneToken) → Tokens units.now ts
        → MatchResult result (λ us. us ≡ ts) (λ e. e ≡ LexRefusal.NoMemory) }
    ensures only_there { (i : ℕ) (k : Kind) → BadAt units.now i k
        → MatchResult result (λ us. ⊥) (λ e. (e ≡ LexRefusal.BadInput i k) ⊎ (e ≡ LexRefusal.NoMemory)) }
{
    tokens_of(alloc, units)
}
