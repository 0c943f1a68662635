#![tactic(auto, using(crate::proofs::Laying::pieces))]

ghost use Rattle.std.specs.Prelude.{◌≡◌, ◌++◌, map, IfOk, OnOk};
ghost use Rattle.jl_print.specs.inner.Kinds.{after, kind_of};
ghost use Rattle.jl_print.specs.Layout.{between, ends_line, is_dot, is_number, joins_left, joins_right, layout_of};
ghost use Rattle.jl_print.specs.Pieces.{are_plain, is_bare_key, is_plain_digit, is_plain_letter};
ghost use Rattle.jl_text.specs.Quoted.{quote};
ghost use Rattle.jl_token.specs.Spelling.{spelling_of};

use crate::piece::Piece;
use jl_num::digits;
use jl_text::{NoMemory, quote};
use jl_token::Punct;
use std::alloc::Global;

/// The text of these tokens, with what stands between them.
pub(crate) fn lay_out<'a>(alloc: Global, pieces: &[Piece<'a>]) -> Result<Vec<u16>, NoMemory>
    ensures { IfOk result (λ text. text.items ≡ layout_of (map kind_of pieces.now)) }
{
    let mut text = Vec::new(alloc);
    for (at, piece) in pieces.iter().enumerate() {
        add_spelling(alloc, piece, &mut text)?;
        add_after(piece, &pieces[at + 1..], &mut text)?;
    }
    Ok(text)
}

/// What stands after a piece before the others.
fn add_after<'a>(
    piece: &Piece<'a>,
    others: &[Piece<'a>],
    text: &mut Vec<u16>,
) -> Result<(), NoMemory>
    ensures { OnOk result (text.new.items ≡ text.old.items ++ after (kind_of piece.now) (map kind_of others.now)) }
{
    match others {
        [next, ..] => add_ascii(between(piece, next), text),
        [] => add_ascii(b"\n", text),
    }
}

fn between<'a>(left: &Piece<'a>, right: &Piece<'a>) -> &'static [u8]
    ensures { result.now ≡ between (kind_of left.now) (kind_of right.now) }
{
    if ends_line(left) {
        b"\n"
    } else if is_number(left) && is_dot(right) {
        b" "
    } else if joins_right(left) || joins_left(right) {
        b""
    } else {
        b" "
    }
}

fn ends_line<'a>(piece: &Piece<'a>) -> bool
    ensures { result ≡ ends_line (kind_of piece.now) }
{
    match piece {
        Piece::Punct(Punct::Semicolon | Punct::LeftBrace | Punct::RightBrace) => true,
        _ => false,
    }
}

fn is_number<'a>(piece: &Piece<'a>) -> bool
    ensures { result ≡ is_number (kind_of piece.now) }
{
    match piece {
        Piece::Number(_) => true,
        _ => false,
    }
}

fn is_dot<'a>(piece: &Piece<'a>) -> bool
    ensures { result ≡ is_dot (kind_of piece.now) }
{
    match piece {
        Piece::Punct(Punct::Dot) => true,
        _ => false,
    }
}

fn joins_right<'a>(piece: &Piece<'a>) -> bool
    ensures { result ≡ joins_right (kind_of piece.now) }
{
    match piece {
        Piece::Punct(Punct::LeftParen | Punct::LeftBracket | Punct::Dot) => true,
        _ => false,
    }
}

fn joins_left<'a>(piece: &Piece<'a>) -> bool
    ensures { result ≡ joins_left (kind_of piece.now) }
{
    match piece {
        Piece::Punct(Punct::RightParen | Punct::RightBracket | Punct::Comma | Punct::Semicolon) =>
            true,
        Piece::Punct(Punct::Dot | Punct::LeftParen | Punct::LeftBracket) => true,
        _ => false,
    }
}

fn add_spelling<'a>(alloc: Global, piece: &Piece<'a>, text: &mut Vec<u16>) -> Result<(), NoMemory>
    ensures { OnOk result (text.new.items ≡ text.old.items ++ spelling_of (kind_of piece.now)) }
{
    match piece {
        Piece::Word(word) => add_ascii(word, text),
        Piece::Name(units) => add_units(units, text),
        Piece::Key(units) => {
            if is_bare_key(units) {
                add_units(units, text)
            } else {
                add_quoted(alloc, units, text)
            }
        }
        Piece::Punct(punct) => add_ascii(punct.text(), text),
        Piece::Number(number) => {
            let digits = digits(alloc, **number, 10)?;
            add_ascii(digits.as_slice(), text)
        }
        Piece::Str(units) => add_quoted(alloc, units, text),
        Piece::Strict => add_ascii(b"\"use strict\"", text),
    }
}

fn add_units(units: &[u16], text: &mut Vec<u16>) -> Result<(), NoMemory>
    ensures { OnOk result (text.new.items ≡ text.old.items ++ units.now) }
{
    text.extend_from_slice(units)?;
    Ok(())
}

fn add_quoted(alloc: Global, units: &[u16], text: &mut Vec<u16>) -> Result<(), NoMemory>
    ensures { OnOk result (text.new.items ≡ text.old.items ++ quote units.now) }
{
    let literal = quote(alloc, units)?;
    add_units(literal.as_slice(), text)
}

/// ASCII characters as UTF-16 units.
fn add_ascii(characters: &[u8], text: &mut Vec<u16>) -> Result<(), NoMemory>
    ensures { OnOk result (text.new.items ≡ text.old.items ++ characters.now) }
{
    for byte in characters {
        text.push(u16::from(*byte))?;
    }
    Ok(())
}

/// Whether a key is written as a name: ASCII letters, digits, `$` and `_`, with no digit in front.
fn is_bare_key(units: &[u16]) -> bool
    ensures { result ≡ is_bare_key units.now }
{
    match units {
        [] => false,
        [first, rest @ ..] => is_plain_letter(*first) && are_plain(rest),
    }
}

fn are_plain(units: &[u16]) -> bool
    ensures { result ≡ are_plain units.now }
{
    for unit in units {
        if !(is_plain_letter(*unit) || is_plain_digit(*unit)) {
            return false;
        }
    }
    true
}

fn is_plain_letter(unit: u16) -> bool
    ensures { result ≡ is_plain_letter unit }
{
    (65 <= unit && unit <= 90) || (97 <= unit && unit <= 122) || unit == 36 || unit == 95
}

fn is_plain_digit(unit: u16) -> bool
    ensures { result ≡ is_plain_digit unit }
{
    48 <= unit && unit <= 57
}
