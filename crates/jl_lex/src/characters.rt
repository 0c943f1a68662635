//! Which units are what (6, 7.2, 7.3, 7.6, 7.8), and what stands at a place.
ghost use Rattle.std.specs.Prelude.{◌≡◌, ◌+◌, ◌<◌, ◌≤◌, ◌==◌, ◌∷◌, [], drop, length, MatchOption, if◌then◌else◌};
ghost use Rattle.jl_token.specs.inner.Scanner.{after_line_feed};
ghost use Rattle.jl_token.specs.Characters.{category, is_space, is_letter, is_mark, is_white_space, is_line_terminator};
ghost use Rattle.jl_token.specs.Characters.{is_identifier_start, is_identifier_part, is_digit, is_hex_digit};
ghost use Rattle.jl_token.specs.Characters.{hex_digit_value, is_quote, first_is};
ghost use Rattle.jl_lex.specs.inner.Ascii.{is_ascii_letter, is_ascii_start, is_ascii_part, is_ascii_space};

use unicode::properties::GeneralCategory;

pub const BACKSLASH: u16 = 0x5c;

#[tactic(auto, unfolding(jl_token::specs::Characters::category, jl_token::specs::Characters::is_surrogate))]
fn category(unit: u16) -> GeneralCategory
    ensures { result ≡ category unit }
{
    if 0xd800 <= unit && unit <= 0xdfff {
        return GeneralCategory::Surrogate;
    }
    match char::from_u32(u32::from(unit)) {
        Some(character) => GeneralCategory::for_char(character),
        None => unreachable!(),
    }
}

#[tactic(auto, unfolding(jl_token::specs::Characters::is_letter))]
fn is_letter(category: GeneralCategory) -> bool
    ensures { result ≡ is_letter category }
{
    matches!(
        category,
        GeneralCategory::UppercaseLetter
            | GeneralCategory::LowercaseLetter
            | GeneralCategory::TitlecaseLetter
            | GeneralCategory::ModifierLetter
            | GeneralCategory::OtherLetter
            | GeneralCategory::LetterNumber
    )
}

#[tactic(auto, unfolding(jl_token::specs::Characters::is_mark))]
fn is_mark(category: GeneralCategory) -> bool
    ensures { result ≡ is_mark category }
{
    matches!(
        category,
        GeneralCategory::NonspacingMark
            | GeneralCategory::SpacingMark
            | GeneralCategory::DecimalNumber
            | GeneralCategory::ConnectorPunctuation
    )
}

#[tactic(auto, unfolding(jl_token::specs::Characters::is_space))]
fn is_space(category: GeneralCategory) -> bool
    ensures { result ≡ is_space category }
{
    matches!(category, GeneralCategory::SpaceSeparator)
}

// ASCII characters, for which no table is looked into.
const ASCII: u16 = 128;

fn is_ascii_letter(unit: u16) -> bool
    ensures { result ≡ is_ascii_letter unit }
{
    (97 <= unit && unit <= 122) || (65 <= unit && unit <= 90)
}

fn is_ascii_start(unit: u16) -> bool
    ensures { result ≡ is_ascii_start unit }
{
    is_ascii_letter(unit) || unit == 0x24 || unit == 0x5f
}

fn is_ascii_part(unit: u16) -> bool
    ensures { result ≡ is_ascii_part unit }
{
    is_ascii_start(unit) || (48 <= unit && unit <= 57)
}

fn is_ascii_space(unit: u16) -> bool
    ensures { result ≡ is_ascii_space unit }
{
    unit == 0x20 || unit == 0x9 || unit == 0xb || unit == 0xc
}

/// White space (7.2).
#[tactic(auto, unfolding(jl_token::specs::Characters::is_white_space))]
pub fn is_white_space(unit: u16) -> bool
    ensures { result ≡ is_white_space unit }
{
    if unit < ASCII {
        return is_ascii_space(unit);
    }
    unit == 0x9
        || unit == 0xb
        || unit == 0xc
        || unit == 0x20
        || unit == 0xa0
        || unit == 0xfeff
        || is_space(category(unit))
}

/// A line terminator (7.3).
#[tactic(auto, unfolding(jl_token::specs::Characters::is_line_terminator))]
pub fn is_line_terminator(unit: u16) -> bool
    ensures { result ≡ is_line_terminator unit }
{
    unit == 0xa || unit == 0xd || unit == 0x2028 || unit == 0x2029
}

/// A character that a name may start with (7.6).
#[tactic(auto, unfolding(jl_token::specs::Characters::is_identifier_start))]
pub fn is_identifier_start(unit: u16) -> bool
    ensures { result ≡ is_identifier_start unit }
{
    if unit < ASCII {
        return is_ascii_start(unit);
    }
    unit == 0x24 || unit == 0x5f || is_letter(category(unit))
}

/// A character that a name may go on with (7.6).
#[tactic(auto, using(crate::proofs::Ascii::ascii_parts), unfolding(jl_token::specs::Characters::is_identifier_part))]
pub fn is_identifier_part(unit: u16) -> bool
    ensures { result ≡ is_identifier_part unit }
{
    if unit < ASCII {
        return is_ascii_part(unit);
    }
    is_identifier_start(unit) || unit == 0x200c || unit == 0x200d || is_mark(category(unit))
}

/// A decimal digit.
#[tactic(auto, unfolding(jl_token::specs::Characters::is_digit))]
pub fn is_digit(unit: u16) -> bool
    ensures { result ≡ is_digit unit }
{
    48 <= unit && unit <= 57
}

/// A hexadecimal digit.
#[tactic(auto, unfolding(jl_token::specs::Characters::is_hex_digit))]
pub fn is_hex_digit(unit: u16) -> bool
    ensures { result ≡ is_hex_digit unit }
{
    is_digit(unit) || (97 <= unit && unit <= 102) || (65 <= unit && unit <= 70)
}

/// A quotation mark.
#[tactic(auto, unfolding(jl_token::specs::Characters::is_quote))]
pub fn is_quote(unit: u16) -> bool
    ensures { result ≡ is_quote unit }
{
    unit == 34 || unit == 39
}

/// The unit at a place; none at the end.
pub fn unit_at(units: &[u16], at: usize) -> Option<u16>
    ensures { MatchOption result (drop at units.now ≡ [])
        (λ u. (drop at units.now ≡ u ∷ drop (at + 1) units.now) × (at < length units.now)) }
{
    if at < units.len() {
        Some(units[at])
    } else {
        None
    }
}

/// Whether a given unit stands at a place.
pub fn is_at(units: &[u16], at: usize, unit: u16) -> bool
    ensures { result ≡ first_is (λ v. v == unit) (drop at units.now) }
{
    match unit_at(units, at) {
        Some(found) => found == unit,
        None => false,
    }
}

/// Whether a digit stands at a place.
pub fn is_digit_at(units: &[u16], at: usize) -> bool
    ensures { result ≡ first_is is_digit (drop at units.now) }
{
    match unit_at(units, at) {
        Some(found) => is_digit(found),
        None => false,
    }
}

/// The place after a line terminator whose first unit stands before a place: a LF after a CR belongs to it.
pub fn line_terminator_end(units: &[u16], at: usize, unit: u16) -> usize
    requires { at ≤ length units.now }
    ensures rest { drop result units.now ≡ (if unit == 13 then after_line_feed (drop at units.now)
        else drop at units.now) }
    ensures later { at ≤ result }
    ensures within { result ≤ length units.now }
{
    if unit != 13 {
        return at;
    }
    if is_at(units, at, 10) { at + 1 } else { at }
}
