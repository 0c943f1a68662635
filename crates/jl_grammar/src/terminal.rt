ghost use Rattle.jl_grammar.specs.Terminals.{name_terminal, terminal_of};
ghost use Rattle.std.specs.Prelude.{◌≡◌};

use crate::word::{Word, has_spelling, reserved_word};
use jl_token::{Punct, TokenKind};

/// What the grammar sees of a token.
#[derive(Clone, Copy, PartialEq, Eq, Debug)]
pub enum Terminal {
    /// Nothing: the place past the last token.
    End,
    /// A punctuator (7.7).
    Punct(Punct),
    /// A reserved word (7.6.1) written without an escape.
    Word(Word),
    /// A reserved word written with an escape, which is a name only after a dot and as a key.
    EscapedWord,
    /// The identifier `get` written without an escape, which may begin a getter (11.1.5).
    Get,
    /// The identifier `set` written without an escape, which may begin a setter (11.1.5).
    Set,
    /// Any other identifier (7.6).
    Identifier,
    /// A numeric literal (7.8.3).
    Number,
    /// A string literal (7.8.4).
    Str,
}

/// What the grammar sees of a token of this kind.
pub fn terminal_of(kind: &TokenKind) -> Terminal
    ensures { result ≡ terminal_of kind.now }
{
    match kind {
        TokenKind::Name { text, escaped } => name_terminal(text.units(), *escaped),
        TokenKind::Punct(punct) => Terminal::Punct(*punct),
        TokenKind::Number(_) => Terminal::Number,
        TokenKind::Str { .. } => Terminal::Str,
    }
}

fn name_terminal(units: &[u16], escaped: bool) -> Terminal
    ensures { result ≡ name_terminal units.now escaped }
{
    match reserved_word(units) {
        Some(_) if escaped => Terminal::EscapedWord,
        Some(word) => Terminal::Word(word),
        None if escaped => Terminal::Identifier,
        None if has_spelling(units, b"get") => Terminal::Get,
        None if has_spelling(units, b"set") => Terminal::Set,
        None => Terminal::Identifier,
    }
}
