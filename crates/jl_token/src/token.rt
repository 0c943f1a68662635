use crate::punct::Punct;
use jl_num::Num;
use jl_text::{Span, Text};

/// A token of a script: what it is, where it stands, and whether a line terminator, or a comment that holds one, stands
/// between it and the token or the start before it.
#[derive(Drop)]
pub struct Token {
    pub kind: TokenKind,
    pub span: Span,
    pub line_before: bool,
}

/// What a token is.
#[derive(Drop)]
pub enum TokenKind {
    /// An identifier name (7.6) by its value; `escaped` where it is written with a `\u` escape. Reserved words are
    /// names.
    Name { text: Text, escaped: bool },
    /// A punctuator (7.7).
    Punct(Punct),
    /// A numeric literal (7.8.3) by its value.
    Number(Num),
    /// A string literal (7.8.4) by its value; `plain` where it has neither an escape nor a line continuation.
    Str { text: Text, plain: bool },
}

/// A comment of a script (7.4), and where it stands. One that goes to the end of its line begins with `//` and ends
/// before the line terminator; any other one stands between `/*` and `*/`.
#[derive(Clone, Copy, PartialEq, Eq, Debug)]
pub struct Comment {
    pub span: Span,
    pub to_line_end: bool,
}

/// Why an input element can't be formed.
#[derive(Clone, Copy, PartialEq, Eq, Debug)]
pub enum BadKind {
    /// A string that meets a line terminator or the end of the input.
    UnclosedText,
    /// A comment that begins with `/*` and has no `*/`.
    UnclosedComment,
    /// A string or a name with an escape that isn't allowed.
    BadEscape,
    /// A numeric literal that isn't allowed, or whose value is no number of a script.
    BadNumber,
    /// A character that begins no input element.
    BadCharacter,
    /// A name or a string whose value has more units than a text may have.
    LongText,
}
