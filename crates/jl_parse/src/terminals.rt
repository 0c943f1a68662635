//! Tests on one token, mostly on the one after what is read.
ghost use Rattle.std.specs.Prelude.{◌≡◌, true, false};
ghost use Rattle.jl_grammar.specs.Next.{is_identifier, is_name, is_key, is_open_paren, is_open_brace, is_semicolon};
ghost use Rattle.jl_grammar.specs.Next.{is_comma, is_colon, is_question, is_equals, is_else, is_finally};
ghost use Rattle.jl_grammar.specs.Next.{ends_statement, ends_list};
ghost use Rattle.jl_grammar.specs.Reader.{is_close_paren, is_close_bracket, is_close_brace, is_catch, is_function};
ghost use Rattle.jl_grammar.specs.Reader.{is_new, is_while, is_in, is_var, is_case, is_default};
ghost use Rattle.jl_parse.specs.inner.Steps.{is_end};

use jl_grammar::{Terminal, Word};
use jl_token::Punct;

/// Whether it is an identifier (7.6).
pub fn is_identifier(terminal: Terminal) -> bool
    ensures is { result ≡ is_identifier terminal }
    ensures there { result ≡ true → is_end terminal ≡ false }
{
    matches!(
        terminal,
        Terminal::Identifier | Terminal::Get | Terminal::Set
    )
}

/// Whether it is an identifier name (7.6), which may be a reserved word.
pub fn is_name(terminal: Terminal) -> bool
    ensures is { result ≡ is_name terminal }
    ensures there { result ≡ true → is_end terminal ≡ false }
{
    matches!(
        terminal,
        Terminal::Identifier
            | Terminal::Get
            | Terminal::Set
            | Terminal::Word(_)
            | Terminal::EscapedWord
    )
}

/// Whether it is the key of a property (11.1.5).
pub fn is_key(terminal: Terminal) -> bool
    ensures is { result ≡ is_key terminal }
    ensures there { result ≡ true → is_end terminal ≡ false }
{
    matches!(
        terminal,
        Terminal::Identifier
            | Terminal::Get
            | Terminal::Set
            | Terminal::Word(_)
            | Terminal::EscapedWord
            | Terminal::Number
            | Terminal::Str
    )
}

/// Whether it is `(`.
pub fn is_open_paren(terminal: Terminal) -> bool
    ensures is { result ≡ is_open_paren terminal }
    ensures there { result ≡ true → is_end terminal ≡ false }
{
    matches!(terminal, Terminal::Punct(Punct::LeftParen))
}

/// Whether it is `)`.
pub fn is_close_paren(terminal: Terminal) -> bool
    ensures is { result ≡ is_close_paren terminal }
    ensures there { result ≡ true → is_end terminal ≡ false }
{
    matches!(terminal, Terminal::Punct(Punct::RightParen))
}

/// Whether it is `]`.
pub fn is_close_bracket(terminal: Terminal) -> bool
    ensures is { result ≡ is_close_bracket terminal }
    ensures there { result ≡ true → is_end terminal ≡ false }
{
    matches!(terminal, Terminal::Punct(Punct::RightBracket))
}

/// Whether it is `{`.
pub fn is_open_brace(terminal: Terminal) -> bool
    ensures is { result ≡ is_open_brace terminal }
    ensures there { result ≡ true → is_end terminal ≡ false }
{
    matches!(terminal, Terminal::Punct(Punct::LeftBrace))
}

/// Whether it is `}`.
pub fn is_close_brace(terminal: Terminal) -> bool
    ensures is { result ≡ is_close_brace terminal }
    ensures there { result ≡ true → is_end terminal ≡ false }
{
    matches!(terminal, Terminal::Punct(Punct::RightBrace))
}

/// Whether it is `;`.
pub fn is_semicolon(terminal: Terminal) -> bool
    ensures is { result ≡ is_semicolon terminal }
    ensures there { result ≡ true → is_end terminal ≡ false }
{
    matches!(terminal, Terminal::Punct(Punct::Semicolon))
}

/// Whether it is `,`.
pub fn is_comma(terminal: Terminal) -> bool
    ensures is { result ≡ is_comma terminal }
    ensures there { result ≡ true → is_end terminal ≡ false }
{
    matches!(terminal, Terminal::Punct(Punct::Comma))
}

/// Whether it is `:`.
pub fn is_colon(terminal: Terminal) -> bool
    ensures is { result ≡ is_colon terminal }
    ensures there { result ≡ true → is_end terminal ≡ false }
{
    matches!(terminal, Terminal::Punct(Punct::Colon))
}

/// Whether it is `?`.
pub fn is_question(terminal: Terminal) -> bool
    ensures is { result ≡ is_question terminal }
    ensures there { result ≡ true → is_end terminal ≡ false }
{
    matches!(terminal, Terminal::Punct(Punct::Question))
}

/// Whether it is `=`.
pub fn is_equals(terminal: Terminal) -> bool
    ensures is { result ≡ is_equals terminal }
    ensures there { result ≡ true → is_end terminal ≡ false }
{
    matches!(terminal, Terminal::Punct(Punct::Assign))
}

/// Whether it is `else`.
pub fn is_else(terminal: Terminal) -> bool
    ensures is { result ≡ is_else terminal }
    ensures there { result ≡ true → is_end terminal ≡ false }
{
    matches!(terminal, Terminal::Word(Word::Else))
}

/// Whether it is `finally`.
pub fn is_finally(terminal: Terminal) -> bool
    ensures is { result ≡ is_finally terminal }
    ensures there { result ≡ true → is_end terminal ≡ false }
{
    matches!(terminal, Terminal::Word(Word::Finally))
}

/// Whether it is `catch`.
pub fn is_catch(terminal: Terminal) -> bool
    ensures is { result ≡ is_catch terminal }
    ensures there { result ≡ true → is_end terminal ≡ false }
{
    matches!(terminal, Terminal::Word(Word::Catch))
}

/// Whether it is `function`.
pub fn is_function(terminal: Terminal) -> bool
    ensures is { result ≡ is_function terminal }
    ensures there { result ≡ true → is_end terminal ≡ false }
{
    matches!(terminal, Terminal::Word(Word::Function))
}

/// Whether it is `new`.
pub fn is_new(terminal: Terminal) -> bool
    ensures is { result ≡ is_new terminal }
    ensures there { result ≡ true → is_end terminal ≡ false }
{
    matches!(terminal, Terminal::Word(Word::New))
}

/// Whether it is `while`.
pub fn is_while(terminal: Terminal) -> bool
    ensures is { result ≡ is_while terminal }
    ensures there { result ≡ true → is_end terminal ≡ false }
{
    matches!(terminal, Terminal::Word(Word::While))
}

/// Whether it is `in`.
pub fn is_in(terminal: Terminal) -> bool
    ensures is { result ≡ is_in terminal }
    ensures there { result ≡ true → is_end terminal ≡ false }
{
    matches!(terminal, Terminal::Word(Word::In))
}

/// Whether it is `var`.
pub fn is_var(terminal: Terminal) -> bool
    ensures is { result ≡ is_var terminal }
    ensures there { result ≡ true → is_end terminal ≡ false }
{
    matches!(terminal, Terminal::Word(Word::Var))
}

/// Whether it is `case`.
pub fn is_case(terminal: Terminal) -> bool
    ensures is { result ≡ is_case terminal }
    ensures there { result ≡ true → is_end terminal ≡ false }
{
    matches!(terminal, Terminal::Word(Word::Case))
}

/// Whether it is `default`.
pub fn is_default(terminal: Terminal) -> bool
    ensures is { result ≡ is_default terminal }
    ensures there { result ≡ true → is_end terminal ≡ false }
{
    matches!(terminal, Terminal::Word(Word::Default))
}

/// Whether a semicolon is inserted before it (7.9.1).
pub fn ends_statement(terminal: Terminal) -> bool
    ensures { result ≡ ends_statement terminal }
{
    matches!(terminal, Terminal::Punct(Punct::RightBrace) | Terminal::End)
}

/// Whether a list of statements ends before it (12.1, 12.11, clause 14).
pub fn ends_list(terminal: Terminal) -> bool
    ensures { result ≡ ends_list terminal }
{
    matches!(
        terminal,
        Terminal::Punct(Punct::RightBrace)
            | Terminal::End
            | Terminal::Word(Word::Case)
            | Terminal::Word(Word::Default)
    )
}
