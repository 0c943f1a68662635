ghost use Rattle.std.specs.Prelude.{◌≡◌, IfOk};
ghost use Rattle.jl_token.specs.Spelling.{spelling_of};

use crate::token::{Token, TokenKind};
use jl_num::digits;
use jl_text::quote;
use std::alloc::{AllocError, Global};

/// The spelling of a token: a name's characters, a punctuator, a number's decimal digits, a string between quotes.
pub fn spelling(alloc: Global, token: &Token) -> Result<Vec<u16>, AllocError>
    ensures { IfOk result (λ made. made.items ≡ spelling_of token.now.kind) }
{
    match &token.kind {
        TokenKind::Name { text, .. } => Vec::from_slice(alloc, text.units()),
        TokenKind::Punct(punct) => widen(alloc, punct.text()),
        TokenKind::Number(number) => {
            let text = digits(alloc, *number, 10)?;
            widen(alloc, text.as_slice())
        }
        TokenKind::Str { text, .. } => quote(alloc, text.units()),
    }
}

// ASCII characters as UTF-16 units.
fn widen(alloc: Global, text: &[u8]) -> Result<Vec<u16>, AllocError>
    ensures { IfOk result (λ made. made.items ≡ text.now) }
{
    let mut units = Vec::with_capacity(alloc, text.len())?;
    for byte in text {
        units.push(u16::from(*byte))?;
    }
    Ok(units)
}
