//! Words of ASCII characters, as texts.
ghost use Rattle.std.specs.Prelude.{◌≡◌, ◌≤◌, length, IfOk};

use crate::text::{FEW, Text, TextFault, few};
use std::alloc::{AllocError, Global};

/// The text of a word of ASCII characters, which is far shorter than a text may be; a longer one is answered as if no
/// memory were left.
pub fn word(alloc: Global, word: &str) -> Result<Text, AllocError>
    ensures { IfOk result (λ text. text ≡ word.now) }
{
    ascii(alloc, word.as_bytes())
}

/// The text of ASCII characters, which are far fewer than a text may have.
pub fn ascii(alloc: Global, bytes: &[u8]) -> Result<Text, AllocError>
    ensures { IfOk result (λ text. text ≡ bytes.now) }
{
    if bytes.len() <= FEW {
        return few_ascii(alloc, bytes);
    }
    let mut units = Vec::with_capacity(alloc, bytes.len())?;
    for byte in bytes {
        units.push(u16::from(*byte))?;
    }
    match Text::from_units(alloc, units.as_slice()) {
        Ok(text) => Ok(text),
        Err(TextFault::NoMemory | TextFault::TooLong) => Err(AllocError),
    }
}

/// The text of few ASCII characters.
fn few_ascii(alloc: Global, bytes: &[u8]) -> Result<Text, AllocError>
    requires { length bytes.now ≤ 11 }
    ensures { IfOk result (λ text. text ≡ bytes.now) }
{
    let mut units = [0; FEW];
    for at in 0..bytes.len() {
        units[at] = u16::from(bytes[at]);
    }
    few(alloc, &units[..bytes.len()])
}
