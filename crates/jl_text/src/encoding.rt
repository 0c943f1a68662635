// UTF-8 and UTF-16.
ghost use Rattle.std.specs.Prelude.{◌≡◌, ◌↔◌, ◌++◌, ℕ, IfOk, IsTrue, OnOk};
ghost use Rattle.std.specs.Char.{is_ascii};
ghost use Rattle.std.specs.Char.Escape.{encode_utf16};
ghost use Rattle.std.specs.List.{list_all};
ghost use Rattle.std.specs.Str.{IsUtf8};
ghost use Rattle.std.specs.Str.Lossy.{utf8_valid_len};
ghost use Rattle.jl_text.specs.declared.encoding.Utf8Fault.TheVariants.{NoMemory};
ghost use Rattle.jl_text.specs.Encoding.{units_of, bytes_of, IsNotUtf8At};

use std::alloc::{AllocError, AllocFailed, Global};
use std::str;
use thiserror::Error;

/// Why bytes gave no units.
#[derive(Debug, Drop, Error)]
pub enum Utf8Fault {
    /// The bytes are not UTF-8: the longest prefix of them that is has this many bytes.
    #[error("not UTF-8 at byte {at}")]
    NotUtf8 { at: usize },
    /// No memory was left.
    #[error("out of memory")]
    NoMemory,
}

impl From<AllocError> for Utf8Fault {
    ghost from_gives = { λ _ e. e ≡ NoMemory };

    fn from(_error: AllocError) -> Utf8Fault {
        Utf8Fault::NoMemory
    }
}

impl<T: Drop> From<AllocFailed<T>> for Utf8Fault {
    ghost from_gives = { λ _ e. e ≡ NoMemory };

    fn from(_error: AllocFailed<T>) -> Utf8Fault {
        Utf8Fault::NoMemory
    }
}

/// The UTF-16 units of a text in UTF-8, or the place at which the bytes stop being UTF-8. Its steps are in the order of
/// the number of bytes.
pub fn from_utf8(alloc: Global, bytes: &[u8]) -> Result<Vec<u16>, Utf8Fault>
    ensures made { IfOk result (λ units. IsUtf8 bytes.now × (units.items ≡ units_of bytes.now)) }
    ensures not_utf8 { (at : ℕ) → IsNotUtf8At result at ↔ (¬ (IsUtf8 bytes.now) × (at ≡ utf8_valid_len bytes.now)) }
{
    let text = match str::from_utf8(bytes) {
        Ok(text) => text,
        Err(fault) => {
            return Err(Utf8Fault::NotUtf8 {
                at: fault.valid_up_to(),
            });
        }
    };
    if is_ascii(bytes) {
        return Ok(widened(alloc, bytes)?);
    }
    let mut units = Vec::with_capacity(alloc, bytes.len())?;
    for c in text.chars() {
        push_character(&mut units, c)?;
    }
    Ok(units)
}

/// Whether all bytes are ASCII characters.
fn is_ascii(bytes: &[u8]) -> bool
    ensures { result ≡ list_all is_ascii bytes.now }
{
    bytes.iter().all(|byte| byte.is_ascii())
}

/// Bytes as units, one for one.
fn widened(alloc: Global, bytes: &[u8]) -> Result<Vec<u16>, AllocError>
    ensures { IfOk result (λ units. units.items ≡ bytes.now) }
{
    let mut units = Vec::with_capacity(alloc, bytes.len())?;
    for byte in bytes {
        units.push(u16::from(*byte))?;
    }
    Ok(units)
}

/// Adds the units of a character.
fn push_character(units: &mut Vec<u16>, c: char) -> Result<(), AllocError>
    ensures { OnOk result (units.new.items ≡ units.old.items ++ encode_utf16 c) }
{
    if c.is_ascii() {
        units.push(u32::from(c) as u16)?;
        return Ok(());
    }
    let mut pair = [0; 2];
    units.extend_from_slice(c.encode_utf16(&mut pair))?;
    Ok(())
}

/// The UTF-8 of UTF-16 units, with U+FFFD (the bytes EF BF BD) for each surrogate that has no partner. Its steps are in
/// the order of the number of units.
pub fn to_utf8(alloc: Global, units: &[u16]) -> Result<Vec<u8>, AllocError>
    ensures { IfOk result (λ bytes. bytes.items ≡ bytes_of units.now) }
{
    if has_ascii_alone(units) {
        return narrowed(alloc, units);
    }
    let text = String::from_utf16_lossy(alloc, units)?;
    Ok(text.into_bytes())
}

/// Whether all units are ASCII characters.
fn has_ascii_alone(units: &[u16]) -> bool
    ensures { result ≡ list_all is_ascii units.now }
{
    units.iter().all(|unit| *unit < 128)
}

/// ASCII characters as bytes.
fn narrowed(alloc: Global, units: &[u16]) -> Result<Vec<u8>, AllocError>
    requires { IsTrue (list_all is_ascii units.now) }
    ensures { IfOk result (λ bytes. bytes.items ≡ units.now) }
{
    let mut bytes = Vec::with_capacity(alloc, units.len())?;
    for unit in units {
        bytes.push(*unit as u8)?;
    }
    Ok(bytes)
}
