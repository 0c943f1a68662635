// A text in bytes that is kept up to a limit.
ghost use Rattle.std.specs.Prelude.{◌≡◌, ◌<◌, ◌≤◌, ◌^◌, ◌++◌, ◌∷◌, All, List, ℕ, [], true, length, OnOk, IfOk};
ghost use Rattle.std.specs.Fmt.{decimal};
ghost use Rattle.jl_text.specs.Encoding.{bytes_of};
ghost use Rattle.jl_text.specs.Quoted.{quote};
ghost use Rattle.jl_record.specs.Bounded.{Holds, Appends};
ghost use Rattle.jl_record.specs.Plain.{is_plain};
ghost use Rattle.jl_record.specs.Recording.{OnTooLong};

use crate::refusal::RecordRefusal;
use itoa::Buffer;
use jl_text::{quote, to_utf8};
use std::alloc::{AllocError, Global};

/// The bytes of a text, or only that they were more than the limit.
#[derive(Drop)]
pub(crate) struct Bounded {
    pub(crate) limit: u64,
    pub(crate) passed: bool,
    pub(crate) bytes: Vec<u8>,
}

// It does nothing: of what a list holds, a proof knows the range only where it is read.
fn units_are_small(units: &[u16])
    ensures { All (λ u. u < 2 ^ 16) units.now }
{
    for unit in units {
        let _unit = *unit;
    }
}

impl Bounded {
    /// The empty text.
    pub(crate) fn new(alloc: Global, limit: u64) -> Bounded
        ensures limit { result.limit ≡ limit }
        ensures holds { Holds result [] }
    {
        Bounded {
            limit,
            passed: false,
            bytes: Vec::new(alloc),
        }
    }

    /// Appends the bytes of more units, if they fit.
    fn append(&mut self, bytes: &[u8]) -> Result<(), AllocError>
        ensures limit { self.new.limit ≡ self.old.limit }
        ensures holds { OnOk result ((units more : List ℕ)
            → bytes_of (units ++ more) ≡ bytes_of units ++ bytes.now → Holds self.old units
            → Holds self.new (units ++ more)) }
    {
        if self.passed {
            return Ok(());
        }
        if self.bytes.len() as u64 + bytes.len() as u64 > self.limit {
            self.passed = true;
            return Ok(());
        }
        self.bytes.extend_from_slice(bytes)?;
        Ok(())
    }

    /// Appends ASCII characters.
    pub(crate) fn word(&mut self, word: &str) -> Result<(), AllocError>
        requires { is_plain word.now ≡ true }
        ensures limit { self.new.limit ≡ self.old.limit }
        ensures holds { OnOk result (Appends self.old self.new word.now) }
    {
        self.append(word.as_bytes())
    }

    /// Appends the digits of a number.
    pub(crate) fn number(&mut self, number: u64) -> Result<(), AllocError>
        ensures limit { self.new.limit ≡ self.old.limit }
        ensures holds { OnOk result (Appends self.old self.new (decimal number)) }
    {
        let mut digits = Buffer::new();
        self.append(digits.format(number).as_bytes())
    }

    /// Appends a text between quotes.
    pub(crate) fn quoted(&mut self, alloc: Global, units: &[u16]) -> Result<(), AllocError>
        ensures limit { self.new.limit ≡ self.old.limit }
        ensures holds { OnOk result (Appends self.old self.new (quote units.now)) }
        ensures small { All (λ u. u < 2 ^ 16) units.now }
    {
        units_are_small(units);
        let quoted = quote(alloc, units)?;
        let bytes = to_utf8(alloc, &quoted)?;
        self.append(&bytes)
    }

    /// The bytes of this text and then of another, where this one ends with LF and has the same limit.
    pub(crate) fn followed_by(self, tail: Bounded) -> Result<Vec<u8>, RecordRefusal>
        requires { tail.limit ≡ self.limit }
        ensures found { IfOk result (λ bytes. (us vs : List ℕ) → Holds self (us ++ 10 ∷ []) → Holds tail vs
            → bytes.items ≡ bytes_of ((us ++ 10 ∷ []) ++ vs)) }
        ensures within { IfOk result (λ bytes. length bytes.items ≤ self.limit) }
        ensures too_long { OnTooLong result ((us vs : List ℕ) → Holds self (us ++ 10 ∷ []) → Holds tail vs
            → self.limit < length (bytes_of ((us ++ 10 ∷ []) ++ vs))) }
    {
        if self.passed || tail.passed {
            return Err(RecordRefusal::TooLong);
        }
        let front = self.bytes.len();
        if front as u64 + tail.bytes.len() as u64 > self.limit {
            return Err(RecordRefusal::TooLong);
        }
        let Bounded { mut bytes, .. } = tail;
        bytes.extend_from_slice(&self.bytes)?;
        bytes.rotate_right(front);
        Ok(bytes)
    }
}
