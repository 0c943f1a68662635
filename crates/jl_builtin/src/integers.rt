//! Integers of numbers, and the indices that they say (9.4, 15.4.4, 15.5.4).
ghost use Rattle.std.specs.Prelude.{◌≡◌, min, IfOk};
ghost use Rattle.jl_conv.specs.Conversions.{number_of_value};
ghost use Rattle.jl_meaning.specs.Conversions.{integer_of};
ghost use Rattle.jl_meaning.specs.builtins.Elements.{clamp, index_or_none, relative_index};
ghost use Rattle.jl_num.specs.Bits.{uint32_of};

use jl_num::{Num, to_uint32};
use jl_operator::number_of;
use jl_store::count;
use jl_text::NoMemory;
use jl_value::Value;

/// ToInteger of a number (9.4).
pub fn integer_of(n: Num) -> i64
    ensures { result ≡ integer_of n }
{
    n.value().unwrap_or(0)
}

/// The index that a number says, from 0 up to a length.
pub fn clamp(n: Num, length: usize) -> usize
    ensures { result ≡ clamp (integer_of n) length }
{
    let z = integer_of(n);
    if z < 0 {
        0
    } else {
        least(z.unsigned_abs(), length)
    }
}

/// The index that a number says, up to a length, counted from the end where the number is below zero.
pub fn relative_index(n: Num, length: usize) -> usize
    ensures { result ≡ relative_index (integer_of n) length }
{
    let z = integer_of(n);
    let size = least(z.unsigned_abs(), length);
    if z < 0 { length - size } else { size }
}

/// The index that was found, or -1.
pub fn index_or_none(k: Option<usize>) -> Result<Value, NoMemory>
    ensures { IfOk result (λ v. v ≡ index_or_none k) }
{
    match k {
        Some(k) => count(k),
        None => match Num::new(-1) {
            Ok(n) => Ok(Value::Num(n)),
            Err(_) => Err(NoMemory),
        },
    }
}

/// The length that a number says (9.6).
pub fn length_of(n: Num) -> usize
    ensures { result ≡ uint32_of n }
{
    to_uint32(n) as usize
}

/// ToNumber of a primitive value (9.3); none where that is no number of a script, or the value an object.
pub fn number_of_primitive(v: &Value) -> Option<Num>
    ensures { result ≡ number_of_value v.now }
{
    number_of(v).ok()
}

/// The lesser of an integer and a length.
fn least(size: u64, length: usize) -> usize
    ensures { result ≡ min size length }
{
    match usize::try_from(size) {
        Ok(size) if size < length => size,
        _ => length,
    }
}
