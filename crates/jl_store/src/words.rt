//! Indices, counts and units, as texts and values.
ghost use Rattle.std.specs.Prelude.{◌≡◌, pos, IfOk, Some};
ghost use Rattle.jl_meaning.specs.FunctionObjects.{whole};
ghost use Rattle.jl_meaning.specs.forms.Literals.{index_name};

use jl_num::{Num, digits};
use jl_text::{NoMemory, Text, TextFault, ascii};
use jl_value::Value;
use std::alloc::Global;

/// The name of an index (9.8.1).
pub fn index_name(alloc: Global, index: usize) -> Result<Text, NoMemory>
    ensures { IfOk result (λ text. text ≡ index_name index) }
{
    let digits = digits(alloc, number(index)?, 10)?;
    ascii(alloc, digits.as_slice())
}

/// The text of units that are far fewer than a text may have.
pub(crate) fn text_of(alloc: Global, units: &[u16]) -> Result<Text, NoMemory>
    ensures { IfOk result (λ text. text ≡ units.now) }
{
    match Text::from_units(alloc, units) {
        Ok(text) => Ok(text),
        Err(TextFault::NoMemory | TextFault::TooLong) => Err(NoMemory),
    }
}

/// A count of things that are in memory, as a value. No memory holds more things than there are numbers.
pub fn count(n: usize) -> Result<Value, NoMemory>
    ensures { IfOk result (λ value. value ≡ whole n) }
{
    Ok(Value::Num(number(n)?))
}

/// A count of things that are in memory. No memory holds more things than there are numbers.
fn number(n: usize) -> Result<Num, NoMemory>
    ensures { IfOk result (λ number. number ≡ Some (pos n)) }
{
    match i64::try_from(n) {
        Ok(n) => match Num::new(n) {
            Ok(number) => Ok(number),
            Err(_) => Err(NoMemory),
        },
        Err(_) => Err(NoMemory),
    }
}
