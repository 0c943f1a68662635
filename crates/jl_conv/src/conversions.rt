ghost use Rattle.std.specs.Prelude.{◌≡◌, ◌≤◌, false, length, IfOk};
ghost use Rattle.std.specs.Result.{result_ok};
ghost use Rattle.jl_text.specs.Limits.{most_units};
ghost use Rattle.jl_num.specs.Digits.{number_text};
ghost use Rattle.jl_value.specs.Tests.{is_object};
ghost use Rattle.jl_conv.specs.Conversions.{truth_of, type_text, bool_number, number_of_value};
ghost use Rattle.jl_conv.specs.Conversions.{text_of_value};

use crate::numerals::text_to_num;
use jl_num::{Num, NumberOutside, digits};
use jl_text::{Text, TextFault};
use jl_value::Value;
use std::alloc::{AllocError, Global};

/// ToBoolean (9.2).
pub fn to_boolean(v: &Value) -> bool
    ensures { result ≡ truth_of v.now }
{
    match v {
        Value::Undefined | Value::Null => false,
        Value::Bool(truth) => *truth,
        Value::Num(number) => match number.value() {
            Some(n) => n != 0,
            None => false,
        },
        Value::Text(text) => text.units().len() > 0,
        Value::Obj(_) => true,
    }
}

/// What `typeof` gives (11.4.3); `callable` tells of an object whether it can be called.
pub fn type_name(v: &Value, callable: bool) -> &'static str
    ensures { result.now ≡ type_text v.now callable }
{
    match v {
        Value::Undefined => "undefined",
        Value::Null => "object",
        Value::Bool(_) => "boolean",
        Value::Num(_) => "number",
        Value::Text(_) => "string",
        Value::Obj(_) => if callable { "function" } else { "object" },
    }
}

/// ToNumber of a boolean (9.3).
pub(crate) fn bool_to_num(truth: bool) -> Num
    ensures { result ≡ bool_number truth }
{
    match Num::new(if truth { 1 } else { 0 }) {
        Ok(number) => number,
        Err(NumberOutside) => unreachable!(),
    }
}

/// ToNumber (9.3) of a value that is no object. Refused exactly where it is a text whose number is outside.
pub fn primitive_to_num(v: &Value) -> Result<Num, NumberOutside>
    requires { is_object v.now ≡ false }
    ensures { result_ok result ≡ number_of_value v.now }
{
    match v {
        Value::Undefined => Ok(Num::NAN),
        Value::Null => Num::new(0),
        Value::Bool(truth) => Ok(bool_to_num(*truth)),
        Value::Num(number) => Ok(*number),
        Value::Text(text) => text_to_num(text.units()),
        Value::Obj(_) => unreachable!(),
    }
}

/// ToString (9.8) of a value that is no object; a text is shared.
pub fn primitive_to_text(alloc: Global, v: &Value) -> Result<Text, AllocError>
    requires { is_object v.now ≡ false }
    ensures { IfOk result (λ t. t ≡ text_of_value v.now) }
{
    match v {
        Value::Undefined => text_of(alloc, b"undefined"),
        Value::Null => text_of(alloc, b"null"),
        Value::Bool(true) => text_of(alloc, b"true"),
        Value::Bool(false) => text_of(alloc, b"false"),
        Value::Num(number) => number_to_text(alloc, *number),
        Value::Text(text) => text.share(alloc),
        Value::Obj(_) => unreachable!(),
    }
}

// ToString of a number (9.8.1).
fn number_to_text(alloc: Global, number: Num) -> Result<Text, AllocError>
    ensures { IfOk result (λ t. t ≡ number_text number 10) }
{
    let digits = digits(alloc, number, 10)?;
    text_of(alloc, digits.as_slice())
}

// The text of characters that are one byte each.
fn text_of(alloc: Global, characters: &[u8]) -> Result<Text, AllocError>
    requires { length characters.now ≤ most_units }
    ensures { IfOk result (λ t. t ≡ characters.now) }
{
    let mut units = Vec::new(alloc);
    for character in characters {
        units.push(u16::from(*character))?;
    }
    match Text::from_units(alloc, units.as_slice()) {
        Ok(text) => Ok(text),
        Err(TextFault::NoMemory) => Err(AllocError),
        Err(TextFault::TooLong) => unreachable!(),
    }
}
