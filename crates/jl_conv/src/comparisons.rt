ghost use Rattle.std.specs.Prelude.{◌≡◌, false};
ghost use Rattle.std.specs.Result.{result_ok};
ghost use Rattle.jl_value.specs.Tests.{is_object};
ghost use Rattle.jl_conv.specs.Comparisons.{equal_numbers, strictly_equal, loosely_equal, less_than};

use crate::conversions::{bool_to_num, primitive_to_num};
use crate::numerals::text_to_num;
use jl_num::{Num, NumberOutside, compare};
use jl_text::Text;
use jl_value::Value;
use std::cmp::Ordering;

fn equal_numbers(a: Num, b: Num) -> bool
    ensures { result ≡ equal_numbers a b }
{
    match compare(a, b) {
        Some(Ordering::Equal) => true,
        _ => false,
    }
}

/// `a === b` (11.9.6). Of texts all units are compared.
pub fn strict_equal(a: &Value, b: &Value) -> bool
    ensures { result ≡ strictly_equal a.now b.now }
{
    match (a, b) {
        (Value::Undefined, Value::Undefined) | (Value::Null, Value::Null) => true,
        (Value::Bool(x), Value::Bool(y)) => x == y,
        (Value::Num(x), Value::Num(y)) => equal_numbers(*x, *y),
        (Value::Text(x), Value::Text(y)) => x.units() == y.units(),
        (Value::Obj(x), Value::Obj(y)) => x == y,
        _ => false,
    }
}

/// `a == b` (11.9.3) for two values that are no objects, or two objects. Refused exactly where a text is converted
/// whose number is outside.
pub fn primitive_equal(a: &Value, b: &Value) -> Result<bool, NumberOutside>
    requires { is_object a.now ≡ is_object b.now }
    ensures { result_ok result ≡ loosely_equal a.now b.now }
{
    match (a, b) {
        (Value::Undefined, Value::Null) | (Value::Null, Value::Undefined) => Ok(true),
        (Value::Num(x), Value::Text(y)) => Ok(equal_numbers(*x, text_to_num(y.units())?)),
        (Value::Text(x), Value::Num(y)) => Ok(equal_numbers(text_to_num(x.units())?, *y)),
        (Value::Bool(x), Value::Num(y)) => Ok(equal_numbers(bool_to_num(*x), *y)),
        (Value::Bool(x), Value::Text(y)) => Ok(equal_numbers(
            bool_to_num(*x),
            text_to_num(y.units())?,
        )),
        (Value::Num(x), Value::Bool(y)) => Ok(equal_numbers(*x, bool_to_num(*y))),
        (Value::Text(x), Value::Bool(y)) => Ok(equal_numbers(
            text_to_num(x.units())?,
            bool_to_num(*y),
        )),
        _ => Ok(strict_equal(a, b)),
    }
}

/// `a < b` (11.8.5) for two values that are no objects, or None where a number is NaN. Refused exactly where a text is
/// converted whose number is outside.
pub fn primitive_less(a: &Value, b: &Value) -> Result<Option<bool>, NumberOutside>
    requires left { is_object a.now ≡ false }
    requires right { is_object b.now ≡ false }
    ensures { result_ok result ≡ less_than a.now b.now }
{
    if let (Value::Text(x), Value::Text(y)) = (a, b) {
        return Ok(Some(Text::compare(x, y) == Ordering::Less));
    }
    let x = primitive_to_num(a)?;
    let y = primitive_to_num(b)?;
    match compare(x, y) {
        Some(order) => Ok(Some(order == Ordering::Less)),
        None => Ok(None),
    }
}
