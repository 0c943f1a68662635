//! What rules ask of the values that an operation saw.
ghost use Rattle.std.specs.Prelude.{◌≡◌};
ghost use Rattle.jl_analysis.specs.Values.{is_number, is_nan, is_text};
ghost use Rattle.jl_analysis.specs.Values.{is_object_at, is_wrapper, are_of_one_type};

use jl_value::{Class, ObjId, Value};

/// Whether the value is a number, or NaN.
pub fn is_number(value: &Value) -> bool
    ensures { result ≡ is_number value.now }
{
    matches!(value, Value::Num(_))
}

/// Whether the value is NaN.
pub fn is_nan(value: &Value) -> bool
    ensures { result ≡ is_nan value.now }
{
    match value {
        Value::Num(number) => number.value().is_none(),
        _ => false,
    }
}

/// Whether the value is a text.
pub fn is_text(value: &Value) -> bool
    ensures { result ≡ is_text value.now }
{
    matches!(value, Value::Text(_))
}

/// Whether the value is this object.
pub fn is_object_at(value: &Value, place: ObjId) -> bool
    ensures { result ≡ is_object_at value.now place.0 }
{
    match value {
        Value::Obj(id) => id.0 == place.0,
        _ => false,
    }
}

/// Whether the values are of one type (clause 8).
pub fn are_of_one_type(a: &Value, b: &Value) -> bool
    ensures { result ≡ are_of_one_type a.now b.now }
{
    matches!(
        (a, b),
        (Value::Undefined, Value::Undefined)
            | (Value::Null, Value::Null)
            | (Value::Bool(_), Value::Bool(_))
            | (Value::Num(_), Value::Num(_))
            | (Value::Text(_), Value::Text(_))
            | (Value::Obj(_), Value::Obj(_))
    )
}

/// Whether objects of this class stand for a primitive value (15.5 to 15.7).
pub fn is_wrapper(class: Class) -> bool
    ensures { result ≡ is_wrapper class }
{
    matches!(class, Class::Boolean | Class::Number | Class::String)
}
