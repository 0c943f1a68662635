ghost use Rattle.std.specs.Prelude.{◌≡◌, IfOk};
ghost use Rattle.jl_value.specs.Tests.{is_nothing, is_object, is_undefined};

use crate::object::{Class, ObjId};
use jl_num::Num;
use jl_text::Text;
use std::alloc::{AllocError, Global};

/// A value of a running script (8.1 to 8.6).
pub enum Value {
    Undefined,
    Null,
    Bool(bool),
    Num(Num),
    Text(Text),
    Obj(ObjId),
}

// By hand: a proof that lets go of a value calls it, where it would open a derived one with all variants.
impl Drop for Value {
    fn drop(self) {
        match self {
            Value::Undefined
            | Value::Null
            | Value::Bool(_)
            | Value::Num(_)
            | Value::Text(_)
            | Value::Obj(_) => {}
        }
    }
}

/// A value as an operation saw it, with the class that it had then, which is `Primitive` for a value that is no object.
#[derive(Drop)]
pub struct Seen {
    pub value: Value,
    pub class: Class,
}

/// The same value. It takes no memory but where the units of a text have to be copied.
pub fn share(alloc: Global, v: &Value) -> Result<Value, AllocError>
    ensures { IfOk result (λ w. w ≡ v.now) }
{
    Ok(match v {
        Value::Undefined => Value::Undefined,
        Value::Null => Value::Null,
        Value::Bool(truth) => Value::Bool(*truth),
        Value::Num(number) => Value::Num(*number),
        Value::Text(text) => Value::Text(text.share(alloc)?),
        Value::Obj(id) => Value::Obj(*id),
    })
}

/// The same value, if there is one.
pub fn share_optional(alloc: Global, value: &Option<Value>) -> Result<Option<Value>, AllocError>
    ensures { IfOk result (λ same. same ≡ value.now) }
{
    match value {
        Some(value) => Ok(Some(share(alloc, value)?)),
        None => Ok(None),
    }
}

/// Whether a value is undefined (8.1).
pub fn is_undefined(v: &Value) -> bool
    ensures { result ≡ is_undefined v.now }
{
    matches!(v, Value::Undefined)
}

/// Whether a value is undefined or null (8.1, 8.2).
pub fn is_nothing(v: &Value) -> bool
    ensures { result ≡ is_nothing v.now }
{
    matches!(v, Value::Undefined | Value::Null)
}

/// Whether a value is an object (8.6).
pub fn is_object(v: &Value) -> bool
    ensures { result ≡ is_object v.now }
{
    matches!(v, Value::Obj(_))
}
