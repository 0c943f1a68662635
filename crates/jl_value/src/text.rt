// The text of a value, as the lines of a trace have it.
ghost use Rattle.std.specs.Prelude.{◌≡◌, ◌++◌, IfOk, OnOk};
ghost use Rattle.jl_value.specs.Texts.{class_name, value_text};

use crate::object::Class;
use crate::value::{Seen, Value};
use jl_num::digits;
use jl_text::quote;
use std::alloc::{AllocError, Global};

impl Class {
    /// Its name (8.6.2).
    pub fn name(self) -> &'static str
        ensures { result.now ≡ class_name self }
    {
        match self {
            Class::Primitive => "Primitive",
            Class::Object => "Object",
            Class::Function => "Function",
            Class::Array => "Array",
            Class::String => "String",
            Class::Number => "Number",
            Class::Boolean => "Boolean",
            Class::Error => "Error",
            Class::Arguments => "Arguments",
            Class::Math => "Math",
        }
    }
}

impl Seen {
    /// The text of the value: `undefined`, `null`, `true`, `false`, the digits of a number or `NaN`, a text between
    /// quotes, or `[CLASS]` for an object. One pass over the units of a text.
    pub fn text(&self, alloc: Global) -> Result<Vec<u16>, AllocError>
        ensures { IfOk result (λ text. text.items ≡ value_text self.now.value self.now.class) }
    {
        match &self.value {
            Value::Undefined => word(alloc, "undefined"),
            Value::Null => word(alloc, "null"),
            Value::Bool(true) => word(alloc, "true"),
            Value::Bool(false) => word(alloc, "false"),
            Value::Num(number) => units(alloc, digits(alloc, *number, 10)?.as_slice()),
            Value::Text(text) => quote(alloc, text.units()),
            Value::Obj(_) => {
                let class = self.class.name();
                word(alloc, format!(in alloc; "[{class}]")?.as_str())
            }
        }
    }
}

fn word(alloc: Global, word: &str) -> Result<Vec<u16>, AllocError>
    ensures { IfOk result (λ made. made.items ≡ word.now) }
{
    units(alloc, word.as_bytes())
}

// A unit for each byte.
fn units(alloc: Global, bytes: &[u8]) -> Result<Vec<u16>, AllocError>
    ensures { IfOk result (λ made. made.items ≡ bytes.now) }
{
    let mut made = Vec::with_capacity(alloc, bytes.len())?;
    for byte in bytes {
        made.push(u16::from(*byte))?;
    }
    Ok(made)
}
