//! How a value is seen by operations, and the text by which it is told.
ghost use Rattle.std.specs.Prelude.{◌≡◌, ◌++◌, IfOk, OnOk};
ghost use Rattle.jl_heap.specs.Describe.{error_text, escape_units};

use crate::heap::Heap;
use crate::property::Prop;
use jl_text::{NoMemory, Text, quote};
use jl_value::{Class, ObjId, Seen, Value, share};
use std::alloc::Global;

impl Heap {
    ghost use Rattle.jl_heap.specs.Describe.{seen_of, class_of_value, description_of, described_object, text_found};
    ghost use Rattle.jl_heap.specs.Objects.{find, object_at};

    /// A value with the class that it has now, which is `Primitive` for a value that is no object.
    pub fn seen(&self, v: &Value) -> Result<Seen, NoMemory>
        ensures { IfOk result (λ seen. seen ≡ seen_of self.now v.now) }
    {
        let class = match v {
            Value::Obj(id) => self.class_of(*id),
            _ => Class::Primitive,
        };
        Ok(Seen {
            value: share(self.alloc, v)?,
            class,
        })
    }

    /// The text by which a value is told: a text between quotes, and any other primitive value as its string (9.8); an
    /// object of class Error by the texts that its properties `name` and `message` hold, and any other by its class.
    /// No code of the script is called.
    pub fn describe(&self, v: &Value) -> Result<Vec<u16>, NoMemory>
        ensures { IfOk result (λ text. text.items ≡ description_of self.now v.now) }
    {
        match v {
            Value::Obj(id) => self.describe_object(*id),
            _ => self.seen(v)?.text(self.alloc),
        }
    }

    fn describe_object(&self, id: ObjId) -> Result<Vec<u16>, NoMemory>
        ensures { IfOk result (λ text. text.items ≡ described_object self.now id (object_at self.now id.0).class) }
    {
        let class = self.class_of(id);
        if class != Class::Error {
            let seen = Seen {
                value: Value::Obj(id),
                class,
            };
            return seen.text(self.alloc);
        }
        let name = self.text_found(id, b"name", b"Error")?;
        let message = self.text_found(id, b"message", b"")?;
        error_text(self.alloc, &name, &message)
    }

    // The text that a data property of this name holds, and the other one where none holds a text.
    fn text_found(&self, id: ObjId, name: &[u8], other: &[u8]) -> Result<Vec<u16>, NoMemory>
        ensures { IfOk result (λ text. text.items ≡ text_found (find self.now id.0 name.now) other.now) }
    {
        let name = ascii_text(self.alloc, name)?;
        match self.find(id, &name) {
            Some(
                (
                    _,
                    Prop::Plain {
                        value: Value::Text(text),
                        ..
                    },
                ),
            ) => Vec::from_slice(self.alloc, text.units()),
            _ => ascii(self.alloc, other),
        }
    }
}

fn ascii(alloc: Global, codes: &[u8]) -> Result<Vec<u16>, NoMemory>
    ensures { IfOk result (λ units. units.items ≡ codes.now) }
{
    let mut units = Vec::with_capacity(alloc, codes.len())?;
    push_ascii(&mut units, codes)?;
    Ok(units)
}

fn push_ascii(units: &mut Vec<u16>, codes: &[u8]) -> Result<(), NoMemory>
    ensures { OnOk result (units.new.items ≡ units.old.items ++ codes.now) }
{
    for code in codes {
        units.push(u16::from(*code))?;
    }
    Ok(())
}

/// The text of these ASCII codes.
pub(crate) fn ascii_text(alloc: Global, codes: &[u8]) -> Result<Text, NoMemory>
    ensures { IfOk result (λ text. text ≡ codes.now) }
{
    match Text::from_units(alloc, &ascii(alloc, codes)?) {
        Ok(text) => Ok(text),
        Err(_) => Err(NoMemory),
    }
}

// The name of an error, and its message unless that is empty.
fn error_text(alloc: Global, name: &[u16], message: &[u16]) -> Result<Vec<u16>, NoMemory>
    ensures { IfOk result (λ text. text.items ≡ error_text name.now message.now) }
{
    let mut text = Vec::new(alloc);
    push_escaped(alloc, &mut text, name)?;
    if message.is_empty() {
        return Ok(text);
    }
    push_ascii(&mut text, b": ")?;
    push_escaped(alloc, &mut text, message)?;
    Ok(text)
}

// Units as they are written between quotes.
fn push_escaped(alloc: Global, text: &mut Vec<u16>, units: &[u16]) -> Result<(), NoMemory>
    ensures { OnOk result (text.new.items ≡ text.old.items ++ escape_units units.now) }
{
    let quoted = quote(alloc, units)?;
    text.extend_from_slice(&quoted[1..quoted.len() - 1])?;
    Ok(())
}
