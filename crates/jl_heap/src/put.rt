//! The value of a property put, where no more than that comes of it.
ghost use Rattle.std.specs.Prelude.{◌≡◌, ◌↔◌, IfErr, IsOk, IsTrue, OnErr, OnOk, Some, if◌then◌else◌};
ghost use Rattle.jl_heap.specs.Define.{is_writable};
ghost use Rattle.jl_heap.specs.Property.{value_change, with_value};
ghost use Rattle.jl_heap.specs.declared.property.Defined.TheVariants.{Done};

use crate::array::{is_length_name, length_of};
use crate::heap::Heap;
use crate::property::Prop;
use jl_text::Text;
use jl_value::{Class, ObjId, Value, array_index};

impl Heap {
    ghost use Rattle.jl_heap.specs.Define.{define_own_property, keeps_length, takes_value_alone};

    /// Gives an own data property that can be written another value, as `define` of that value alone does (8.12.5, step
    /// 3), in one look-up, or in two on an array. The value comes back where there is no such property, and for the
    /// `length` of an array and an element from its length on; then all is as before. It takes no memory.
    pub fn set_value(&mut self, id: ObjId, name: &Text, value: Value) -> Result<(), Value>
        ensures done { OnOk result
            ((self.new, Done) ≡ define_own_property self.old id.0 name.now (value_change value)) }
        ensures err { OnErr result (self.new ≡ self.old) }
        ensures value_returned { IfErr result (λ v. v ≡ value) }
        ensures taken { IsOk result ↔ IsTrue (takes_value_alone self.old id.0 name.now) }
    {
        if !self.keeps_length(id, name) {
            return Err(value);
        }
        let Some(property) = self.properties.get_mut(id.0, name) else {
            return Err(value);
        };
        property.set_value(value)
    }

    /// Whether a change of a value under this name leaves the length of an array.
    fn keeps_length(&self, id: ObjId, name: &Text) -> bool
        ensures { result ≡ keeps_length self.now id.0 name.now }
    {
        if self.class_of(id) != Class::Array {
            return true;
        }
        if is_length_name(name) {
            return false;
        }
        match array_index(name.units()) {
            Some(index) => u64::from(index) < length_of(self.length(id)),
            None => true,
        }
    }
}

impl Prop {
    /// Puts a value in place of that of a data property that can be written; else it comes back.
    fn set_value(&mut self, value: Value) -> Result<(), Value>
        ensures property { self.new ≡ (if is_writable (Some self.old) then with_value self.old value else self.old) }
        ensures value_returned { IfErr result (λ v. v ≡ value) }
        ensures taken { IsOk result ↔ IsTrue (is_writable (Some self.old)) }
    {
        match self {
            Prop::Plain {
                value: present,
                writable,
                ..
            } if *writable => {
                *present = value;
                Ok(())
            }
            _ => Err(value),
        }
    }
}
