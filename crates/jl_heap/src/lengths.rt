//! The property `length` of an array of the heap, which is made before its others.
ghost use Rattle.std.specs.Prelude.{◌≡◌, IsTrue, IsSome};
ghost use Rattle.std.specs.Option.{option_copied};

use crate::heap::Heap;
use crate::property::Prop;
use jl_value::ObjId;

impl Heap {
    ghost use Rattle.jl_heap.specs.Define.{is_array, length_name, with_property};
    ghost use Rattle.jl_heap.specs.Objects.{object_at, own};

    /// The property `length` of an array.
    pub(crate) fn length(&self, id: ObjId) -> Option<&Prop>
        requires { IsTrue (is_array (object_at self.now id.0).class) }
        ensures { option_copied result ≡ own self.now id.0 length_name }
    {
        match &self.length_name {
            Some(name) => self.properties.get(id.0, name),
            None => None,
        }
    }

    /// Stores a property in place of the property `length` of an array.
    pub(crate) fn set_length(&mut self, id: ObjId, length: Prop)
        requires array { IsTrue (is_array (object_at self.old id.0).class) }
        requires there { IsSome (own self.old id.0 length_name) }
        ensures { self.new ≡ with_property self.old id.0 length_name length }
    {
        match &self.length_name {
            Some(name) => self.properties.set(id.0, name, length),
            None => {}
        }
    }
}
