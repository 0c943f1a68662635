//! Properties of arrays defined (15.4.5.1).
ghost use Rattle.std.specs.Prelude.{◌≡◌, ◌↔◌, IfOk, IsTrue, OnErr, Some};

use crate::array::{
    is_length, is_length_name, is_writable, kept_open, length_of, longer_length, new_length,
    refuses_element,
};
use crate::heap::Heap;
use crate::property::{Change, Defined};
use crate::revise::property_after;
use jl_text::{NoMemory, Text};
use jl_value::{Class, ObjId, array_index};

impl Heap {
    ghost use Rattle.jl_heap.specs.Define.{FitsLength, IsLength, IsOneKind, define_own_property, define_array_element};
    ghost use Rattle.jl_heap.specs.Define.{define_array_length};
    ghost use Rattle.jl_heap.specs.Define.{defined_shorter, is_array, length_name};
    ghost use Rattle.jl_heap.specs.Objects.{object_at, own};
    ghost use Rattle.jl_value.specs.Indices.{index_of};

    /// Makes of a property what is asked of it, or rejects that (8.12.9, and 15.4.5.1 on an array). What isn't there is
    /// made; what is there gets the fields that are given. A rejected change leaves all as it was, but for a smaller
    /// `length` of an array, which is cut down to the first element from its end that can't be deleted. Where no memory
    /// is left, all is as before. It looks up the name, and on an array `length`. To make an array shorter it looks up
    /// each index that is given up, or each property where these are fewer.
    pub fn define(&mut self, id: ObjId, name: &Text, change: Change) -> Result<Defined, NoMemory>
        requires one_kind { IsOneKind change }
        requires length { FitsLength self.old id.0 name.now change }
        ensures ok { IfOk result (λ d. (self.new, d) ≡ define_own_property self.old id.0 name.now change) }
        ensures err { OnErr result (self.new ≡ self.old) }
    {
        match self.class_of(id) {
            Class::Array => self.define_on_array(id, name, change),
            _ => self.define_plainly(id, name, change),
        }
    }

    /// Whether a change, under a name of an object, gives no value to the `length` of an array but a whole number from
    /// 0 to 4,294,967,295, as `define` asks.
    pub fn fits_length(&self, id: ObjId, name: &Text, change: &Change) -> bool
        ensures { IsTrue result ↔ FitsLength self.now id.0 name.now change.now }
    {
        self.class_of(id) != Class::Array
            || !is_length_name(name)
            || is_length(change.value.as_ref())
    }

    /// The same on an array.
    fn define_on_array(
        &mut self,
        id: ObjId,
        name: &Text,
        change: Change,
    ) -> Result<Defined, NoMemory>
        requires array { IsTrue (is_array (object_at self.old id.0).class) }
        requires one_kind { IsOneKind change }
        requires length { FitsLength self.old id.0 name.now change }
        ensures ok { IfOk result (λ d. (self.new, d) ≡ define_own_property self.old id.0 name.now change) }
        ensures err { OnErr result (self.new ≡ self.old) }
    {
        if is_length_name(name) {
            return self.define_length(id, name, change);
        }
        match array_index(name.units()) {
            Some(index) => self.define_element(id, name, index, change),
            None => self.define_plainly(id, name, change),
        }
    }

    /// Changes the element of an array at an index (15.4.5.1, step 4).
    fn define_element(
        &mut self,
        id: ObjId,
        name: &Text,
        index: u32,
        change: Change,
    ) -> Result<Defined, NoMemory>
        requires array { IsTrue (is_array (object_at self.old id.0).class) }
        requires element { index_of name.now ≡ Some index }
        requires one_kind { IsOneKind change }
        ensures ok { IfOk result (λ d. (self.new, d)
            ≡ define_array_element self.old id.0 name.now index change (own self.old id.0 length_name)) }
        ensures err { OnErr result (self.new ≡ self.old) }
    {
        let length = self.length(id);
        if refuses_element(length, index) {
            return Ok(Defined::Rejected);
        }
        let longer = longer_length(length, index);
        let answer = self.define_plainly(id, name, change)?;
        match (answer, longer) {
            (Defined::Done, Some(length)) => self.set_length(id, length),
            _ => {}
        }
        Ok(answer)
    }

    /// Changes the property `length` of an array (15.4.5.1, step 3).
    fn define_length(&mut self, id: ObjId, name: &Text, change: Change) -> Result<Defined, NoMemory>
        requires array { IsTrue (is_array (object_at self.old id.0).class) }
        requires named { name.now ≡ length_name }
        requires one_kind { IsOneKind change }
        requires length { IsLength change.value }
        ensures ok { IfOk result (λ d. (self.new, d)
            ≡ define_array_length self.old id.0 change change.value (own self.old id.0 length_name)) }
        ensures err { OnErr result (self.new ≡ self.old) }
    {
        let high = length_of(self.own(id, name));
        match new_length(&change) {
            Some(low) if u64::from(low) < high => self.define_shorter(id, name, change, low),
            _ => self.define_plainly(id, name, change),
        }
    }

    /// The same where the count that is given is smaller than the present one (15.4.5.1, from step 3.g on).
    fn define_shorter(
        &mut self,
        id: ObjId,
        name: &Text,
        change: Change,
        low: u32,
    ) -> Result<Defined, NoMemory>
        requires array { IsTrue (is_array (object_at self.old id.0).class) }
        requires named { name.now ≡ length_name }
        ensures ok { IfOk result (λ d. (self.new, d)
            ≡ defined_shorter self.old id.0 change low (own self.old id.0 length_name)) }
        ensures err { OnErr result (self.new ≡ self.old) }
    {
        let alloc = self.alloc;
        let Some(present) = self.own(id, name) else {
            return Ok(Defined::Rejected);
        };
        if !is_writable(Some(present)) {
            return Ok(Defined::Rejected);
        }
        let high = length_of(Some(present));
        let stays_writable = change.writable.unwrap_or(true);
        match property_after(alloc, present, kept_open(change))? {
            None => Ok(Defined::Rejected),
            Some(length) => self.shorten(id, name, &length, low, high, stays_writable),
        }
    }
}
