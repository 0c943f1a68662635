//! Arrays made shorter (15.4.5.1, step 3.l).
ghost use Rattle.std.specs.Prelude.{◌≡◌, IfOk, IsSome, IsTrue, OnErr};
ghost use Rattle.std.specs.Option.{option_copied, option_map_or};
ghost use Rattle.jl_num.specs.Digits.{digits_of};
ghost use Rattle.jl_heap.specs.Define.{index_after, is_between};

use crate::array::with_count;
use crate::describe::ascii_text;
use crate::heap::Heap;
use crate::property::{Defined, Prop};
use jl_num::{Num, digits};
use jl_text::{List, NoMemory, Text};
use jl_value::{ObjId, array_index};
use std::alloc::Global;

/// Whether a name is that of an element from one index to below another.
fn is_between(name: &Text, low: u32, high: u64) -> bool
    ensures { result ≡ is_between low high name.now }
{
    match array_index(name.units()) {
        Some(index) => low <= index && u64::from(index) < high,
        None => false,
    }
}

/// The index after that of an element in these bounds that can't be deleted, and the lower bound for any other
/// property.
fn index_after(name: &Text, property: Option<&Prop>, low: u32, high: u64) -> u32
    ensures { result ≡ option_map_or (index_after low high name.now) (option_copied property.entry) low }
{
    let Some(property) = property else {
        return low;
    };
    match array_index(name.units()) {
        Some(index) if low <= index && u64::from(index) < high && !property.is_configurable() => {
            index + 1
        }
        _ => low,
    }
}

/// The name of the element at an index.
fn index_text(alloc: Global, index: u32) -> Result<Text, NoMemory>
    ensures { IfOk result (λ name. name ≡ digits_of 10 index) }
{
    let number = Num::new(i64::from(index)).unwrap();
    ascii_text(alloc, digits(alloc, number, 10)?.as_slice())
}

impl Heap {
    ghost use Rattle.jl_props.specs.Entries.{IsInOrder};
    ghost use Rattle.jl_heap.specs.Define.{is_array, length_name, shorten_array};
    ghost use Rattle.jl_heap.specs.Objects.{object_at, own};
    ghost use Rattle.jl_heap.specs.inner.Steps.{Covers, reached_over, without_elements};

    /// Makes an array shorter, as far as its elements can be deleted. `length` is what its property of that name would
    /// become, and `high` is the old length.
    pub(crate) fn shorten(
        &mut self,
        id: ObjId,
        name: &Text,
        length: &Prop,
        low: u32,
        high: u64,
        stays_writable: bool,
    ) -> Result<Defined, NoMemory>
        requires array { IsTrue (is_array (object_at self.old id.0).class) }
        requires named { name.now ≡ length_name }
        requires there { IsSome (own self.old id.0 length_name) }
        ensures ok { IfOk result (λ d. (self.new, d) ≡ shorten_array self.old id.0 length.now low high stays_writable) }
        ensures err { OnErr result (self.new ≡ self.old) }
    {
        let names = self.elements(id, low, high)?;
        let end = self.reachable_length(id, names.items(), low, high);
        self.entries_outside(id, names.items(), end, high);
        self.replace(id, name, with_count(end, stays_writable, length));
        if end <= low {
            Ok(Defined::Done)
        } else {
            Ok(Defined::Rejected)
        }
    }

    /// Names among which are those of all elements in these bounds, with their serials. Where the object has more
    /// properties than indices are in the bounds, as at a `pop`, these are looked up, and else all properties are
    /// listed.
    fn elements(&self, id: ObjId, low: u32, high: u64) -> Result<List<(Text, u64)>, NoMemory>
        ensures covers { IfOk result (Covers self.now id.0 low high) }
        ensures in_order { IsInOrder (object_at self.now id.0).properties }
    {
        if high.saturating_sub(u64::from(low)) < self.properties.count(id.0) as u64 {
            self.elements_between(id, low, high.min(u64::from(u32::MAX)) as u32)
        } else {
            self.names(id)
        }
    }

    /// The names of the elements from one index to below another, with their serials.
    fn elements_between(
        &self,
        id: ObjId,
        low: u32,
        high: u32,
    ) -> Result<List<(Text, u64)>, NoMemory>
        ensures { IfOk result (Covers self.now id.0 low high) }
    {
        let mut found = List::new(self.alloc);
        for index in low..high {
            let name = index_text(self.alloc, index)?;
            if let Some(serial) = self.serial_of(id, &name) {
                found.push((name, serial))?;
            }
        }
        Ok(found)
    }

    /// Down to which index the elements of these names are deleted.
    fn reachable_length(&self, id: ObjId, mut names: &[(Text, u64)], low: u32, high: u64) -> u32
        ensures { result ≡ reached_over self.now id.0 low high names.entry.now }
    {
        let mut end = low;
        while let [(name, _), rest @ ..] = names {
            end = end.max(index_after(name, self.own(id, name), low, high));
            names = rest;
        }
        end
    }

    /// Deletes the elements of these names that are in these bounds.
    fn entries_outside(&mut self, id: ObjId, mut names: &[(Text, u64)], low: u32, high: u64)
        ensures { self.new ≡ without_elements self.old id.0 low high names.entry.now }
    {
        while let [(name, _), rest @ ..] = names {
            if is_between(name, low, high) {
                self.remove(id, name);
            }
            names = rest;
        }
    }
}
