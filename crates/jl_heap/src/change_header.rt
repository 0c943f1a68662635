//! Changes of what an object has beside its properties.
ghost use Rattle.std.specs.Prelude.{◌≡◌, ◌≤◌, false, length, slice_set, slice_index_or};
ghost use Rattle.jl_heap.specs.Headers.{unmapped_inside};

use crate::header::Header;
use crate::heap::Heap;
use crate::inner::Inner;
use jl_value::ObjId;

impl Heap {
    ghost use Rattle.jl_heap.specs.Headers.{unmap_argument, without_extensions};

    /// No property can be added to an object from now on (8.6.2). It takes no memory.
    pub fn prevent_extensions(&mut self, id: ObjId)
        ensures { self.new ≡ without_extensions self.old id.0 }
    {
        prevent_at(self.headers.items_mut(), id.0);
    }

    /// An index of an arguments object is mapped to no parameter from now on (10.6). Nothing changes where it is mapped
    /// to none, and on any other object. It takes no memory.
    pub fn unmap(&mut self, id: ObjId, index: u32)
        ensures { self.new ≡ unmap_argument self.old id.0 index }
    {
        unmap_at(self.headers.items_mut(), id.0, index as usize);
    }
}

/// The same of the header at a place, if there is one.
fn prevent_at(headers: &mut [Header], place: usize)
    ensures { (d : Header) → headers.new
        ≡ slice_set headers.old place (record (slice_index_or headers.old place d) { extensible = false }) }
{
    if place < headers.len() {
        headers[place].extensible = false;
    }
}

/// The same of the header at a place, if there is one.
fn unmap_at(headers: &mut [Header], place: usize, index: usize)
    ensures { (d : Header) → headers.new
        ≡ slice_set headers.old place
        (record (slice_index_or headers.old place d)
        { inner = unmapped_inside (slice_index_or headers.old place d).inner index }) }
{
    if place < headers.len() {
        let header = &mut headers[place];
        unmap_inside(&mut header.inner, index);
    }
}

/// The same of an object's inner part.
fn unmap_inside(inner: &mut Inner, index: usize)
    ensures { inner.new ≡ unmapped_inside inner.old index }
{
    if let Inner::Mapped { names, .. } = inner {
        if index < names.len() {
            names.set(index, None);
        }
    }
}
