ghost use Rattle.std.specs.Prelude.{◌≡◌, slice_get};
ghost use Rattle.std.specs.Option.{option_copied};
ghost use Rattle.jl_heap.specs.Objects.{units_of};

use crate::inner::Inner;
use jl_text::List;
use jl_value::{Class, ObjId, Value};

/// What an object has beside its properties (8.6.2).
#[derive(Drop)]
pub(crate) struct Header {
    pub(crate) class: Class,
    pub(crate) proto: Option<ObjId>,
    pub(crate) extensible: bool,
    pub(crate) inner: Inner,
}

impl Header {
    /// The units that a String object has as properties (15.5.5.2).
    pub(crate) fn units(&self) -> &[u16]
        ensures { result.now ≡ units_of self.now.class self.now.inner }
    {
        match (&self.class, &self.inner) {
            (Class::String, Inner::Wrapped(Value::Text(text))) => text.units(),
            _ => &[],
        }
    }
}

/// The header at a place, if an object is there.
pub(crate) fn header_at(headers: &List<Header>, place: usize) -> Option<&Header>
    ensures { option_copied result ≡ slice_get headers.now place }
{
    headers.items().get(place)
}
