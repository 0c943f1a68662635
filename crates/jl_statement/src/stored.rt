//! What a `for-in` asks of the objects (12.6.4).
ghost use Rattle.std.specs.Option.{option_map_or};
ghost use Rattle.std.specs.Prelude.{◌≡◌, false};
ghost use Rattle.jl_heap.specs.Objects.{object_at};
ghost use Rattle.jl_meaning.specs.forms.Loops.{is_same_entry};
ghost use Rattle.jl_props.specs.Entries.{entry_named};

use jl_heap::Heap;
use jl_text::Text;
use jl_value::ObjId;

/// Whether the property of this name and serial is still there, and enumerable.
pub(crate) fn has_entry(heap: &Heap, id: ObjId, name: &Text, serial: u64) -> bool
    ensures { result ≡ option_map_or (is_same_entry serial)
        (entry_named name.now (object_at heap.now id.0).properties) false }
{
    match (heap.serial_of(id, name), heap.own(id, name)) {
        (Some(found), Some(property)) => found == serial && property.is_enumerable(),
        (Some(_), None) => false,
        (None, Some(_)) => false,
        (None, None) => false,
    }
}
