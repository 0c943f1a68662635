//! Values put to properties, where no function is called and no property is made (8.12.5).
ghost use Rattle.std.specs.Prelude.{◌≡◌, true, IfErr, OnErr, OnOk};
ghost use Rattle.jl_effects.specs.Running.{Ends};
ghost use Rattle.jl_heap.specs.Objects.{object_at};
ghost use Rattle.jl_meaning.specs.Parts.{gives};
ghost use Rattle.jl_meaning.specs.Properties.{can_put, get_property};
ghost use Rattle.jl_meaning.specs.Putting.{put_if};
ghost use Rattle.jl_store.specs.BigStep.{BigStep};

use crate::store::Store;
use jl_text::Text;
use jl_value::{ObjId, Value};

impl Store {
    /// [[Put]] on an object (8.12.5) where it comes to another value of an own data property alone. The value comes
    /// back where there is no such property that can be written, for the `length` of an array and an element from its
    /// length on, and for an index that is mapped to a parameter; then all is as before. It takes no memory.
    #[tactic(auto, using(crate::proofs::PutValues::value_put))]
    pub fn set_value(&mut self, id: ObjId, name: &Text, value: Value) -> Result<(), Value>
        ensures done { OnOk result (BigStep
            (put_if (can_put (object_at self.old.heap id.0).extensible (get_property self.old id.0 name.now))
            id name.now value (get_property self.old id.0 name.now))
            self.old self.new (Ends (gives true))) }
        ensures err { OnErr result (self.new ≡ self.old) }
        ensures value_returned { IfErr result (λ v. v ≡ value) }
    {
        if self.mapped_parameter(id, name).is_some() {
            return Err(value);
        }
        self.set_stored_value(id, name, value)
    }
}
