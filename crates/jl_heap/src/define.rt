//! Properties of any object defined (8.12.9) and deleted (8.12.7).
ghost use Rattle.std.specs.Prelude.{◌≡◌, ◌<◌, IfOk, OnErr, IsNone};

use crate::heap::Heap;
use crate::property::{Change, Defined};
use crate::revise::{is_same, is_same_unit, new_property, property_after};
use jl_text::{NoMemory, Text};
use jl_value::ObjId;

impl Heap {
    ghost use Rattle.jl_heap.specs.Define.{IsOneKind, define_ordinary};
    ghost use Rattle.jl_heap.specs.Objects.{delete_property, own};

    /// Changes a property as on an object that is no array (8.12.9).
    pub(crate) fn define_plainly(
        &mut self,
        id: ObjId,
        name: &Text,
        change: Change,
    ) -> Result<Defined, NoMemory>
        requires { IsOneKind change }
        ensures ok { IfOk result (λ d. (self.new, d) ≡ define_ordinary self.old id.0 name.now change) }
        ensures err { OnErr result (self.new ≡ self.old) }
    {
        let alloc = self.alloc;
        let Some(present) = self.own(id, name) else {
            return self.define_absent(id, name, change);
        };
        if is_same(present, &change) {
            return Ok(Defined::Done);
        }
        match property_after(alloc, present, change)? {
            None => Ok(Defined::Rejected),
            Some(property) => {
                self.replace(id, name, property);
                Ok(Defined::Done)
            }
        }
    }

    /// The same where no property of the name is stored.
    fn define_absent(&mut self, id: ObjId, name: &Text, change: Change) -> Result<Defined, NoMemory>
        requires one_kind { IsOneKind change }
        requires absent { IsNone (own self.old id.0 name.now) }
        ensures ok { IfOk result (λ d. (self.new, d) ≡ define_ordinary self.old id.0 name.now change) }
        ensures err { OnErr result (self.new ≡ self.old) }
    {
        if let Some(unit) = self.unit_at(id, name) {
            if is_same_unit(unit, &change) {
                return Ok(Defined::Done);
            }
            return Ok(Defined::Rejected);
        }
        if !self.is_extensible(id) {
            return Ok(Defined::Rejected);
        }
        self.add_property(id, name, new_property(change))?;
        Ok(Defined::Done)
    }

    /// Takes a property out, and answers whether its name is free now (8.12.7). It isn't exactly where there is a
    /// property that isn't configurable, as a unit of a String object is; then nothing changes. It takes no memory.
    pub fn delete(&mut self, id: ObjId, name: &Text) -> bool
        ensures { (self.new, result) ≡ delete_property self.old id.0 name.now }
    {
        match self.own(id, name) {
            None => self.unit_at(id, name).is_none(),
            Some(property) => {
                if !property.is_configurable() {
                    return false;
                }
                self.remove(id, name);
                true
            }
        }
    }
}
