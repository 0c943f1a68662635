//! What is found along prototypes and targets of objects (15.3.4.5.3, 15.3.5.3).
ghost use Rattle.std.specs.Prelude.{◌≡◌};
ghost use Rattle.jl_meaning.specs.Getting.{is_callable};
ghost use Rattle.jl_meaning.specs.Relations.{is_prototype_of, target_within};

use crate::inner::has_call;
use crate::store::Store;
use jl_heap::Inner;
use jl_value::{ObjId, Value};

impl Store {
    /// Whether a value can be called (9.11).
    pub fn is_callable(&self, value: &Value) -> bool
        ensures { result ≡ is_callable self.now.heap value.now }
    {
        match value {
            Value::Obj(id) => has_call(self.inner_of(*id)),
            _ => false,
        }
    }

    /// Whether an object is among the prototypes of another (15.3.5.3, step 4).
    pub fn is_prototype_of(&self, proto: ObjId, id: ObjId) -> bool
        ensures { result ≡ is_prototype_of self.now.heap proto.0 id.0 }
    {
        let mut at = id;
        while let Some(next) = self.proto_of(at) {
            if next.0 == proto.0 {
                return true;
            }
            at = next;
        }
        false
    }

    /// A function, or of one that `bind` made its target; of any other object none (15.3.4.5.3).
    pub fn target_of(&self, f: ObjId) -> Option<ObjId>
        ensures { result ≡ target_within f.0 self.now.heap f }
    {
        let mut at = f;
        loop {
            match self.inner_of(at) {
                Inner::Bound { target, .. } => {
                    if target.0 >= at.0 {
                        return None;
                    }
                    at = *target;
                }
                inner => return if has_call(inner) { Some(at) } else { None },
            }
        }
    }
}
