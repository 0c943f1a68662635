//! What is found along prototypes.
ghost use Rattle.std.specs.Prelude.{◌≡◌};
ghost use Rattle.std.specs.Option.{option_map};

use crate::heap::Heap;
use crate::inner::Inner;
use crate::property::Prop;
use jl_text::Text;
use jl_value::ObjId;

impl Heap {
    ghost use Rattle.jl_heap.specs.Objects.{object_at, find, can_put};
    ghost use Rattle.jl_heap.specs.Chain.{ProtosAreOlder};

    /// The prototype of an object, if it has one (8.6.2). It stands at a smaller place.
    pub fn proto_of(&self, id: ObjId) -> Option<ObjId>
        ensures value { result ≡ (object_at self.now id.0).proto }
        ensures older { ProtosAreOlder self.now }
    {
        // Only where a field is read the invariant is at hand, from which the clause `older` follows.
        let _ = &self.headers;
        self.header(id)?.proto
    }

    /// What an object holds beside its properties (8.6.2, table 9).
    pub fn inner_of(&self, id: ObjId) -> &Inner
        ensures { result.now ≡ (object_at self.now id.0).inner }
    {
        match self.header(id) {
            Some(header) => &header.inner,
            None => self.absent.inner(),
        }
    }

    /// The nearest property of a name that is stored, on an object or along its prototypes, and where it is (8.12.2).
    /// One look-up on each of these objects until it is found.
    pub fn find(&self, id: ObjId, name: &Text) -> Option<(ObjId, &Prop)>
        ensures { option_map (λ found. (found.0.0, found.1.now)) result ≡ find self.now id.0 name.now }
    {
        let mut at = id;
        loop {
            if let Some(property) = self.own(at, name) {
                return Some((at, property));
            }
            at = self.proto_of(at)?;
        }
    }

    /// Whether a value can be put under a name (8.12.4), as far as the properties that are stored tell.
    pub fn can_put(&self, id: ObjId, name: &Text) -> bool
        ensures { result ≡ can_put self.now id.0 name.now }
    {
        if let Some(property) = self.own(id, name) {
            return property.takes_value();
        }
        let Some(proto) = self.proto_of(id) else {
            return self.is_extensible(id);
        };
        match self.find(proto, name) {
            None => self.is_extensible(id),
            Some((_, Prop::Plain { writable, .. })) => self.is_extensible(id) && *writable,
            Some((_, Prop::Accessor { set, .. })) => set.is_some(),
        }
    }
}

impl Prop {
    ghost use Rattle.jl_heap.specs.Objects.{takes_value};

    // Whether a value can be put on an own property.
    fn takes_value(&self) -> bool
        ensures { result ≡ takes_value self.now }
    {
        match self {
            Prop::Plain { writable, .. } => *writable,
            Prop::Accessor { set, .. } => set.is_some(),
        }
    }
}
