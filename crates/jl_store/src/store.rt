ghost use Rattle.std.specs.Prelude.{◌≡◌, [], ◌∷◌, length, IfOk};
ghost use Rattle.std.specs.Option.{option_copied};
ghost use Rattle.jl_heap.specs.Chain.{ProtosAreOlder};
ghost use Rattle.jl_heap.specs.Describe.{seen_of};
ghost use Rattle.jl_heap.specs.Objects.{object_at, own, unit_at, units_of};
ghost use Rattle.jl_meaning.specs.Store.{environment_at, no_environment};
ghost use Rattle.jl_store.specs.Environments.{OutersAreBefore};

use crate::environments::Environments;
use jl_heap::{Heap, Inner, Prop};
use jl_text::{NoMemory, Text};
use jl_value::{Class, ObjId, Seen, Value};
use std::alloc::Global;
use std::hash::RandomState;
use std::marker::Model;

/// The store of a run: its objects (8.6), and the environments in which names are bound (10.2). Neither are ever
/// given up. Contracts see it as the store of the language's definitions.
#[derive(Drop)]
pub struct Store {
    pub(crate) alloc: Global,
    pub(crate) heap: Heap,
    pub(crate) environments: Environments,
}

impl Model for Store {
    ghost use Rattle.jl_meaning.specs.Store.{Store};

    ghost Value = { Store };

    ghost view = { λ s. record { heap = s.heap; environments = s.environments } };
}

impl Store {
    /// No objects, and the global environment alone.
    pub fn new(alloc: Global, keys: RandomState) -> Result<Store, NoMemory>
        ensures { IfOk result (λ store. (store.heap ≡ record { objects = []; next = 0 })
            × (store.environments ≡ no_environment ∷ [])) }
    {
        Ok(Store {
            alloc,
            heap: Heap::new(alloc, keys),
            environments: Environments::new(alloc)?,
        })
    }

    /// Where the store takes memory from.
    pub fn alloc(&self) -> Global {
        self.alloc
    }

    /// The objects, as they are.
    pub fn heap(&self) -> &Heap
        ensures { result.now ≡ self.now.heap }
    {
        &self.heap
    }

    /// The class of an object (8.6.2).
    pub fn class_of(&self, id: ObjId) -> Class
        ensures { result ≡ (object_at self.now.heap id.0).class }
    {
        self.heap.class_of(id)
    }

    /// A value with the class that it has now, which is `Primitive` for a value that is no object.
    pub fn seen(&self, v: &Value) -> Result<Seen, NoMemory>
        ensures { IfOk result (λ seen. seen ≡ seen_of self.now.heap v.now) }
    {
        self.heap.seen(v)
    }

    /// The prototype of an object, if it has one (8.6.2). It stands at a smaller address.
    pub fn proto_of(&self, id: ObjId) -> Option<ObjId>
        ensures value { result ≡ (object_at self.now.heap id.0).proto }
        ensures older { ProtosAreOlder self.now.heap }
    {
        self.heap.proto_of(id)
    }

    /// Whether properties can be added to an object (8.6.2).
    pub fn is_extensible(&self, id: ObjId) -> bool
        ensures { result ≡ (object_at self.now.heap id.0).extensible }
    {
        self.heap.is_extensible(id)
    }

    /// What an object holds beside its properties (8.6.2, table 9).
    pub fn inner_of(&self, id: ObjId) -> &Inner
        ensures { result.now ≡ (object_at self.now.heap id.0).inner }
    {
        self.heap.inner_of(id)
    }

    /// The environment around one, if there is one (10.2). Its index is smaller.
    pub fn outer_of(&self, env: usize) -> Option<usize>
        ensures value { result ≡ (environment_at self.now env).outer }
        ensures before { OutersAreBefore self.now.environments }
    {
        self.environments.outer_of(env)
    }

    /// The own property that is stored under a name, as it is stored (8.12.1).
    pub(crate) fn stored_property(&self, id: ObjId, name: &Text) -> Option<&Prop>
        ensures { option_copied result ≡ own self.now.heap id.0 name.now }
    {
        self.heap.own(id, name)
    }

    /// The unit that a name stands for on a String object (15.5.5.2).
    pub(crate) fn unit_at(&self, id: ObjId, name: &Text) -> Option<u16>
        ensures { result ≡ unit_at self.now.heap id.0 name.now }
    {
        self.heap.unit_at(id, name)
    }

    /// How many units an object has as properties, which is none but of a String object (15.5.5.2).
    pub fn unit_count(&self, id: ObjId) -> usize
        ensures { result ≡ length (units_of (object_at self.now.heap id.0).class (object_at self.now.heap id.0).inner) }
    {
        let class = self.class_of(id);
        match (&class, self.inner_of(id)) {
            (Class::String, Inner::Wrapped(Value::Text(text))) => text.units().len(),
            _ => 0,
        }
    }
}
