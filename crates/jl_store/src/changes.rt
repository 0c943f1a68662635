//! The changes of a store. It is changed in no other way.
#![tactic(auto, unfolding(crate::specs::Changes::after))]

ghost use Rattle.std.specs.Prelude.{◌≡◌, ◌↔◌, IfErr, IfOk, IsNone, IsOk, IsTrue, OnErr, OnOk};
ghost use Rattle.jl_heap.specs.Define.{takes_value_alone, FitsLength, IsOneKind};
ghost use Rattle.jl_heap.specs.Define as heaps;
ghost use Rattle.jl_heap.specs.Objects as objects;
ghost use Rattle.jl_heap.specs.Property.{value_change};
ghost use Rattle.jl_heap.specs.declared.property.Defined.TheVariants.{Done};
ghost use Rattle.jl_meaning.specs.Changes.{DefineProperty, DeleteProperty, NewBinding, NewEnvironment, NewObject};
ghost use Rattle.jl_meaning.specs.Changes.{NewProperty, PreventExtensions, SetBinding, UnmapIndex};
ghost use Rattle.jl_meaning.specs.Store.{binding_of, next_environment, next_object};
ghost use Rattle.jl_store.specs.Changes.{after, after_rebinding, IsFree};
ghost use Rattle.jl_store.specs.Environments.{bound_to, rebinding_of};

use crate::environments::{Bound, Rebinding};
use crate::store::Store;
use jl_heap::{Change, Defined, Inner, Prop};
use jl_text::{NoMemory, Text};
use jl_value::{Class, ObjId, Value};

impl Store {
    /// Makes an object, without properties but for the `length` of an array (8.6.2, 15.4.5.2). A prototype that
    /// isn't there counts as none. Where no memory is left, all is as before.
    pub fn new_object(
        &mut self,
        class: Class,
        proto: Option<ObjId>,
        inner: Inner,
    ) -> Result<ObjId, NoMemory>
        ensures next { IfOk result (λ id. id ≡ next_object self.old) }
        ensures made { OnOk result (self.new ≡ after (NewObject class proto inner) self.old) }
        ensures rest { OnOk result (self.new.environments ≡ self.old.environments) }
        ensures err { OnErr result (self.new ≡ self.old) }
    {
        self.heap.new_object(class, proto, inner)
    }

    /// Makes a property under a name that the object has no property of. It comes last. Where no memory is left,
    /// all is as before.
    pub fn add_property(&mut self, id: ObjId, name: &Text, property: Prop) -> Result<(), NoMemory>
        requires { IsFree self.old id name.now }
        ensures made { OnOk result (self.new ≡ after (NewProperty id name.now property) self.old) }
        ensures rest { OnOk result (self.new.environments ≡ self.old.environments) }
        ensures err { OnErr result (self.new ≡ self.old) }
    {
        self.heap.add_property(id, name, property)
    }

    /// [[DefineOwnProperty]] of the properties that are stored (8.12.9, 15.4.5.1). Where no memory is left, all is
    /// as before.
    pub fn define_property(
        &mut self,
        id: ObjId,
        name: &Text,
        change: Change,
    ) -> Result<Defined, NoMemory>
        requires one_kind { IsOneKind change }
        requires length { FitsLength self.old.heap id.0 name.now change }
        ensures answer { IfOk result (λ d. d ≡ (heaps.define_own_property self.old.heap id.0 name.now change).1) }
        ensures made { OnOk result (self.new ≡ after (DefineProperty id name.now change) self.old) }
        ensures err { OnErr result (self.new ≡ self.old) }
    {
        self.heap.define(id, name, change)
    }

    /// Gives an own data property that can be written another value, as `define_property` of that value alone does, in
    /// one look-up. The value comes back where there is no such property, and for the `length` of an array and an
    /// element from its length on; then all is as before. It takes no memory.
    pub(crate) fn set_stored_value(
        &mut self,
        id: ObjId,
        name: &Text,
        value: Value,
    ) -> Result<(), Value>
        ensures answer { OnOk result
            (Done ≡ (heaps.define_own_property self.old.heap id.0 name.now (value_change value)).1) }
        ensures made { OnOk result (self.new ≡ after (DefineProperty id name.now (value_change value)) self.old) }
        ensures err { OnErr result (self.new ≡ self.old) }
        ensures value_returned { IfErr result (λ v. v ≡ value) }
        ensures taken { IsOk result ↔ IsTrue (takes_value_alone self.old.heap id.0 name.now) }
    {
        self.heap.set_value(id, name, value)
    }

    /// [[Delete]] of the properties that are stored (8.12.7): whether the name is free now. It takes no memory.
    pub fn delete_property(&mut self, id: ObjId, name: &Text) -> bool
        ensures free { result ≡ (objects.delete_property self.old.heap id.0 name.now).1 }
        ensures made { self.new ≡ after (DeleteProperty id name.now) self.old }
    {
        self.heap.delete(id, name)
    }

    /// No property can be added to an object from now on (8.6.2). It takes no memory.
    pub fn prevent_extensions(&mut self, id: ObjId)
        ensures { self.new ≡ after (PreventExtensions id) self.old }
    {
        self.heap.prevent_extensions(id);
    }

    /// An index of an arguments object is mapped to no parameter from now on (10.6). It takes no memory.
    pub fn unmap_index(&mut self, id: ObjId, index: u32)
        ensures { self.new ≡ after (UnmapIndex id index) self.old }
    {
        self.heap.unmap(id, index);
    }

    /// Makes an environment inside another, and answers its index (10.2.2.2). Where that other isn't there, none is
    /// around it. Where no memory is left, all is as before.
    pub fn new_environment(&mut self, outer: usize) -> Result<usize, NoMemory>
        ensures next { IfOk result (λ env. env ≡ next_environment self.old) }
        ensures made { OnOk result (self.new ≡ after (NewEnvironment outer) self.old) }
        ensures err { OnErr result (self.new ≡ self.old) }
    {
        self.environments.push(outer)
    }

    /// Binds a name that an environment doesn't bind yet (10.2.1.1.2, 10.2.1.1.7). The binding comes last. Where no
    /// memory is left, all is as before.
    pub fn new_binding(&mut self, env: usize, name: &Text, bound: Bound) -> Result<(), NoMemory>
        requires { IsNone (binding_of self.old env name.now) }
        ensures made { OnOk result (self.new ≡ after (NewBinding env (bound_to name.now bound)) self.old) }
        ensures err { OnErr result (self.new ≡ self.old) }
    {
        let name = name.share(self.alloc)?;
        self.environments.bind(env, name, bound)
    }

    /// Gives the binding of a name another value, where there is one (10.2.1.1.3). It takes no memory.
    pub fn set_binding(&mut self, env: usize, name: &Text, value: Value)
        ensures { self.new ≡ after (SetBinding env name.now value) self.old }
    {
        self.environments.rebind(env, name, value);
    }

    /// Gives the binding of a name another value, where there is one that can be changed (10.2.1.1.3), in one look-up,
    /// and says what was found. It takes no memory.
    #[tactic(auto, using(crate::proofs::Rebindings::store_rebound))]
    pub(crate) fn set_if_mutable(&mut self, env: usize, name: &Text, value: Value) -> Rebinding
        ensures found { result ≡ rebinding_of (binding_of self.old env name.now) }
        ensures made { self.new ≡ after_rebinding result env name.now value self.old }
    {
        self.environments.rebind_mutable(env, name, value)
    }
}
