//! What the builtins of Object and its prototype keep while they wait for a value (15.2).
ghost use Rattle.std.specs.Prelude.{◌≡◌};
ghost use Rattle.jl_heap.specs.Define.{IsOneKind};

use jl_heap::Change;
use jl_text::{List, Text};
use jl_value::{ObjId, Value};
use std::marker::Model;

/// A field of a property descriptor, in the order in which they are read (8.10.5).
#[derive(Clone, Copy, PartialEq, Eq, Debug)]
pub enum DescriptorField {
    Enumerable,
    Configurable,
    Value,
    Writable,
    Get,
    Set,
}

/// What `Object.seal` and `Object.isSealed`, or `Object.freeze` and `Object.isFrozen`, make or ask of a property.
#[derive(Clone, Copy, PartialEq, Eq, Debug)]
pub enum Integrity {
    /// It isn't configurable (15.2.3.8, 15.2.3.11).
    Sealed,
    /// And it isn't writable (15.2.3.9, 15.2.3.12).
    Frozen,
}

/// What is asked of an own property of `this`.
#[derive(Clone, Copy, PartialEq, Eq, Debug)]
pub enum OwnTest {
    /// Whether there is one (15.2.4.5).
    IsThere,
    /// Whether there is one that is enumerable (15.2.4.7).
    IsEnumerable,
}

/// A name and the change that its property is to take, which isn't data and accessor at once (8.10.5, step 9).
/// Contracts see the two as a pair.
#[derive(Drop)]
pub struct NamedChange {
    name: Text,
    change: Change,
}

impl Model for NamedChange {
    ghost use Rattle.jl_heap.specs.Define.{IsOneKind};
    ghost use Rattle.jl_heap.specs.Objects.{Name};
    ghost use Rattle.jl_heap.specs.declared.property.Change.{Change};

    ghost Value = { Name × Change };

    ghost view = { λ c. (c.name, c.change) };

    ghost invariant = { λ c. IsOneKind c.change };
}

impl NamedChange {
    /// A name and a change.
    pub fn new(name: Text, change: Change) -> NamedChange
        requires { IsOneKind change }
        ensures { result ≡ (name, change) }
    {
        NamedChange { name, change }
    }

    /// The name of the property.
    pub fn name(&self) -> &Text
        ensures { result.now ≡ self.now.0 }
    {
        &self.name
    }

    /// What is asked of the property.
    pub fn change(&self) -> &Change
        ensures value { result.now ≡ self.now.1 }
        ensures one_kind { IsOneKind self.now.1 }
    {
        &self.change
    }
}

/// What a descriptor is read for (8.10.5).
#[derive(Drop)]
pub enum DescriptorUse {
    /// `Object.defineProperty` defines a property of an object by it (15.2.3.6).
    One {
        object: ObjId,
        name: Text,
    },
    /// It comes after other changes of an object, and those of the names from an index on come next (15.2.3.7, step 5).
    Next {
        object: ObjId,
        descriptors: ObjId,
        changes: List<NamedChange>,
        name: Text,
        names: List<Text>,
        from: usize,
    },
}

/// What a builtin of Object or its prototype has done so far.
#[derive(Drop)]
pub enum ObjectProgress {
    /// `Object.getOwnPropertyDescriptor` waits for the name as a primitive value (15.2.3.3).
    DescribedName {
        object: ObjId,
    },
    /// `Object.defineProperty` waits for the name as a primitive value (15.2.3.6).
    DefinedName {
        object: ObjId,
        descriptor: Value,
    },
    /// A field of a descriptor was there and waits for its value: the change so far has the fields before it (8.10.5).
    Field {
        field: DescriptorField,
        descriptor: ObjId,
        change: Change,
        purpose: DescriptorUse,
    },
    /// `Object.defineProperties` or `Object.create` waits for the descriptor of a name: the changes so far, and the
    /// index of the name after it (15.2.3.7, step 5).
    Descriptor {
        object: ObjId,
        descriptors: ObjId,
        changes: List<NamedChange>,
        name: Text,
        names: List<Text>,
        from: usize,
    },
    /// Properties of an object are defined, and these changes from an index on are still to come (15.2.3.7, step 6).
    Define {
        object: ObjId,
        changes: List<NamedChange>,
        from: usize,
    },
    /// The properties of an object are sealed or frozen, one a turn, and those of the names from an index on are still
    /// to come (15.2.3.8, 15.2.3.9).
    Restrict {
        integrity: Integrity,
        object: ObjId,
        names: List<Text>,
        from: usize,
    },
    /// The properties of an object are tested, one a turn: whether all so far are sealed or frozen, and the names from
    /// an index on are still to come (15.2.3.11, 15.2.3.12).
    Test {
        integrity: Integrity,
        object: ObjId,
        holds: bool,
        names: List<Text>,
        from: usize,
    },
    /// `Object.prototype.hasOwnProperty` or `propertyIsEnumerable` waits for the name as a primitive value (15.2.4.5,
    /// 15.2.4.7).
    OwnName {
        test: OwnTest,
        this: Value,
    },
}
