ghost use Rattle.std.specs.Prelude.{◌≡◌, ◌↔◌, ◌<◌, [], All, length, IfOk, OnOk, OnErr, IsNone, IsSome, IsTrue};
ghost use Rattle.std.specs.Option.{option_copied};

use crate::absent::Absent;
use crate::header::{Header, header_at};
use crate::inner::Inner;
use crate::property::Prop;
use jl_props::Store;
use jl_text::{List, NoMemory, Text};
use jl_value::{Class, ObjId, array_index};
use std::alloc::Global;
use std::hash::RandomState;
use std::marker::Model;

/// The objects of a run (8.6), each at its place, from 0. They are never given up. Contracts see each with its class,
/// its prototype, its inner part and the properties that are stored. A place where no object is stands for one of class
/// Object that has no prototype and no properties, and isn't extensible. A prototype stands at a smaller place.
#[derive(Drop)]
pub struct Heap {
    pub(crate) alloc: Global,
    pub(crate) headers: List<Header>,
    pub(crate) properties: Store<Prop>,
    /// The name `length`, once there is an array.
    pub(crate) length_name: Option<Text>,
    pub(crate) absent: Absent,
}

impl Model for Heap {
    ghost use Rattle.jl_heap.specs.Objects.{Objects};

    ghost Value = { Objects };

    ghost use Rattle.jl_heap.specs.Inside.{objects_inside, IsKept};

    ghost view = { objects_inside };

    ghost invariant = { IsKept };
}

impl Heap {
    ghost use Rattle.jl_heap.specs.Objects.{names_of, object_at, own, serial_of, unit_at, with_properties};
    ghost use Rattle.jl_heap.specs.Define.{with_new_property, with_property};
    ghost use Rattle.jl_props.specs.Entries.{IsInOrder, without};
    ghost use Rattle.jl_heap.specs.View.{HasHeader};

    /// No objects. It takes no memory.
    pub fn new(alloc: Global, keys: RandomState) -> Heap
        ensures { result ≡ record { objects = []; next = 0 } }
    {
        Heap {
            alloc,
            headers: List::new(alloc),
            properties: Store::new(alloc, keys),
            length_name: None,
            absent: Absent::new(),
        }
    }

    // What an object has beside its properties.
    pub(crate) fn header(&self, id: ObjId) -> Option<&Header>
        ensures { HasHeader (object_at self.now id.0) (option_copied result) }
    {
        header_at(&self.headers, id.0)
    }

    /// The class of an object (8.6.2).
    pub fn class_of(&self, id: ObjId) -> Class
        ensures { result ≡ (object_at self.now id.0).class }
    {
        match self.header(id) {
            Some(header) => header.class,
            None => Class::Object,
        }
    }

    /// Whether properties can be added to an object (8.6.2).
    pub fn is_extensible(&self, id: ObjId) -> bool
        ensures { result ≡ (object_at self.now id.0).extensible }
    {
        match self.header(id) {
            Some(header) => header.extensible,
            None => false,
        }
    }

    /// The unit that a name stands for on a String object: one of its text at an index below the length (15.5.5.2).
    pub fn unit_at(&self, id: ObjId, name: &Text) -> Option<u16>
        ensures { result ≡ unit_at self.now id.0 name.now }
    {
        let header = self.header(id)?;
        let units = header.units();
        let index = array_index(name.units())?;
        units.get(index as usize).copied()
    }

    /// The own property that is stored under a name (8.12.1). Its steps are in the order of the logarithm of the number
    /// of properties of the object.
    pub fn own(&self, id: ObjId, name: &Text) -> Option<&Prop>
        ensures { option_copied result ≡ own self.now id.0 name.now }
    {
        self.properties.get(id.0, name)
    }

    /// The number of properties that were made before the own one of a name, in the whole heap. A name that was deleted
    /// and made again has another one.
    pub fn serial_of(&self, id: ObjId, name: &Text) -> Option<u64>
        ensures { result ≡ serial_of self.now id.0 name.now }
    {
        self.properties.serial_of(id.0, name)
    }

    /// Whether an object is there.
    pub fn is_there(&self, id: ObjId) -> bool
        ensures { IsTrue result ↔ (id.0 < length self.now.objects) }
    {
        id.0 < self.len()
    }

    /// The names of the own properties that are stored, in the order in which they were made, each with the number of
    /// properties made before it in the whole heap.
    pub fn names(&self, id: ObjId) -> Result<List<(Text, u64)>, NoMemory>
        ensures names { IfOk result (λ names. names ≡ names_of self.now id.0) }
        ensures in_order { IsInOrder (object_at self.now id.0).properties }
        ensures made_before { All (λ e. e.serial < self.now.next) (object_at self.now id.0).properties }
    {
        self.properties.in_order(self.alloc, id.0)
    }

    // Stores a property in place of the one of its name.
    pub(crate) fn replace(&mut self, id: ObjId, name: &Text, property: Prop)
        requires { IsSome (own self.old id.0 name.now) }
        ensures { self.new ≡ with_property self.old id.0 name.now property }
    {
        self.properties.set(id.0, name, property);
    }

    /// Makes a property of a name that the object has none of, without the table of 8.12.9: it needn't be extensible,
    /// and an array's `length` stays. It comes last. Where no memory is left, all is as before.
    pub fn add_property(&mut self, id: ObjId, name: &Text, property: Prop) -> Result<(), NoMemory>
        requires there { id.0 < length self.old.objects }
        requires free { IsNone (own self.old id.0 name.now) }
        ensures ok { OnOk result (self.new ≡ with_new_property self.old id.0 name.now property) }
        ensures err { OnErr result (self.new ≡ self.old) }
    {
        let name = name.share(self.alloc)?;
        self.properties.put_new(id.0, name, property)
    }

    // Takes the property of a name out, if there is one.
    pub(crate) fn remove(&mut self, id: ObjId, name: &Text)
        ensures { self.new ≡ with_properties self.old id.0 (without (object_at self.old id.0).properties name.now) }
    {
        let _ = self.properties.remove(id.0, name);
    }
}
