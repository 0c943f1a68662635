//! Properties that were found (8.12.1, 8.12.2).
ghost use Rattle.std.specs.Prelude.{◌≡◌, ◌∷◌, [], Some, IfOk};
ghost use Rattle.std.specs.Option.{option_map};
ghost use Rattle.jl_heap.specs.Property.{is_configurable, is_enumerable};
ghost use Rattle.jl_meaning.specs.Properties.{can_put, found_of};
ghost use Rattle.jl_store.specs.LookUps.{property_found, property_seen};

use crate::words::{count, text_of};
use jl_heap::Prop;
use jl_op::Found as Told;
use jl_text::{NoMemory, Text};
use jl_value::{ObjId, Value, share};
use std::alloc::Global;

/// A property as scripts see it.
#[derive(Drop)]
pub enum Found<'a> {
    /// It is stored so.
    Stored(&'a Prop),
    /// A unit of a String object or of a string (15.5.5.2).
    Unit(u16),
    /// It is stored, and mapped to a parameter with this value (10.6).
    Parameter(&'a Prop, &'a Value),
    /// The length of a string, in units (15.5.5.1).
    Length(usize),
}

/// A property that was found, and whether it is an own one or stands on a prototype.
#[derive(Drop)]
pub struct Property<'a> {
    pub own: bool,
    pub found: Found<'a>,
}

impl Found<'_> {
    ghost use Rattle.jl_heap.specs.Objects.{takes_value};
    ghost use Rattle.jl_store.specs.LookUps.{data_value, getter_of, is_data, setter_of};
    ghost use Rattle.jl_heap.specs.Define.{is_writable};

    /// The value of a data property (8.6.1). It takes no memory but where the units of a text have to be copied.
    pub fn value(&self, alloc: Global) -> Result<Option<Value>, NoMemory>
        ensures { IfOk result (λ value. value ≡ data_value (property_found self.now)) }
    {
        match self {
            Found::Stored(Prop::Plain { value, .. }) => Ok(Some(share(alloc, value)?)),
            Found::Parameter(Prop::Plain { .. }, value) => Ok(Some(share(alloc, *value)?)),
            Found::Unit(unit) => Ok(Some(Value::Text(unit_text(alloc, *unit)?))),
            Found::Length(length) => Ok(Some(count(*length)?)),
            Found::Stored(Prop::Accessor { .. }) | Found::Parameter(Prop::Accessor { .. }, _) => {
                Ok(None)
            }
        }
    }

    /// The getter of an accessor property, if it has one.
    pub fn getter(&self) -> Option<ObjId>
        ensures { result ≡ getter_of (property_found self.now) }
    {
        match self {
            Found::Stored(Prop::Accessor { get, .. })
            | Found::Parameter(Prop::Accessor { get, .. }, _) => *get,
            _ => None,
        }
    }

    /// The setter of an accessor property, if it has one.
    pub fn setter(&self) -> Option<ObjId>
        ensures { result ≡ setter_of (property_found self.now) }
    {
        match self {
            Found::Stored(Prop::Accessor { set, .. })
            | Found::Parameter(Prop::Accessor { set, .. }, _) => *set,
            _ => None,
        }
    }

    /// Whether it is a data property (8.6.1).
    pub fn is_data(&self) -> bool
        ensures { result ≡ is_data (property_found self.now) }
    {
        !matches!(
            self,
            Found::Stored(Prop::Accessor { .. }) | Found::Parameter(Prop::Accessor { .. }, _)
        )
    }

    /// Whether a data property can be written (8.6.1).
    pub fn is_writable(&self) -> bool
        ensures { result ≡ is_writable (Some (property_found self.now)) }
    {
        match self {
            Found::Stored(Prop::Plain { writable, .. })
            | Found::Parameter(Prop::Plain { writable, .. }, _) => *writable,
            _ => false,
        }
    }

    /// Whether a `for-in` visits it (8.6.1).
    pub fn is_enumerable(&self) -> bool
        ensures { result ≡ is_enumerable (property_found self.now) }
    {
        match self {
            Found::Stored(property) | Found::Parameter(property, _) => is_enumerable(*property),
            Found::Unit(_) => true,
            Found::Length(_) => false,
        }
    }

    /// Whether it can be changed and deleted (8.6.1).
    pub fn is_configurable(&self) -> bool
        ensures { result ≡ is_configurable (property_found self.now) }
    {
        match self {
            Found::Stored(property) | Found::Parameter(property, _) => is_configurable(*property),
            Found::Unit(_) | Found::Length(_) => false,
        }
    }

    /// Whether an own property takes a value that is put (8.12.4, step 2).
    fn takes_value(&self) -> bool
        ensures { result ≡ takes_value (property_found self.now) }
    {
        self.is_writable() || self.setter().is_some()
    }
}

impl Property<'_> {
    /// What operations tell of it (8.12.1, 8.12.2).
    pub fn as_told(&self) -> Told
        ensures { result ≡ found_of (Some (property_seen self.now)) }
    {
        match (self.own, self.found.is_data()) {
            (true, true) => Told::OwnPlain,
            (true, false) => Told::OwnAccessor,
            (false, true) => Told::ChainPlain,
            (false, false) => Told::ChainAccessor,
        }
    }
}

/// [[CanPut]] (8.12.4), where this property was found, or none, on an object that is or isn't extensible.
pub fn can_put(extensible: bool, property: &Option<Property<'_>>) -> bool
    ensures { result ≡ can_put extensible (option_map property_seen property.now) }
{
    match property {
        None => extensible,
        Some(Property { own: true, found }) => found.takes_value(),
        Some(Property { own: false, found }) => {
            found.setter().is_some() || (extensible && found.is_writable())
        }
    }
}

fn is_enumerable(property: &Prop) -> bool
    ensures { result ≡ is_enumerable property.now }
{
    match property {
        Prop::Plain { enumerable, .. } | Prop::Accessor { enumerable, .. } => *enumerable,
    }
}

fn is_configurable(property: &Prop) -> bool
    ensures { result ≡ is_configurable property.now }
{
    match property {
        Prop::Plain { configurable, .. } | Prop::Accessor { configurable, .. } => *configurable,
    }
}

/// The text of one unit.
fn unit_text(alloc: Global, unit: u16) -> Result<Text, NoMemory>
    ensures { IfOk result (λ text. text ≡ unit ∷ []) }
{
    text_of(alloc, &[unit])
}
