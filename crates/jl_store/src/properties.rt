//! Properties looked up (8.12.1, 8.12.2, 8.12.6).
ghost use Rattle.std.specs.Prelude.{◌≡◌};
ghost use Rattle.std.specs.Option.{option_copied, option_map};
ghost use Rattle.jl_meaning.specs.Properties.{get_own_property, get_property, has_property, inherited_property};
ghost use Rattle.jl_meaning.specs.Properties.{mapped_parameter};
ghost use Rattle.jl_meaning.specs.Properties.{parameter_at, parameter_value, property_of_value, property_on};
ghost use Rattle.jl_meaning.specs.Properties.{holding, own_or_inherited, string_property};
ghost use Rattle.jl_store.specs.LookUps.{property_found, property_seen};

use crate::found::{Found, Property};
use crate::store::Store;
use jl_heap::{Inner, Prop, is_length_name};
use jl_text::Text;
use jl_value::{ObjId, Value, array_index};

/// The parameter that an index of an object with this inner part is mapped to, with its environment (10.6).
fn parameter_at<'a>(inner: &'a Inner, name: &Text) -> Option<(usize, &'a Text)>
    ensures { option_map (λ p. (p.0, p.1.now)) result ≡ parameter_at inner.now name.now }
{
    let Inner::Mapped { env, names } = inner else {
        return None;
    };
    let index = array_index(name.units())?;
    match names.items().get(index as usize) {
        Some(Some(parameter)) => Some((*env, parameter)),
        _ => None,
    }
}

/// The property of a string under a name: its length, or a unit (15.5.5.1, 15.5.5.2).
fn string_property<'a>(text: &Text, name: &Text) -> Option<Found<'a>>
    ensures { option_map property_found result ≡ string_property text.now name.now }
{
    if is_length_name(name) {
        return Some(Found::Length(text.units().len()));
    }
    let index = array_index(name.units())?;
    match text.units().get(index as usize) {
        Some(unit) => Some(Found::Unit(*unit)),
        None => None,
    }
}

impl Store {
    /// The parameter that an index of an object is mapped to, with its environment (10.6).
    pub fn mapped_parameter(&self, id: ObjId, name: &Text) -> Option<(usize, &Text)>
        ensures { option_map (λ p. (p.0, p.1.now)) result ≡ mapped_parameter self.now id.0 name.now }
    {
        parameter_at(self.inner_of(id), name)
    }

    /// The value of that parameter.
    fn parameter_value(&self, id: ObjId, name: &Text) -> Option<&Value>
        ensures { option_copied result ≡ parameter_value self.now id.0 name.now }
    {
        let (env, parameter) = self.mapped_parameter(id, name)?;
        let bound = self.binding(env, parameter)?;
        Some(&bound.value)
    }

    /// The own property of an object under a name (8.12.1, 10.6, 15.5.5.2).
    #[tactic(auto, unfolding(jl_meaning::specs::Properties::get_own_property))]
    pub fn get_own_property(&self, id: ObjId, name: &Text) -> Option<Found<'_>>
        ensures { option_map property_found result ≡ get_own_property self.now id.0 name.now }
    {
        match self.stored_property(id, name) {
            Some(property) => Some(self.mapped_property(id, name, property)),
            None => match self.unit_at(id, name) {
                Some(unit) => Some(Found::Unit(unit)),
                None => None,
            },
        }
    }

    /// A stored property, with the value of the parameter that it is mapped to.
    fn mapped_property<'a>(&'a self, id: ObjId, name: &Text, property: &'a Prop) -> Found<'a>
        ensures { property_found result ≡ holding (parameter_value self.now id.0 name.now) property.now }
    {
        match self.parameter_value(id, name) {
            Some(value) => Found::Parameter(property, value),
            None => Found::Stored(property),
        }
    }

    /// The nearest property of a name, on an object or along its prototypes.
    fn property_on(&self, id: ObjId, name: &Text) -> Option<Found<'_>>
        ensures { option_map property_found result ≡ property_on self.now id name.now }
    {
        let mut at = id;
        loop {
            let proto = self.proto_of(at);
            if let Some(found) = self.get_own_property(at, name) {
                return Some(found);
            }
            at = proto?;
        }
    }

    /// The nearest property on the prototypes of an object.
    fn inherited_property(&self, id: ObjId, name: &Text) -> Option<Found<'_>>
        ensures { option_map property_found result ≡ inherited_property self.now id.0 name.now }
    {
        let proto = self.proto_of(id)?;
        self.property_on(proto, name)
    }

    /// The property of an object under a name, its own or an inherited one (8.12.2).
    #[tactic(auto, unfolding(jl_meaning::specs::Properties::get_property))]
    pub fn get_property(&self, id: ObjId, name: &Text) -> Option<Property<'_>>
        ensures { option_map property_seen result ≡ get_property self.now id.0 name.now }
    {
        match self.get_own_property(id, name) {
            Some(found) => Some(Property { own: true, found }),
            None => as_inherited(self.inherited_property(id, name)),
        }
    }

    /// Whether an object has a property of a name, its own or an inherited one (8.12.6).
    pub fn has_property(&self, id: ObjId, name: &Text) -> bool
        ensures { result ≡ has_property self.now id.0 name.now }
    {
        self.get_property(id, name).is_some()
    }

    /// The property of a value under a name; that of a value that is no object is one of the object that ToObject
    /// would make of it (8.7.1).
    #[tactic(auto, unfolding(jl_meaning::specs::Properties::property_of_value))]
    pub fn property_of_value(&self, base: &Value, name: &Text) -> Option<Property<'_>>
        ensures { option_map property_seen result ≡ property_of_value self.now base.now name.now }
    {
        match base {
            Value::Obj(id) => self.get_property(*id, name),
            Value::Text(text) => match string_property(text, name) {
                Some(found) => Some(Property { own: true, found }),
                None => as_inherited(self.property_on(ObjId::STRING_PROTOTYPE, name)),
            },
            Value::Num(_) => as_inherited(self.property_on(ObjId::NUMBER_PROTOTYPE, name)),
            Value::Bool(_) => as_inherited(self.property_on(ObjId::BOOLEAN_PROTOTYPE, name)),
            Value::Undefined | Value::Null => None,
        }
    }
}

/// What was found on a prototype, if anything was.
fn as_inherited<'a>(found: Option<Found<'a>>) -> Option<Property<'a>>
    ensures { option_map property_seen result ≡ own_or_inherited None (option_map property_found found.entry) }
{
    match found {
        Some(found) => Some(Property { own: false, found }),
        None => None,
    }
}
