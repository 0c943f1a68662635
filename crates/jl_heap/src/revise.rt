//! What a change makes of one property.
ghost use Rattle.std.specs.Prelude.{◌≡◌, ◌↔◌, ◌&&◌, not, IfOk, IsTrue};
ghost use Rattle.jl_value.specs.Same.{same_bool, same_value};
ghost use Rattle.jl_heap.specs.Property.{breaks, is_accessor, is_configurable, is_data, is_enumerable, is_refused};
ghost use Rattle.jl_heap.specs.Property.{is_same, new_property, property_after, same_function, stays, other_kind};
ghost use Rattle.jl_heap.specs.Property.{turns, with_fields};
ghost use Rattle.jl_heap.specs.Define.{IsOneKind};
ghost use Rattle.jl_heap.specs.Objects.{unit_property};

use crate::property::{Change, Prop};
use jl_text::NoMemory;
use jl_value::{ObjId, Value, same_value, share};
use std::alloc::Global;

impl Prop {
    /// Whether it can be deleted and its attributes can change (8.6.1).
    pub fn is_configurable(&self) -> bool
        ensures { result ≡ is_configurable self.now }
    {
        match self {
            Prop::Plain { configurable, .. } | Prop::Accessor { configurable, .. } => *configurable,
        }
    }
}

impl Prop {
    /// Whether a `for-in` sees it (8.6.1).
    pub fn is_enumerable(&self) -> bool
        ensures { result ≡ is_enumerable self.now }
    {
        match self {
            Prop::Plain { enumerable, .. } | Prop::Accessor { enumerable, .. } => *enumerable,
        }
    }
}

impl Change {
    /// Whether a value is given, or whether it can be written (8.10.2).
    pub fn is_data(&self) -> bool
        ensures { result ≡ is_data self.now }
    {
        self.value.is_some() || self.writable.is_some()
    }

    /// Whether a getter or a setter is given (8.10.1).
    pub fn is_accessor(&self) -> bool
        ensures { result ≡ is_accessor self.now }
    {
        self.get.is_some() || self.set.is_some()
    }

    /// Whether it isn't data and accessor at once, as `Heap::define` asks (8.10.5, step 9).
    pub fn is_one_kind(&self) -> bool
        ensures { IsTrue result ↔ IsOneKind self.now }
    {
        !(self.is_data() && self.is_accessor())
    }
}

fn flag_stays(given: Option<bool>, present: bool) -> bool
    ensures { result ≡ stays same_bool given present }
{
    match given {
        None => true,
        Some(flag) => flag == present,
    }
}

fn function_stays(given: Option<Option<ObjId>>, present: Option<ObjId>) -> bool
    ensures { result ≡ stays same_function given present }
{
    match (given, present) {
        (None, _) | (Some(None), None) => true,
        (Some(Some(f)), Some(g)) => f.0 == g.0,
        _ => false,
    }
}

fn value_stays(given: &Option<Value>, present: &Value) -> bool
    ensures { result ≡ stays same_value given.now present.now }
{
    match given {
        None => true,
        Some(value) => same_value(value, present),
    }
}

/// Whether every field that is given is there with the same value (8.12.9, steps 5 and 6).
pub(crate) fn is_same(present: &Prop, change: &Change) -> bool
    ensures { result ≡ is_same present.now change.now }
{
    match present {
        Prop::Plain {
            value,
            writable,
            enumerable,
            configurable,
        } => {
            !change.is_accessor()
                && value_stays(&change.value, value)
                && flag_stays(change.writable, *writable)
                && flag_stays(change.enumerable, *enumerable)
                && flag_stays(change.configurable, *configurable)
        }
        Prop::Accessor {
            get,
            set,
            enumerable,
            configurable,
        } => {
            !change.is_data()
                && function_stays(change.get, *get)
                && function_stays(change.set, *set)
                && flag_stays(change.enumerable, *enumerable)
                && flag_stays(change.configurable, *configurable)
        }
    }
}

/// Whether fields are given that a property of this kind doesn't have, and none that only it has (8.12.9, step 9).
fn turns(present: &Prop, change: &Change) -> bool
    ensures { result ≡ turns present.now change.now }
{
    match present {
        Prop::Plain { .. } => change.is_accessor() && !change.is_data(),
        Prop::Accessor { .. } => change.is_data(),
    }
}

/// Whether a field of its kind is given that a property that isn't configurable can't have (8.12.9, steps 10.a and
/// 11.a).
fn breaks(present: &Prop, change: &Change) -> bool
    ensures { result ≡ breaks present.now change.now }
{
    match present {
        Prop::Plain {
            value,
            writable,
            ..
        } => {
            !*writable
                && (!flag_stays(change.writable, false) || !value_stays(&change.value, value))
        }
        Prop::Accessor { get, set, .. } => {
            !function_stays(change.get, *get) || !function_stays(change.set, *set)
        }
    }
}

/// Whether a property that isn't configurable refuses a change (8.12.9, steps 7 and 9 to 11).
fn is_refused(present: &Prop, change: &Change) -> bool
    ensures { result ≡ is_refused present.now change.now }
{
    !flag_stays(change.configurable, false)
        || !flag_stays(change.enumerable, present.is_enumerable())
        || turns(present, change)
        || breaks(present, change)
}

/// A property of the other kind, with what both kinds have (8.12.9, steps 9.b and 9.c).
fn other_kind(present: &Prop) -> Prop
    ensures { result ≡ other_kind present.now }
{
    match present {
        Prop::Plain {
            enumerable,
            configurable,
            ..
        } => Prop::Accessor {
            get: None,
            set: None,
            enumerable: *enumerable,
            configurable: *configurable,
        },
        Prop::Accessor {
            enumerable,
            configurable,
            ..
        } => Prop::Plain {
            value: Value::Undefined,
            writable: false,
            enumerable: *enumerable,
            configurable: *configurable,
        },
    }
}

/// The same property.
fn share_property(alloc: Global, present: &Prop) -> Result<Prop, NoMemory>
    ensures { IfOk result (λ p. p ≡ present.now) }
{
    match present {
        Prop::Plain {
            value,
            writable,
            enumerable,
            configurable,
        } => Ok(Prop::Plain {
            value: share(alloc, value)?,
            writable: *writable,
            enumerable: *enumerable,
            configurable: *configurable,
        }),
        Prop::Accessor {
            get,
            set,
            enumerable,
            configurable,
        } => Ok(Prop::Accessor {
            get: *get,
            set: *set,
            enumerable: *enumerable,
            configurable: *configurable,
        }),
    }
}

/// The property with the fields that are given (8.12.9, step 12).
fn with_fields(present: Prop, change: Change) -> Prop
    ensures { result ≡ with_fields present change }
{
    match present {
        Prop::Plain {
            value,
            writable,
            enumerable,
            configurable,
        } => Prop::Plain {
            value: change.value.unwrap_or(value),
            writable: change.writable.unwrap_or(writable),
            enumerable: change.enumerable.unwrap_or(enumerable),
            configurable: change.configurable.unwrap_or(configurable),
        },
        Prop::Accessor {
            get,
            set,
            enumerable,
            configurable,
        } => Prop::Accessor {
            get: change.get.unwrap_or(get),
            set: change.set.unwrap_or(set),
            enumerable: change.enumerable.unwrap_or(enumerable),
            configurable: change.configurable.unwrap_or(configurable),
        },
    }
}

/// What becomes of a property, or None where the change is rejected (8.12.9, steps 7 to 12).
pub(crate) fn property_after(
    alloc: Global,
    present: &Prop,
    change: Change,
) -> Result<Option<Prop>, NoMemory>
    ensures { IfOk result (λ r. r ≡ property_after present.now change) }
{
    if !present.is_configurable() && is_refused(present, &change) {
        return Ok(None);
    }
    let base = if turns(present, &change) {
        other_kind(present)
    } else {
        share_property(alloc, present)?
    };
    Ok(Some(with_fields(base, change)))
}

/// A new property: what isn't given is undefined or false (8.12.9, step 4).
pub(crate) fn new_property(change: Change) -> Prop
    ensures { result ≡ new_property change }
{
    let base = if change.is_accessor() {
        Prop::Accessor {
            get: None,
            set: None,
            enumerable: false,
            configurable: false,
        }
    } else {
        Prop::Plain {
            value: Value::Undefined,
            writable: false,
            enumerable: false,
            configurable: false,
        }
    };
    with_fields(base, change)
}

/// The same of the property that a unit of a String object is (15.5.5.2).
pub(crate) fn is_same_unit(unit: u16, change: &Change) -> bool
    ensures { result ≡ is_same (unit_property unit) change.now }
{
    let value_stays = match &change.value {
        None => true,
        Some(Value::Text(text)) => text.units() == [unit].as_slice(),
        Some(_) => false,
    };
    !change.is_accessor()
        && value_stays
        && flag_stays(change.writable, false)
        && flag_stays(change.enumerable, true)
        && flag_stays(change.configurable, false)
}
