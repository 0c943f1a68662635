//! The property `length` of an array (15.4.5.1, 15.4.5.2), and a change on it.
ghost use Rattle.std.specs.Prelude.{◌≡◌, ◌↔◌, ◌+◌, ◌<◌, ◌&&◌, not, nat_le, true, if◌then◌else◌, IsTrue};
ghost use Rattle.std.specs.Option.{option_copied, option_map};
ghost use Rattle.std.specs.Str.{bytes_eq};
ghost use Rattle.jl_heap.specs.Define.{IsLength, count_of, is_writable, kept_open, length_name, length_of, with_count};
ghost use Rattle.jl_heap.specs.NewObject.{first_length};

use crate::property::{Change, Prop};
use jl_num::Num;
use jl_text::Text;
use jl_value::Value;

/// The units of the name `length`.
pub(crate) const LENGTH: [u16; 6] = [0x6C, 0x65, 0x6E, 0x67, 0x74, 0x68];

/// Whether a name is `length`.
pub fn is_length_name(name: &Text) -> bool
    ensures { result ≡ bytes_eq name.now length_name }
{
    name.units() == LENGTH.as_slice()
}

/// The number of elements that a property `length` gives.
pub(crate) fn length_of(present: Option<&Prop>) -> u64
    ensures { result ≡ length_of (option_copied present.entry) }
{
    match present {
        Some(Prop::Plain { value, .. }) => count_of(value),
        _ => 0,
    }
}

/// The whole number that a value is, and 0 for any other value.
fn count_of(value: &Value) -> u64
    ensures { result ≡ count_of value.now }
{
    let Value::Num(number) = value else {
        return 0;
    };
    match number.value() {
        Some(count) if count >= 0 => count as u64,
        _ => 0,
    }
}

pub(crate) fn is_writable(present: Option<&Prop>) -> bool
    ensures { result ≡ is_writable (option_copied present.entry) }
{
    match present {
        Some(Prop::Plain { writable, .. }) => *writable,
        _ => false,
    }
}

/// A property `length` with another count, and writable only if it was and may stay so.
pub(crate) fn with_count(count: u32, stays_writable: bool, length: &Prop) -> Prop
    ensures { result ≡ with_count count stays_writable length.now }
{
    match length {
        Prop::Plain {
            writable,
            enumerable,
            configurable,
            ..
        } => Prop::Plain {
            value: Value::Num(Num::new(i64::from(count)).unwrap()),
            writable: *writable && stays_writable,
            enumerable: *enumerable,
            configurable: *configurable,
        },
        Prop::Accessor {
            get,
            set,
            enumerable,
            configurable,
        } => Prop::Accessor {
            get: *get,
            set: *set,
            enumerable: *enumerable,
            configurable: *configurable,
        },
    }
}

/// Whether a value, if one is given, can be a length: a whole number from 0 to 4,294,967,295.
pub(crate) fn is_length(value: Option<&Value>) -> bool
    ensures { IsTrue result ↔ IsLength (option_copied value.entry) }
{
    let Some(value) = value else {
        return true;
    };
    let Value::Num(number) = value else {
        return false;
    };
    match number.value() {
        Some(count) => 0 <= count && count < 4_294_967_296,
        None => false,
    }
}

/// The number of elements that a change asks for, if it gives a value.
pub(crate) fn new_length(change: &Change) -> Option<u32>
    requires { IsLength change.now.value }
    ensures { result ≡ option_map count_of change.now.value }
{
    match &change.value {
        None => None,
        Some(value) => Some(count_of(value) as u32),
    }
}

/// The change, but that `length` stays writable for as long as elements are deleted (15.4.5.1, steps 3.h and 3.i).
pub(crate) fn kept_open(change: Change) -> Change
    ensures { result ≡ kept_open change }
{
    Change {
        writable: change.writable.map(|_| true),
        ..change
    }
}

/// Whether an array refuses a new element at an index, since its `length` can't grow (15.4.5.1, step 4.b).
pub(crate) fn refuses_element(length: Option<&Prop>, index: u32) -> bool
    ensures { result ≡ (nat_le (length_of (option_copied length.entry)) index
        && not (is_writable (option_copied length.entry))) }
{
    length_of(length) <= u64::from(index) && !is_writable(length)
}

/// The property `length` after the element at an index is defined, where it counts no such element yet.
pub(crate) fn longer_length(length: Option<&Prop>, index: u32) -> Option<Prop>
    requires { index < 4294967295 }
    ensures { result ≡ (if nat_le (length_of (option_copied length.entry)) index
        then option_map (with_count (index + 1) true) (option_copied length.entry) else None) }
{
    if length_of(length) > u64::from(index) {
        return None;
    }
    match length {
        Some(length) => Some(with_count(index + 1, true, length)),
        None => None,
    }
}

/// The property `length` that an array is made with (15.4.5.2).
pub(crate) fn first_length() -> Prop
    ensures { result ≡ first_length }
{
    Prop::Plain {
        value: Value::Num(Num::new(0).unwrap()),
        writable: true,
        enumerable: false,
        configurable: false,
    }
}
