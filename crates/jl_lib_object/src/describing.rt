//! Own properties, and objects that describe them: `Object.getOwnPropertyDescriptor` (8.10.4, 15.2.3.3).
ghost use Rattle.std.specs.Prelude.{◌≡◌, true, Some, IfOk};
ghost use Rattle.jl_conv.specs.Conversions.{text_of_value};
ghost use Rattle.jl_effects.specs.Running.{Ends};
ghost use Rattle.jl_heap.specs.declared.property.Prop.TheVariants.{Accessor, Plain};
ghost use Rattle.jl_lib_object.specs.inner.Parts.{describe_own};
ghost use Rattle.jl_meaning.specs.Conversions.{to_string};
ghost use Rattle.jl_meaning.specs.Parts.{gives, ◌>>=◌ as ◌then◌};
ghost use Rattle.jl_meaning.specs.Properties.{get_own_property};
ghost use Rattle.jl_meaning.specs.builtins.Descriptors.{accessor_value, from_property_descriptor};
ghost use Rattle.jl_meaning.specs.builtins.Object.{object_get_own_property_descriptor};
ghost use Rattle.jl_state.specs.Clauses.{Computes, RankAtMost};
ghost use Rattle.jl_state.specs.Words.{call_of};
ghost use Rattle.jl_store.specs.BigStep.{BigStep};
ghost use Rattle.jl_store.specs.LookUps.{property_found};

use crate::waiting::{argument_of, first_object, wait_object};
use jl_algorithm::to_primitive;
use jl_heap::{Inner, Prop};
use jl_operator::text_of;
use jl_progress::ObjectProgress;
use jl_state::{Act, Hint, Invocation, State};
use jl_store::{Answer, Found, Store};
use jl_text::{NoMemory, Text, word};
use jl_value::{Class, Completion, ObjId, Value};
use std::alloc::Global;

/// A property that was found, by itself.
fn property_of(alloc: Global, found: &Found<'_>) -> Result<Prop, NoMemory>
    ensures { IfOk result (λ property. property ≡ property_found found.now) }
{
    match found.value(alloc)? {
        Some(value) => Ok(Prop::Plain {
            value,
            writable: found.is_writable(),
            enumerable: found.is_enumerable(),
            configurable: found.is_configurable(),
        }),
        None => Ok(Prop::Accessor {
            get: found.getter(),
            set: found.setter(),
            enumerable: found.is_enumerable(),
            configurable: found.is_configurable(),
        }),
    }
}

/// The own property of an object under a name, if it has one (8.12.1).
pub(crate) fn own_property(
    alloc: Global,
    store: &Store,
    id: ObjId,
    name: &Text,
) -> Result<Option<Prop>, NoMemory>
    ensures { IfOk result (λ property. property ≡ get_own_property store.now id.0 name.now) }
{
    match store.get_own_property(id, name) {
        Some(found) => Ok(Some(property_of(alloc, &found)?)),
        None => Ok(None),
    }
}

/// A field of an object that describes a property: it can be written, enumerated and configured (8.10.4).
fn open(value: Value) -> Prop
    ensures { result ≡ Plain value true true true }
{
    Prop::Plain {
        value,
        writable: true,
        enumerable: true,
        configurable: true,
    }
}

/// The object that describes a data property (8.10.4, step 3).
fn describe_data(
    alloc: Global,
    store: &mut Store,
    value: Value,
    writable: bool,
    enumerable: bool,
    configurable: bool,
) -> Result<Value, NoMemory>
    ensures { IfOk result (λ v. BigStep
        (from_property_descriptor (Some (Plain value writable enumerable configurable))) store.old store.new
        (Ends (gives v))) }
{
    let first = word(alloc, "value")?;
    let second = word(alloc, "writable")?;
    let third = word(alloc, "enumerable")?;
    let fourth = word(alloc, "configurable")?;
    let id = store.new_object(Class::Object, Some(ObjId::OBJECT_PROTOTYPE), Inner::Nothing)?;
    store.add_property(id, &first, open(value))?;
    store.add_property(id, &second, open(Value::Bool(writable)))?;
    store.add_property(id, &third, open(Value::Bool(enumerable)))?;
    store.add_property(id, &fourth, open(Value::Bool(configurable)))?;
    Ok(Value::Obj(id))
}

/// A getter or a setter as a value.
fn accessor_value(f: Option<ObjId>) -> Value
    ensures { result ≡ accessor_value f }
{
    match f {
        Some(f) => Value::Obj(f),
        None => Value::Undefined,
    }
}

/// The object that describes an accessor property (8.10.4, step 4).
fn describe_accessor(
    alloc: Global,
    store: &mut Store,
    getter: Option<ObjId>,
    setter: Option<ObjId>,
    enumerable: bool,
    configurable: bool,
) -> Result<Value, NoMemory>
    ensures { IfOk result (λ v. BigStep
        (from_property_descriptor (Some (Accessor getter setter enumerable configurable))) store.old store.new
        (Ends (gives v))) }
{
    let first = word(alloc, "get")?;
    let second = word(alloc, "set")?;
    let third = word(alloc, "enumerable")?;
    let fourth = word(alloc, "configurable")?;
    let id = store.new_object(Class::Object, Some(ObjId::OBJECT_PROTOTYPE), Inner::Nothing)?;
    store.add_property(id, &first, open(accessor_value(getter)))?;
    store.add_property(id, &second, open(accessor_value(setter)))?;
    store.add_property(id, &third, open(Value::Bool(enumerable)))?;
    store.add_property(id, &fourth, open(Value::Bool(configurable)))?;
    Ok(Value::Obj(id))
}

/// FromPropertyDescriptor (8.10.4).
fn describe(alloc: Global, store: &mut Store, property: Prop) -> Result<Value, NoMemory>
    ensures { IfOk result (λ v. BigStep (from_property_descriptor (Some property)) store.old store.new
        (Ends (gives v))) }
{
    match property {
        Prop::Plain {
            value,
            writable,
            enumerable,
            configurable,
        } => describe_data(alloc, store, value, writable, enumerable, configurable),
        Prop::Accessor {
            get,
            set,
            enumerable,
            configurable,
        } => describe_accessor(alloc, store, get, set, enumerable, configurable),
    }
}

/// An own property of an object is described, if it has it.
fn describe_own<'p>(state: &mut State<'p>, object: ObjId, name: &Text) -> Result<Act<'p>, NoMemory>
    ensures refines { Computes state.old (describe_own object name.now) result state.new }
    ensures bounded { RankAtMost state.old 3 result state.new }
{
    let alloc = state.alloc();
    match own_property(alloc, &state.store, object, name)? {
        None => Ok(Act::Give(Value::Undefined)),
        Some(property) => {
            let v = describe(alloc, &mut state.store, property)?;
            Ok(Act::Give(v))
        }
    }
}

/// Goes on with the name of a property that is to be described.
pub(crate) fn step_described_name<'p>(
    state: &mut State<'p>,
    object: ObjId,
    p: &Value,
) -> Result<Act<'p>, NoMemory>
    ensures refines { Computes state.old (describe_own object (text_of_value p.now)) result state.new }
    ensures bounded { RankAtMost state.old 3 result state.new }
{
    let alloc = state.alloc();
    let name = text_of(alloc, p)?;
    describe_own(state, object, &name)
}

/// The name of a property that is to be described is converted.
fn convert_name<'p>(state: &mut State<'p>, object: ObjId, name: Value) -> Result<Act<'p>, NoMemory>
    ensures refines { Computes state.old (to_string name then describe_own object) result state.new }
    ensures bounded { RankAtMost state.old 22 result state.new }
{
    wait_object(state, ObjectProgress::DescribedName { object })?;
    to_primitive(state, name, Hint::Text)
}

/// `Object.getOwnPropertyDescriptor(O, P)` (15.2.3.3).
pub(crate) fn object_get_own_property_descriptor<'p>(
    state: &mut State<'p>,
    call: &Invocation,
) -> Result<Act<'p>, NoMemory>
    ensures refines { Computes state.old (object_get_own_property_descriptor (call_of call.now)) result state.new }
    ensures bounded { RankAtMost state.old 22 result state.new }
{
    let alloc = state.alloc();
    let name = argument_of(alloc, call, 1)?;
    match first_object(alloc, &mut state.store, call)? {
        Answer::Throws(thrown) => Ok(Act::Complete(Completion::Throw(thrown))),
        Answer::Gives(object) => convert_name(state, object, name),
    }
}
