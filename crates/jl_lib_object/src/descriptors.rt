//! Property descriptors read from objects of a script (8.10.5).
ghost use Rattle.std.specs.Prelude.{◌≡◌, ◌+◌, ◌*◌, ◌&&◌, IfOk};
ghost use Rattle.jl_heap.specs.Property.{is_accessor, is_data, no_change};
ghost use Rattle.jl_lib_object.specs.inner.Fields.{change_from, field_name, fields_from, function_or_undefined};
ghost use Rattle.jl_lib_object.specs.inner.Fields.{next_field, with_field, without_field};
ghost use Rattle.jl_meaning.specs.Getting.{get};
ghost use Rattle.jl_meaning.specs.Parts.{◌>>=◌ as ◌then◌};
ghost use Rattle.jl_meaning.specs.Properties.{has_property};
ghost use Rattle.jl_meaning.specs.builtins.Descriptors.{of_one_kind, to_property_descriptor};
ghost use Rattle.jl_progress.specs.Objects.{after_descriptor, object_after, rank_object, rank_use};
ghost use Rattle.jl_state.specs.Clauses.{Computes, RankAtMost};
ghost use Rattle.jl_store.specs.Answers.{ends_with};
ghost use Rattle.jl_store.specs.BigStep.{BigStep};

use crate::defining::use_change;
use crate::waiting::wait_object;
use jl_algorithm::{get, throw_native};
use jl_builtin::{need_function, need_object};
use jl_conv::to_boolean;
use jl_heap::Change;
use jl_progress::{DescriptorField, DescriptorUse, ObjectProgress};
use jl_state::{Act, State};
use jl_store::{Answer, Store};
use jl_text::{NoMemory, word};
use jl_value::{Completion, ErrorKind, ObjId, Value, is_undefined};
use std::alloc::Global;

fn field_name(field: DescriptorField) -> &'static str
    ensures { result.now ≡ field_name field }
{
    match field {
        DescriptorField::Enumerable => "enumerable",
        DescriptorField::Configurable => "configurable",
        DescriptorField::Value => "value",
        DescriptorField::Writable => "writable",
        DescriptorField::Get => "get",
        DescriptorField::Set => "set",
    }
}

/// The field that is read after one, if any is.
fn next_field(field: DescriptorField) -> Option<DescriptorField>
    ensures { result ≡ next_field field }
{
    match field {
        DescriptorField::Enumerable => Some(DescriptorField::Configurable),
        DescriptorField::Configurable => Some(DescriptorField::Value),
        DescriptorField::Value => Some(DescriptorField::Writable),
        DescriptorField::Writable => Some(DescriptorField::Get),
        DescriptorField::Get => Some(DescriptorField::Set),
        DescriptorField::Set => None,
    }
}

/// Nothing is asked for.
fn no_change() -> Change
    ensures { result ≡ no_change }
{
    Change {
        value: None,
        writable: None,
        get: None,
        set: None,
        enumerable: None,
        configurable: None,
    }
}

/// A getter or a setter: a function, or undefined (steps 7 and 8).
fn function_or_undefined(store: &mut Store, v: &Value) -> Result<Answer<Option<ObjId>>, NoMemory>
    ensures { IfOk result (λ answer. BigStep (function_or_undefined v.now) store.old store.new (ends_with answer)) }
{
    if is_undefined(v) {
        return Ok(Answer::Gives(None));
    }
    match need_function(store, v)? {
        Answer::Gives(f) => Ok(Answer::Gives(Some(f))),
        Answer::Throws(thrown) => Ok(Answer::Throws(thrown)),
    }
}

/// A change with a getter.
fn with_getter(store: &mut Store, v: &Value, change: Change) -> Result<Answer<Change>, NoMemory>
    ensures { IfOk result (λ answer. BigStep (with_field DescriptorField.Get v.now change) store.old store.new
        (ends_with answer)) }
{
    match function_or_undefined(store, v)? {
        Answer::Gives(getter) => Ok(Answer::Gives(Change {
            get: Some(getter),
            ..change
        })),
        Answer::Throws(thrown) => Ok(Answer::Throws(thrown)),
    }
}

/// A change with a setter.
fn with_setter(store: &mut Store, v: &Value, change: Change) -> Result<Answer<Change>, NoMemory>
    ensures { IfOk result (λ answer. BigStep (with_field DescriptorField.Set v.now change) store.old store.new
        (ends_with answer)) }
{
    match function_or_undefined(store, v)? {
        Answer::Gives(setter) => Ok(Answer::Gives(Change {
            set: Some(setter),
            ..change
        })),
        Answer::Throws(thrown) => Ok(Answer::Throws(thrown)),
    }
}

/// A change with a field that is there.
fn with_field(
    store: &mut Store,
    field: DescriptorField,
    v: Value,
    change: Change,
) -> Result<Answer<Change>, NoMemory>
    ensures { IfOk result (λ answer. BigStep (with_field field v change) store.old store.new (ends_with answer)) }
{
    match field {
        DescriptorField::Enumerable => Ok(Answer::Gives(Change {
            enumerable: Some(to_boolean(&v)),
            ..change
        })),
        DescriptorField::Configurable => Ok(Answer::Gives(Change {
            configurable: Some(to_boolean(&v)),
            ..change
        })),
        DescriptorField::Value => Ok(Answer::Gives(Change {
            value: Some(v),
            ..change
        })),
        DescriptorField::Writable => Ok(Answer::Gives(Change {
            writable: Some(to_boolean(&v)),
            ..change
        })),
        DescriptorField::Get => {
            let answer = with_getter(store, &v, change)?;
            Ok(answer)
        }
        DescriptorField::Set => {
            let answer = with_setter(store, &v, change)?;
            Ok(answer)
        }
    }
}

/// A change without a field.
fn without_field(field: DescriptorField, change: Change) -> Change
    ensures { result ≡ without_field field change }
{
    match field {
        DescriptorField::Enumerable => Change {
            enumerable: None,
            ..change
        },
        DescriptorField::Configurable => Change {
            configurable: None,
            ..change
        },
        DescriptorField::Value => Change {
            value: None,
            ..change
        },
        DescriptorField::Writable => Change {
            writable: None,
            ..change
        },
        DescriptorField::Get => Change {
            get: None,
            ..change
        },
        DescriptorField::Set => Change {
            set: None,
            ..change
        },
    }
}

/// Whether the object of a descriptor has a field, its own or an inherited one.
fn has_field(
    alloc: Global,
    store: &Store,
    descriptor: ObjId,
    field: DescriptorField,
) -> Result<bool, NoMemory>
    ensures { IfOk result (λ has. has ≡ has_property store.now descriptor.0 (field_name field)) }
{
    let name = word(alloc, field_name(field))?;
    Ok(store.has_property(descriptor, &name))
}

/// A field is got.
fn get_field<'p>(
    state: &mut State<'p>,
    field: DescriptorField,
    descriptor: ObjId,
    change: Change,
    purpose: DescriptorUse,
) -> Result<Act<'p>, NoMemory>
    ensures refines { Computes state.old (get (Value.Obj descriptor) (field_name field) then object_after
        (ObjectProgress.Field field descriptor change purpose)) result state.new }
    ensures bounded { RankAtMost state.old (rank_object (ObjectProgress.Field field descriptor change purpose) + 4)
        result state.new }
{
    let alloc = state.alloc();
    let name = word(alloc, field_name(field))?;
    wait_object(
        state,
        ObjectProgress::Field {
            field,
            descriptor,
            change,
            purpose,
        },
    )?;
    get(state, &Value::Obj(descriptor), &name)
}

/// The fields of a descriptor from one on, and then what it is read for.
fn read_fields<'p>(
    state: &mut State<'p>,
    next: Option<DescriptorField>,
    descriptor: ObjId,
    change: Change,
    purpose: DescriptorUse,
) -> Result<Act<'p>, NoMemory>
    ensures refines { Computes state.old (change_from next descriptor change then after_descriptor purpose) result
        state.new }
    ensures bounded { RankAtMost state.old (rank_use purpose + (4 * fields_from next + 4)) result state.new }
{
    let alloc = state.alloc();
    let Some(field) = next else {
        return take_change(state, change, purpose);
    };
    if has_field(alloc, &state.store, descriptor, field)? {
        return get_field(state, field, descriptor, change, purpose);
    }
    let change = without_field(field, change);
    read_fields(state, next_field(field), descriptor, change, purpose)
}

/// Whether a change is data and accessor at once.
fn is_both_kinds(change: &Change) -> bool
    ensures { result ≡ (is_data change.now && is_accessor change.now) }
{
    change.is_data() && change.is_accessor()
}

/// A change that has been described, which may not be data and accessor at once (step 9).
fn take_change<'p>(
    state: &mut State<'p>,
    change: Change,
    purpose: DescriptorUse,
) -> Result<Act<'p>, NoMemory>
    ensures refines { Computes state.old (of_one_kind change then after_descriptor purpose) result state.new }
    ensures bounded { RankAtMost state.old (rank_use purpose) result state.new }
{
    if is_both_kinds(&change) {
        return throw_native(state, ErrorKind::TypeError, "bad descriptor");
    }
    use_change(state, change, purpose)
}

/// ToPropertyDescriptor (8.10.5), and then what it is done for.
pub(crate) fn to_property_descriptor<'p>(
    state: &mut State<'p>,
    v: &Value,
    purpose: DescriptorUse,
) -> Result<Act<'p>, NoMemory>
    ensures refines { Computes state.old (to_property_descriptor v.now then after_descriptor purpose) result state.new }
    ensures bounded { RankAtMost state.old (rank_use purpose + 28) result state.new }
{
    match need_object(&mut state.store, v)? {
        Answer::Throws(thrown) => Ok(Act::Complete(Completion::Throw(thrown))),
        Answer::Gives(descriptor) => {
            let first = Some(DescriptorField::Enumerable);
            read_fields(state, first, descriptor, no_change(), purpose)
        }
    }
}

/// Goes on with the value of a field.
pub(crate) fn step_field<'p>(
    state: &mut State<'p>,
    field: DescriptorField,
    descriptor: ObjId,
    change: Change,
    purpose: DescriptorUse,
    v: Value,
) -> Result<Act<'p>, NoMemory>
    ensures refines { Computes state.old (object_after (ObjectProgress.Field field descriptor change purpose) v)
        result state.new }
    ensures bounded { RankAtMost state.old (rank_object (ObjectProgress.Field field descriptor change purpose) + 2)
        result state.new }
{
    match with_field(&mut state.store, field, v, change)? {
        Answer::Throws(thrown) => Ok(Act::Complete(Completion::Throw(thrown))),
        Answer::Gives(change) => {
            let next = next_field(field);
            read_fields(state, next, descriptor, change, purpose)
        }
    }
}
