//! `Object.defineProperty`, `Object.defineProperties` and `Object.create` (15.2.3.5 to 15.2.3.7).
ghost use Rattle.std.specs.Prelude.{◌≡◌, ◌+◌, ◌∷◌, [], drop, length, IfOk, MatchOption};
ghost use Rattle.jl_conv.specs.Conversions.{text_of_value};
ghost use Rattle.jl_effects.specs.Effects.{Step};
ghost use Rattle.jl_effects.specs.Running.{Ends};
ghost use Rattle.jl_heap.specs.Define.{IsOneKind};
ghost use Rattle.jl_heap.specs.declared.inner.Inner.TheVariants as inner;
ghost use Rattle.jl_lib_object.specs.inner.Parts.{create_with, define_and_give, define_by, read_descriptor};
ghost use Rattle.jl_meaning.specs.Conversions.{to_string};
ghost use Rattle.jl_meaning.specs.Parts.{gives, new_object, ◌>>=◌ as ◌then◌};
ghost use Rattle.jl_meaning.specs.builtins.Arguments.{define_or_throw, give_object, unless_undefined};
ghost use Rattle.jl_meaning.specs.builtins.Descriptors.{enumerable_names};
ghost use Rattle.jl_meaning.specs.builtins.Object.{changes_of, define_all, need_prototype};
ghost use Rattle.jl_meaning.specs.builtins.Object.{object_create, object_define_properties, object_define_property};
ghost use Rattle.jl_progress.specs.Objects.{after_descriptor, rank_definitions, rank_use};
ghost use Rattle.jl_state.specs.Clauses.{Computes, RankAtMost};
ghost use Rattle.jl_state.specs.Words.{call_of};
ghost use Rattle.jl_store.specs.Answers.{ends_with};
ghost use Rattle.jl_store.specs.BigStep.{BigStep};

use crate::descriptors::to_property_descriptor;
use crate::own_names::{enumerable_names, name_from};
use crate::waiting::{argument_of, first_object, wait_object};
use jl_algorithm::{define_own_property, get, to_primitive};
use jl_heap::{Change, Inner};
use jl_operator::text_of;
use jl_progress::{DescriptorUse, NamedChange, ObjectProgress};
use jl_state::{Act, AfterDefine, Hint, Invocation, State};
use jl_store::{Answer, Store};
use jl_text::{List, NoMemory, Text};
use jl_value::{Class, Completion, ObjId, Value, is_undefined, share_optional};
use std::alloc::Global;

/// What a descriptor was read for, with the change that it describes.
pub(crate) fn use_change<'p>(
    state: &mut State<'p>,
    change: Change,
    purpose: DescriptorUse,
) -> Result<Act<'p>, NoMemory>
    requires { IsOneKind change }
    ensures refines { Computes state.old (after_descriptor purpose change) result state.new }
    ensures bounded { RankAtMost state.old (rank_use purpose) result state.new }
{
    match purpose {
        DescriptorUse::One { object, name } => {
            let purpose = AfterDefine::Builtin {
                gives: Value::Obj(object),
            };
            define_own_property(state, object, &name, change, purpose)
        }
        DescriptorUse::Next {
            object,
            descriptors,
            changes,
            name,
            names,
            from,
        } => {
            let mut changes = changes;
            changes.push(NamedChange::new(name, change))?;
            read_changes(state, object, descriptors, changes, names, from)
        }
    }
}

/// The changes of the names from an index on are read, and then all are done (15.2.3.7, steps 5 and 6).
fn read_changes<'p>(
    state: &mut State<'p>,
    object: ObjId,
    descriptors: ObjId,
    changes: List<NamedChange>,
    names: List<Text>,
    from: usize,
) -> Result<Act<'p>, NoMemory>
    ensures refines { Computes state.old (changes_of descriptors changes (drop from names) then define_and_give
        object) result state.new }
    ensures bounded { RankAtMost state.old (rank_definitions (length changes) + 2) result state.new }
{
    let alloc = state.alloc();
    match name_from(alloc, names.items(), from)? {
        None => define_from(state, object, changes, 0),
        Some((name, next)) => get_descriptor(
            state,
            object,
            descriptors,
            changes,
            name,
            names,
            next,
        ),
    }
}

/// A turn takes a step, and the descriptor of a name is got.
fn get_descriptor<'p>(
    state: &mut State<'p>,
    object: ObjId,
    descriptors: ObjId,
    changes: List<NamedChange>,
    name: Text,
    names: List<Text>,
    from: usize,
) -> Result<Act<'p>, NoMemory>
    ensures refines { Computes state.old (Step (read_descriptor object descriptors changes name names from)) result
        state.new }
    ensures bounded { RankAtMost state.old 1 result state.new }
{
    let alloc = state.alloc();
    if !state.spend() {
        return Ok(Act::Spent);
    }
    let key = name.share(alloc)?;
    wait_object(
        state,
        ObjectProgress::Descriptor {
            object,
            descriptors,
            changes,
            name,
            names,
            from,
        },
    )?;
    get(state, &Value::Obj(descriptors), &key)
}

/// Goes on with the descriptor of a name.
pub(crate) fn step_descriptor<'p>(
    state: &mut State<'p>,
    purpose: DescriptorUse,
    v: &Value,
) -> Result<Act<'p>, NoMemory>
    ensures refines { Computes state.old (define_by purpose v.now) result state.new }
    ensures bounded { RankAtMost state.old (rank_use purpose + 28) result state.new }
{
    to_property_descriptor(state, v, purpose)
}

/// The change at an index is done, and then those after it (15.2.3.7, step 6), and the object is given.
pub(crate) fn define_from<'p>(
    state: &mut State<'p>,
    object: ObjId,
    changes: List<NamedChange>,
    from: usize,
) -> Result<Act<'p>, NoMemory>
    ensures refines { Computes state.old (define_and_give object (drop from changes)) result state.new }
    ensures bounded { RankAtMost state.old (rank_definitions (length (drop from changes)) + 2) result state.new }
{
    let alloc = state.alloc();
    match change_from(alloc, changes.items(), from)? {
        None => Ok(Act::Give(Value::Obj(object))),
        Some((named, next)) => define_one(state, object, &named, changes, next),
    }
}

/// A change is done, and those from an index on wait.
fn define_one<'p>(
    state: &mut State<'p>,
    object: ObjId,
    named: &NamedChange,
    changes: List<NamedChange>,
    from: usize,
) -> Result<Act<'p>, NoMemory>
    ensures refines { Computes state.old (define_or_throw object named.now.0 named.now.1 then λ _. define_and_give
        object (drop from changes)) result state.new }
    ensures bounded { RankAtMost state.old (rank_definitions (length (drop from changes)) + 40) result state.new }
{
    let alloc = state.alloc();
    let change = copy_of(alloc, named.change())?;
    let purpose = AfterDefine::Builtin {
        gives: Value::Undefined,
    };
    wait_object(
        state,
        ObjectProgress::Define {
            object,
            changes,
            from,
        },
    )?;
    define_own_property(state, object, named.name(), change, purpose)
}

/// The change at an index and the next index, if there is one.
fn change_from(
    alloc: Global,
    changes: &[NamedChange],
    at: usize,
) -> Result<Option<(NamedChange, usize)>, NoMemory>
    ensures { IfOk result (λ found. MatchOption found (drop at changes.now ≡ [])
        (λ r. drop at changes.now ≡ r.0 ∷ drop r.1 changes.now)) }
{
    match changes.get(at) {
        None => Ok(None),
        Some(named) => Ok(Some((named_copy(alloc, named)?, at + 1))),
    }
}

/// The same change with the same name.
fn named_copy(alloc: Global, named: &NamedChange) -> Result<NamedChange, NoMemory>
    ensures { IfOk result (λ copy. copy ≡ named.now) }
{
    let name = named.name().share(alloc)?;
    let change = copy_of(alloc, named.change())?;
    Ok(NamedChange::new(name, change))
}

/// The same change.
fn copy_of(alloc: Global, change: &Change) -> Result<Change, NoMemory>
    ensures { IfOk result (λ copy. copy ≡ change.now) }
{
    Ok(Change {
        value: share_optional(alloc, &change.value)?,
        writable: change.writable,
        get: change.get,
        set: change.set,
        enumerable: change.enumerable,
        configurable: change.configurable,
    })
}

/// What an object of descriptors describes is defined (15.2.3.7, steps 2 to 6), and the object that has it now given.
fn define_all<'p>(state: &mut State<'p>, object: ObjId, v: &Value) -> Result<Act<'p>, NoMemory>
    ensures refines { Computes state.old (define_all object v.now then λ _. give_object object) result state.new }
    ensures bounded { RankAtMost state.old 9 result state.new }
{
    match state.store.to_object(v)? {
        Answer::Throws(thrown) => Ok(Act::Complete(Completion::Throw(thrown))),
        Answer::Gives(descriptors) => read_all(state, object, descriptors),
    }
}

/// The changes of all enumerable properties of an object of descriptors are read, and then done.
fn read_all<'p>(
    state: &mut State<'p>,
    object: ObjId,
    descriptors: ObjId,
) -> Result<Act<'p>, NoMemory>
    ensures refines { Computes state.old (changes_of descriptors [] (enumerable_names state.old.store descriptors.0)
        then define_and_give object) result state.new }
    ensures bounded { RankAtMost state.old 9 result state.new }
{
    let alloc = state.alloc();
    let names = enumerable_names(alloc, &state.store, descriptors)?;
    let changes = List::new(alloc);
    read_changes(state, object, descriptors, changes, names, 0)
}

/// A prototype: an object, or null (15.2.3.5, step 1).
fn need_prototype(store: &mut Store, v: &Value) -> Result<Answer<Option<ObjId>>, NoMemory>
    ensures { IfOk result (λ answer. BigStep (need_prototype v.now) store.old store.new (ends_with answer)) }
{
    match v {
        Value::Obj(id) => Ok(Answer::Gives(Some(*id))),
        Value::Null => Ok(Answer::Gives(None)),
        _ => Ok(Answer::Throws(store.throw_type_error("not an object")?)),
    }
}

/// Properties are defined, where they are given, on an object that is then given itself.
fn define_given<'p>(state: &mut State<'p>, object: ObjId, v: &Value) -> Result<Act<'p>, NoMemory>
    ensures refines { Computes state.old (unless_undefined tt (define_all object) v.now then λ _. give_object object)
        result state.new }
    ensures bounded { RankAtMost state.old 9 result state.new }
{
    if is_undefined(v) {
        return Ok(Act::Give(Value::Obj(object)));
    }
    define_all(state, object, v)
}

/// A new object of class Object with a prototype, or with none.
fn new_object(store: &mut Store, proto: Option<ObjId>) -> Result<ObjId, NoMemory>
    ensures { IfOk result (λ id. BigStep (new_object Class.Object proto inner.Nothing) store.old store.new
        (Ends (gives id))) }
{
    let id = store.new_object(Class::Object, proto, Inner::Nothing)?;
    Ok(id)
}

/// A new object with a prototype gets the properties that are given.
fn create_with<'p>(
    state: &mut State<'p>,
    proto: Option<ObjId>,
    properties: &Value,
) -> Result<Act<'p>, NoMemory>
    ensures refines { Computes state.old (create_with proto properties.now) result state.new }
    ensures bounded { RankAtMost state.old 9 result state.new }
{
    let object = new_object(&mut state.store, proto)?;
    define_given(state, object, properties)
}

/// `Object.create(O, Properties)` (15.2.3.5).
pub(crate) fn object_create<'p>(
    state: &mut State<'p>,
    call: &Invocation,
) -> Result<Act<'p>, NoMemory>
    ensures refines { Computes state.old (object_create (call_of call.now)) result state.new }
    ensures bounded { RankAtMost state.old 9 result state.new }
{
    let alloc = state.alloc();
    let proto = argument_of(alloc, call, 0)?;
    let properties = argument_of(alloc, call, 1)?;
    match need_prototype(&mut state.store, &proto)? {
        Answer::Throws(thrown) => Ok(Act::Complete(Completion::Throw(thrown))),
        Answer::Gives(proto) => create_with(state, proto, &properties),
    }
}

/// `Object.defineProperties(O, Properties)` (15.2.3.7).
pub(crate) fn object_define_properties<'p>(
    state: &mut State<'p>,
    call: &Invocation,
) -> Result<Act<'p>, NoMemory>
    ensures refines { Computes state.old (object_define_properties (call_of call.now)) result state.new }
    ensures bounded { RankAtMost state.old 9 result state.new }
{
    let alloc = state.alloc();
    let properties = argument_of(alloc, call, 1)?;
    match first_object(alloc, &mut state.store, call)? {
        Answer::Throws(thrown) => Ok(Act::Complete(Completion::Throw(thrown))),
        Answer::Gives(object) => define_all(state, object, &properties),
    }
}

/// The name of a property that is to be defined is converted.
fn convert_name<'p>(
    state: &mut State<'p>,
    object: ObjId,
    name: Value,
    descriptor: Value,
) -> Result<Act<'p>, NoMemory>
    ensures refines { Computes state.old (to_string name then λ x. define_by (DescriptorUse.One object x) descriptor)
        result state.new }
    ensures bounded { RankAtMost state.old 96 result state.new }
{
    wait_object(state, ObjectProgress::DefinedName { object, descriptor })?;
    to_primitive(state, name, Hint::Text)
}

/// `Object.defineProperty(O, P, Attributes)` (15.2.3.6).
pub(crate) fn object_define_property<'p>(
    state: &mut State<'p>,
    call: &Invocation,
) -> Result<Act<'p>, NoMemory>
    ensures refines { Computes state.old (object_define_property (call_of call.now)) result state.new }
    ensures bounded { RankAtMost state.old 96 result state.new }
{
    let alloc = state.alloc();
    let name = argument_of(alloc, call, 1)?;
    let descriptor = argument_of(alloc, call, 2)?;
    match first_object(alloc, &mut state.store, call)? {
        Answer::Throws(thrown) => Ok(Act::Complete(Completion::Throw(thrown))),
        Answer::Gives(object) => convert_name(state, object, name, descriptor),
    }
}

/// Goes on with the name of a property that is to be defined.
pub(crate) fn step_defined_name<'p>(
    state: &mut State<'p>,
    object: ObjId,
    descriptor: &Value,
    p: &Value,
) -> Result<Act<'p>, NoMemory>
    ensures refines { Computes state.old (define_by (DescriptorUse.One object (text_of_value p.now)) descriptor.now)
        result state.new }
    ensures bounded { RankAtMost state.old 82 result state.new }
{
    let alloc = state.alloc();
    let name = text_of(alloc, p)?;
    step_descriptor(state, DescriptorUse::One { object, name }, descriptor)
}
