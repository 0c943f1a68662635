//! The objects that a run begins with (clause 15).
ghost use Rattle.std.specs.List.{flat_map, list_all};
ghost use Rattle.std.specs.Prelude.{◌≡◌, ◌∷◌, [], pos, IfOk, IsTrue, OnOk, Some, false};
ghost use Rattle.jl_heap.specs.declared.property.Prop.TheVariants.{Plain};
ghost use Rattle.jl_meaning.specs.Changes.{NewObject};
ghost use Rattle.jl_meaning.specs.Realm.{realm};
ghost use Rattle.jl_realm.specs.Global.{HasGlobalObject};
ghost use Rattle.jl_realm.specs.inner.Steps.{all_ready, after_all, changes_of, function_held, function_made};
ghost use Rattle.jl_realm.specs.inner.Steps.{function_named, has_place, inner_of, inside_fits, property_added};
ghost use Rattle.jl_realm.specs.inner.Steps.{step_fits, value_fits, value_of, word_text};

use crate::builtins::{has_function_object, is_held, place, property_name, steps_for};
use crate::steps::{Initial, Inside, STEPS, Step, Word};
use jl_heap::{Inner, Prop};
use jl_num::Num;
use jl_store::Store;
use jl_text::{NoMemory, Text, word};
use jl_value::{Builtin, Class, ObjId, Value};
use std::alloc::Global;
use std::hash::RandomState;

/// The store that a run begins with (clause 15).
pub fn initial_store(alloc: Global, keys: RandomState) -> Result<Store, NoMemory>
    ensures realm { IfOk result (λ store. store ≡ realm) }
    ensures global { IfOk result (λ store. HasGlobalObject store) }
{
    let mut store = Store::new(alloc, keys)?;
    let builtins = Builtin::all();
    take_all(alloc, &mut store, builtins, &STEPS)?;
    make_functions(alloc, &mut store, builtins)?;
    Ok(store)
}

/// Takes these steps, one after another.
fn take_all(
    alloc: Global,
    store: &mut Store,
    builtins: &[Builtin],
    steps: &[Step],
) -> Result<(), NoMemory>
    requires fit { IsTrue (list_all step_fits steps.now) }
    requires ready { IsTrue (all_ready (flat_map (changes_of builtins.now) steps.now) store.old) }
    ensures { OnOk result (store.new ≡ after_all (flat_map (changes_of builtins.now) steps.now) store.old) }
{
    for step in steps {
        take(alloc, store, builtins, *step)?;
    }
    Ok(())
}

fn take(alloc: Global, store: &mut Store, builtins: &[Builtin], step: Step) -> Result<(), NoMemory>
    requires fits { IsTrue (step_fits step) }
    requires ready { IsTrue (all_ready (changes_of builtins.now step) store.old) }
    ensures { OnOk result (store.new ≡ after_all (changes_of builtins.now step) store.old) }
{
    match step {
        Step::Nothing => Ok(()),
        Step::Object(class, proto, inside) => make_object(alloc, store, class, proto, inside),
        Step::Changeable(holder, word, value) => {
            add_property(alloc, store, holder, word, value, true)
        }
        Step::Constant(holder, word, value) => {
            add_property(alloc, store, holder, word, value, false)
        }
        Step::Functions(holder) => add_functions(alloc, store, holder, builtins),
        Step::Close(id) => {
            store.prevent_extensions(id);
            Ok(())
        }
    }
}

fn make_object(
    alloc: Global,
    store: &mut Store,
    class: Class,
    proto: Option<ObjId>,
    inside: Inside,
) -> Result<(), NoMemory>
    requires { IsTrue (inside_fits inside) }
    ensures { OnOk result (store.new ≡ after_all (NewObject class proto (inner_of inside) ∷ []) store.old) }
{
    let inner = inner(alloc, inside)?;
    store.new_object(class, proto, inner)?;
    Ok(())
}

fn inner(alloc: Global, inside: Inside) -> Result<Inner, NoMemory>
    requires { IsTrue (inside_fits inside) }
    ensures { IfOk result (λ inner. inner ≡ inner_of inside) }
{
    match inside {
        Inside::Nothing => Ok(Inner::Nothing),
        Inside::Native(builtin) => Ok(Inner::Native(builtin)),
        Inside::Wrapped(v) => Ok(Inner::Wrapped(value(alloc, v)?)),
    }
}

fn add_property(
    alloc: Global,
    store: &mut Store,
    holder: ObjId,
    word: Word,
    v: Initial,
    changeable: bool,
) -> Result<(), NoMemory>
    requires fits { IsTrue (value_fits v) }
    requires ready { IsTrue (all_ready (property_added holder word v changeable) store.old) }
    ensures { OnOk result (store.new ≡ after_all (property_added holder word v changeable) store.old) }
{
    let name = text_of(alloc, word)?;
    let value = value(alloc, v)?;
    store.add_property(holder, &name, data(value, changeable))?;
    Ok(())
}

/// Those of these builtins become properties of an object that it has as properties.
fn add_functions(
    alloc: Global,
    store: &mut Store,
    holder: ObjId,
    builtins: &[Builtin],
) -> Result<(), NoMemory>
    requires { IsTrue (all_ready (flat_map (function_held holder) builtins.now) store.old) }
    ensures { OnOk result (store.new ≡ after_all (flat_map (function_held holder) builtins.now) store.old) }
{
    for builtin in builtins {
        add_if_held(alloc, store, holder, *builtin)?;
    }
    Ok(())
}

#[tactic(auto, using(crate::proofs::Placed::held_placed))]
fn add_if_held(
    alloc: Global,
    store: &mut Store,
    holder: ObjId,
    builtin: Builtin,
) -> Result<(), NoMemory>
    requires { IsTrue (all_ready (function_held holder builtin) store.old) }
    ensures { OnOk result (store.new ≡ after_all (function_held holder builtin) store.old) }
{
    if is_held(holder, builtin) {
        add_function(alloc, store, holder, builtin)
    } else {
        Ok(())
    }
}

fn add_function(
    alloc: Global,
    store: &mut Store,
    holder: ObjId,
    builtin: Builtin,
) -> Result<(), NoMemory>
    requires fits { IsTrue (has_place builtin) }
    requires ready { IsTrue (all_ready (function_named holder builtin) store.old) }
    ensures { OnOk result (store.new ≡ after_all (function_named holder builtin) store.old) }
{
    let name = word(alloc, property_name(builtin))?;
    store.add_property(holder, &name, data(Value::Obj(place(builtin)), true))?;
    Ok(())
}

/// Makes the objects of all builtins that have one behind the first objects.
fn make_functions(alloc: Global, store: &mut Store, builtins: &[Builtin]) -> Result<(), NoMemory>
    requires { IsTrue (all_ready (flat_map (function_made builtins.now) builtins.now) store.old) }
    ensures { OnOk result (store.new ≡ after_all (flat_map (function_made builtins.now) builtins.now) store.old) }
{
    for builtin in builtins {
        make_if_there(alloc, store, builtins, *builtin)?;
    }
    Ok(())
}

#[tactic(auto, using(crate::proofs::Placed::there_placed, crate::proofs::Placed::steps_fit))]
fn make_if_there(
    alloc: Global,
    store: &mut Store,
    builtins: &[Builtin],
    builtin: Builtin,
) -> Result<(), NoMemory>
    requires { IsTrue (all_ready (function_made builtins.now builtin) store.old) }
    ensures { OnOk result (store.new ≡ after_all (function_made builtins.now builtin) store.old) }
{
    if has_function_object(builtin) {
        take_all(alloc, store, builtins, &steps_for(builtin))
    } else {
        Ok(())
    }
}

#[tactic(auto, unfolding(jl_heap::specs::Define::length_name))]
fn text_of(alloc: Global, name: Word) -> Result<Text, NoMemory>
    ensures { IfOk result (λ text. text ≡ word_text name) }
{
    match name {
        Word::Console => word(alloc, "console"),
        Word::Constructor => word(alloc, "constructor"),
        Word::Length => word(alloc, "length"),
        Word::Math => word(alloc, "Math"),
        Word::Message => word(alloc, "message"),
        Word::NaN => word(alloc, "NaN"),
        Word::Name => word(alloc, "name"),
        Word::Prototype => word(alloc, "prototype"),
        Word::Undefined => word(alloc, "undefined"),
    }
}

fn value(alloc: Global, v: Initial) -> Result<Value, NoMemory>
    requires { IsTrue (value_fits v) }
    ensures { IfOk result (λ value. value ≡ value_of v) }
{
    match v {
        Initial::Undefined => Ok(Value::Undefined),
        Initial::NaN => Ok(Value::Num(Num::NAN)),
        Initial::False => Ok(Value::Bool(false)),
        Initial::Empty => Ok(Value::Text(word(alloc, "")?)),
        Initial::Count(n) => Ok(Value::Num(count(n))),
        Initial::Object(id) => Ok(Value::Obj(id)),
        Initial::Function(builtin) => Ok(Value::Obj(place(builtin))),
        Initial::Name(builtin) => Ok(Value::Text(word(alloc, builtin.name())?)),
    }
}

fn count(n: u8) -> Num
    ensures { result ≡ Some (pos n) }
{
    match Num::new(i64::from(n)) {
        Ok(number) => number,
        Err(_) => unreachable!(),
    }
}

/// A data property that is not enumerable, and that can be written and deleted or stays as it is.
fn data(value: Value, changeable: bool) -> Prop
    ensures { result ≡ Plain value changeable false changeable }
{
    Prop::Plain {
        value,
        writable: changeable,
        enumerable: false,
        configurable: changeable,
    }
}
