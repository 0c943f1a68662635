//! What a program declares, before its code runs (10.5).
ghost use Rattle.std.specs.Prelude.{◌≡◌, if◌then◌else◌, true, IfOk, IsTrue, Some};
ghost use Rattle.std.specs.Option.{option_map};
ghost use Rattle.jl_value.specs.declared.value.Value.TheVariants as value;
ghost use Rattle.jl_effects.specs.Running.{Ends};
ghost use Rattle.jl_meaning.specs.DeclarationBinding.{declare_global_function, declare_global_functions};
ghost use Rattle.jl_meaning.specs.DeclarationBinding.{declare_global_variables, declare_program};
ghost use Rattle.jl_meaning.specs.Intrinsics.{global_object};
ghost use Rattle.jl_meaning.specs.Parts.{gives};
ghost use Rattle.jl_meaning.specs.Properties.{get_property};
ghost use Rattle.jl_meaning.specs.Putting.{put, put_on};
ghost use Rattle.jl_scope.specs.Hoisting.{variables};
ghost use Rattle.jl_store.specs.Answers.{ends_with, finish_of};
ghost use Rattle.jl_store.specs.BigStep.{BigStep};
ghost use Rattle.jl_store.specs.LookUps.{property_seen};
ghost use Rattle.jl_store.specs.Plain.{code_in, plain_code, plain_function, plain_functions};
ghost use Rattle.jl_realm.specs.Global.{declare_made, is_no_accessor, is_no_fault, put_change, HasGlobalObject};

use jl_algorithm::{plain_change, value_change};
use jl_ast::{Body, Function};
use jl_heap::Change;
use jl_scope::vars;
use jl_store::{Answer, Finished, Property, Store, can_put};
use jl_text::{NoMemory, Text};
use jl_value::{ObjId, Value};
use std::alloc::Global;

/// Declaration Binding Instantiation of a program (10.5): its functions and its variables become properties of the
/// global object, which is there and is no array, no String object and no `arguments`. It throws a TypeError where a
/// property can't be made, or can't be written in strict code.
#[tactic(auto, unfolding(jl_meaning::specs::DeclarationBinding::declare_program))]
pub fn declare_program(
    alloc: Global,
    store: &mut Store,
    body: &Body,
    strict: bool,
) -> Result<Answer<()>, NoMemory>
    requires { HasGlobalObject store.old }
    ensures { IfOk result (λ answer. BigStep (declare_program (plain_code body.now) (code_in 0 strict)) store.old
        store.new (ends_with answer)) }
{
    match declare_functions(store, body.functions.items(), strict)? {
        Answer::Gives(()) => declare_variables(alloc, store, body),
        Answer::Throws(thrown) => Ok(Answer::Throws(thrown)),
    }
}

/// Declares the variables of a program (10.5, step 8).
fn declare_variables(alloc: Global, store: &mut Store, body: &Body) -> Result<Answer<()>, NoMemory>
    requires { HasGlobalObject store.old }
    ensures { IfOk result (λ answer. BigStep (declare_global_variables (variables (plain_code body.now))) store.old
        store.new (ends_with answer)) }
{
    let names = vars(alloc, body)?;
    let end = store.declare_global_variables(names.as_slice())?;
    Ok(without_fault(end))
}

/// Declares the functions of a program (10.5, step 5).
fn declare_functions(
    store: &mut Store,
    functions: &[Function],
    strict: bool,
) -> Result<Answer<()>, NoMemory>
    requires { HasGlobalObject store.old }
    ensures { IfOk result (λ answer. BigStep (declare_global_functions (plain_functions functions.now) (code_in 0 strict))
        store.old store.new (ends_with answer)) }
{
    for f in functions {
        match declare_function(store, f, strict)? {
            Answer::Gives(()) => {}
            Answer::Throws(thrown) => return Ok(Answer::Throws(thrown)),
        }
    }
    Ok(Answer::Gives(()))
}

/// Makes a function of a program, and declares it.
fn declare_function(store: &mut Store, f: &Function, strict: bool) -> Result<Answer<()>, NoMemory>
    requires { HasGlobalObject store.old }
    ensures { IfOk result (λ answer. BigStep (declare_made (plain_function f.now) (code_in 0 strict)) store.old store.new
        (ends_with answer)) }
{
    let id = store.make_function(strict, 0, f)?;
    match &f.name {
        Some(name) => bind_function(store, strict, &name.text, id),
        None => Ok(Answer::Gives(())),
    }
}

/// A function becomes the value of a property of the global object.
fn bind_function(
    store: &mut Store,
    strict: bool,
    name: &Text,
    f: ObjId,
) -> Result<Answer<()>, NoMemory>
    requires { HasGlobalObject store.old }
    ensures { IfOk result (λ answer. BigStep (declare_global_function strict (Some name.now) f) store.old store.new
        (ends_with answer)) }
{
    let end = store.prepare_global(name)?;
    match without_fault(end) {
        Answer::Gives(()) => put_global(store, strict, name, Value::Obj(f)),
        Answer::Throws(thrown) => Ok(Answer::Throws(thrown)),
    }
}

/// [[Put]] of the global object, where no setter takes the value (8.12.5). Where it isn't done, it throws a TypeError
/// if it is asked to.
#[tactic(auto, unfolding(jl_meaning::specs::Putting::put))]
fn put_global(
    store: &mut Store,
    throwing: bool,
    name: &Text,
    v: Value,
) -> Result<Answer<()>, NoMemory>
    requires global { HasGlobalObject store.old }
    requires no_accessor { is_no_accessor (get_property store.old global_object.0 name.now) ≡ true }
    ensures { IfOk result (λ answer. BigStep (put throwing (value.Obj global_object) name.now v) store.old store.new
        (ends_with answer)) }
{
    let done = put_on_global(store, name, v)?;
    store.require(is_met(throwing, done), "cannot write")
}

/// Whether what was done is as much as was asked for.
fn is_met(throwing: bool, done: bool) -> bool
    ensures { result ≡ (if throwing then done else true) }
{
    if throwing { done } else { true }
}

/// [[Put]] of the global object, and whether it is done.
fn put_on_global(store: &mut Store, name: &Text, v: Value) -> Result<bool, NoMemory>
    requires global { HasGlobalObject store.old }
    requires no_accessor { is_no_accessor (get_property store.old global_object.0 name.now) ≡ true }
    ensures { IfOk result (λ done. BigStep (put_on store.old (value.Obj global_object) name.now v) store.old store.new
        (Ends (gives done))) }
{
    let property = store.get_property(ObjId::GLOBAL, name);
    if !can_put(store.is_extensible(ObjId::GLOBAL), &property) {
        return Ok(false);
    }
    let change = put_change(v, &property);
    store.define_with_number(ObjId::GLOBAL, name, change)
}

/// What a put asks for where this property was found, or none, and no setter takes the value.
fn put_change(v: Value, property: &Option<Property<'_>>) -> Change
    ensures { result ≡ put_change v (option_map property_seen property.now) }
{
    match property {
        Some(Property { own: true, .. }) => value_change(v),
        Some(Property { own: false, .. }) => plain_change(v),
        None => plain_change(v),
    }
}

/// The same end, which is no fault.
fn without_fault<T>(end: Finished<T>) -> Answer<T>
    requires { IsTrue (is_no_fault end) }
    ensures { ends_with result ≡ finish_of end }
{
    match end {
        Finished::Gives(value) => Answer::Gives(value),
        Finished::Throws(thrown) => Answer::Throws(thrown),
        Finished::Fails(_) => unreachable!(),
    }
}
