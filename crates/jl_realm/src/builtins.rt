//! What a builtin is when a run begins (clause 15): of which object it is a property, and the steps by which its own
//! object is made.
ghost use Rattle.std.specs.Prelude.{◌≡◌, IsTrue};
ghost use Rattle.jl_value.specs.BuiltinPlaces.{place_of_builtin};
ghost use Rattle.jl_value.specs.Builtins.{entry_of, name_of};
ghost use Rattle.jl_meaning.specs.Realm.{has_function_object, holds, last_part};
ghost use Rattle.jl_realm.specs.inner.Steps.{closing_step, functions_step, has_place, own_step, prototype_step};
ghost use Rattle.jl_realm.specs.inner.Steps.{steps_for};

use crate::steps::{Initial, Inside, Step, Word};
use jl_store::last_part;
use jl_value::{Builtin, Class, FunctionBuiltin, Holder, NumberBuiltin, ObjId};

/// The address of its object.
#[tactic(auto, using(crate::proofs::Placed::placed))]
pub(crate) fn place(builtin: Builtin) -> ObjId
    requires { IsTrue (has_place builtin) }
    ensures { result ≡ place_of_builtin builtin }
{
    builtin.place()
}

/// Its name as a property.
pub(crate) fn property_name(builtin: Builtin) -> &'static str
    ensures { result.now ≡ last_part (name_of builtin) }
{
    last_part(builtin.name())
}

/// Whether an object has a builtin as a property.
pub(crate) fn is_held(holder: ObjId, builtin: Builtin) -> bool
    ensures { result ≡ holds holder (entry_of builtin).holder }
{
    match builtin.holder() {
        Holder::Nothing => false,
        Holder::Object(id) => holder == id,
        Holder::Builtin(constructor) => holder == constructor.place(),
    }
}

/// Whether there is an object of its own behind the first ones.
pub(crate) fn has_function_object(builtin: Builtin) -> bool
    ensures { result ≡ has_function_object builtin }
{
    match builtin {
        Builtin::Function(FunctionBuiltin::Prototype | FunctionBuiltin::Bound) => false,
        _ => true,
    }
}

/// The steps by which its object is made.
#[tactic(auto, using(crate::proofs::Placed::placed))]
pub(crate) fn steps_for(builtin: Builtin) -> [Step; 6]
    requires { IsTrue (has_place builtin) }
    ensures { result ≡ steps_for builtin }
{
    let at = builtin.place();
    let prototype = builtin.prototype();
    [
        Step::Object(
            Class::Function,
            Some(ObjId::FUNCTION_PROTOTYPE),
            Inside::Native(builtin),
        ),
        own_step(builtin, at),
        prototype_step(prototype, at),
        Step::Constant(at, Word::Length, Initial::Count(builtin.length())),
        functions_step(prototype, at),
        closing_step(builtin, at),
    ]
}

/// Number.NaN (15.7.3.4).
fn own_step(builtin: Builtin, at: ObjId) -> Step
    ensures { result ≡ own_step builtin at }
{
    match builtin {
        Builtin::Number(NumberBuiltin::Constructor) => {
            Step::Constant(at, Word::NaN, Initial::NaN)
        }
        _ => Step::Nothing,
    }
}

/// A constructor has the prototype of what it constructs as a property.
fn prototype_step(prototype: Option<ObjId>, at: ObjId) -> Step
    ensures { result ≡ prototype_step prototype at }
{
    match prototype {
        Some(id) => Step::Constant(at, Word::Prototype, Initial::Object(id)),
        None => Step::Nothing,
    }
}

/// It has functions of its own too.
fn functions_step(prototype: Option<ObjId>, at: ObjId) -> Step
    ensures { result ≡ functions_step prototype at }
{
    match prototype {
        Some(_) => Step::Functions(at),
        None => Step::Nothing,
    }
}

/// Only the function that throws a TypeError is not extensible (13.2.3).
fn closing_step(builtin: Builtin, at: ObjId) -> Step
    ensures { result ≡ closing_step builtin at }
{
    match builtin {
        Builtin::Function(FunctionBuiltin::Thrower) => Step::Close(at),
        _ => Step::Nothing,
    }
}
