//! Values put to properties (8.7.2, 8.12.5).
ghost use Rattle.std.specs.Prelude.{◌≡◌, ◌∷◌, [], true, false};
ghost use Rattle.std.specs.Option.{option_map};
ghost use Rattle.jl_value.specs.declared.value.Value.TheVariants as value;
ghost use Rattle.jl_heap.specs.Objects.{object_at};
ghost use Rattle.jl_meaning.specs.Defining.{plain_change, value_change};
ghost use Rattle.jl_meaning.specs.Parts.{call, give, ◌>>=◌ as ◌then◌};
ghost use Rattle.jl_meaning.specs.Properties.{can_put, get_property, property_of_value};
ghost use Rattle.jl_meaning.specs.Putting.{put, put_if, put_on_primitive};
ghost use Rattle.jl_state.specs.AlgorithmFrames.{after_define};
ghost use Rattle.jl_store.specs.LookUps.{property_seen};
ghost use Rattle.jl_algorithm.specs.inner.PutPlans.{found_setter, put_by, plan_put};
ghost use Rattle.jl_state.specs.Clauses.{Computes, RankAtMost};

use crate::defining::{after_define, define_own_property};
use jl_heap::Change;
use jl_state::{Act, AfterDefine, AlgorithmFrame, Invocation, State};
use jl_store::{Property, can_put};
use jl_text::{List, NoMemory, Text};
use jl_value::{ObjId, Value};

/// How a put is done on an object (8.12.5).
#[derive(Clone, Copy)]
enum PutPlan {
    /// Not at all (step 1).
    Refused,
    /// An own data property gets the value (step 3).
    Changed,
    /// A setter is called (step 5).
    Called(ObjId),
    /// An own property is made (step 6).
    Added,
}

/// [[Put]] (8.12.5), and that of a base that is no object (8.7.2), and then a value is given. Where it isn't done, it
/// throws a TypeError if it is asked to.
pub fn put<'p>(
    state: &mut State<'p>,
    throwing: bool,
    base: Value,
    name: &Text,
    v: Value,
    gives: Value,
) -> Result<Act<'p>, NoMemory>
    ensures refines { Computes state.old (put throwing base name.now v then λ _. give gives) result state.new }
    ensures bounded { RankAtMost state.old 42 result state.new }
{
    match base {
        Value::Obj(id, ..) => put_on_object(state, id, name, v, throwing, gives),
        _ => { put_on_primitive(state, base, name, v, throwing, gives) }
    }
}

/// A put on an object: at once where it comes to another value of an own data property alone.
fn put_on_object<'p>(
    state: &mut State<'p>,
    id: ObjId,
    name: &Text,
    v: Value,
    throwing: bool,
    gives: Value,
) -> Result<Act<'p>, NoMemory>
    ensures refines { Computes state.old (put_if (can_put (object_at state.old.store.heap id.0).extensible
        (get_property state.old.store id.0 name.now)) id name.now v (get_property state.old.store id.0 name.now)
        then after_define (AfterDefine.Put throwing gives)) result state.new }
    ensures bounded { RankAtMost state.old 42 result state.new }
{
    match state.store.set_value(id, name, v) {
        Ok(()) => after_define(state, AfterDefine::Put { throwing, gives }, true),
        Err(v) => put_by_look_up(state, id, name, v, throwing, gives),
    }
}

/// The same by the property that is found.
fn put_by_look_up<'p>(
    state: &mut State<'p>,
    id: ObjId,
    name: &Text,
    v: Value,
    throwing: bool,
    gives: Value,
) -> Result<Act<'p>, NoMemory>
    ensures refines { Computes state.old (put_if (can_put (object_at state.old.store.heap id.0).extensible
        (get_property state.old.store id.0 name.now)) id name.now v (get_property state.old.store id.0 name.now)
        then after_define (AfterDefine.Put throwing gives)) result state.new }
    ensures bounded { RankAtMost state.old 42 result state.new }
{
    let property = state.store.get_property(id, name);
    let way = plan_put(can_put(state.store.is_extensible(id), &property), &property);
    put_by(state, way, id, name, v, throwing, gives)
}

/// A put that is done so.
#[tactic(auto, using(crate::proofs::Puts::calls_setter))]
fn put_by<'p>(
    state: &mut State<'p>,
    way: PutPlan,
    id: ObjId,
    name: &Text,
    v: Value,
    throwing: bool,
    gives: Value,
) -> Result<Act<'p>, NoMemory>
    ensures refines { Computes state.old (put_by id name.now v way then after_define (AfterDefine.Put throwing gives))
        result state.new }
    ensures bounded { RankAtMost state.old 42 result state.new }
{
    match way {
        PutPlan::Refused => { after_define(state, AfterDefine::Put { throwing, gives }, false) }
        PutPlan::Changed => {
            let purpose = AfterDefine::Put { throwing, gives };
            define_own_property(state, id, name, value_change(v), purpose)
        }
        PutPlan::Called(setter) => call_setter(state, setter, Value::Obj(id), v, gives),
        PutPlan::Added => {
            let purpose = AfterDefine::Put { throwing, gives };
            define_own_property(state, id, name, plain_change(v), purpose)
        }
    }
}

/// A put on a base that is no object: only a setter takes it (8.7.2).
#[tactic(auto, using(crate::proofs::Puts::refuses))]
fn put_on_primitive<'p>(
    state: &mut State<'p>,
    base: Value,
    name: &Text,
    v: Value,
    throwing: bool,
    gives: Value,
) -> Result<Act<'p>, NoMemory>
    ensures refines { Computes state.old (put_on_primitive base v (property_of_value state.old.store base name.now)
        then after_define (AfterDefine.Put throwing gives)) result state.new }
    ensures bounded { RankAtMost state.old 42 result state.new }
{
    match found_setter(&state.store.property_of_value(&base, name)) {
        Some(setter) => call_setter(state, setter, base, v, gives),
        None => after_define(state, AfterDefine::Put { throwing, gives }, false),
    }
}

/// A setter is called, and then a value is given.
fn call_setter<'p>(
    state: &mut State<'p>,
    setter: ObjId,
    this: Value,
    v: Value,
    gives: Value,
) -> Result<Act<'p>, NoMemory>
    ensures refines { Computes state.old (call setter this (v ∷ []) then λ _. give gives) result state.new }
    ensures bounded { RankAtMost state.old 5 result state.new }
{
    let alloc = state.alloc();
    let mut args = List::new(alloc);
    args.push(v)?;
    state.push_algorithm(AlgorithmFrame::Then(gives))?;
    Act::call(
        alloc,
        Invocation {
            callee: setter,
            this,
            args,
            by_new: false,
        },
    )
}

/// How a put is done where this property was found, or none, by whether it can be done at all.
#[tactic(auto, using(crate::proofs::PutPlans::ways))]
fn plan_put(can_put: bool, property: &Option<Property<'_>>) -> PutPlan
    ensures { result ≡ plan_put can_put (option_map property_seen property.now) }
{
    if !can_put {
        return PutPlan::Refused;
    }
    let Some(property) = property else {
        return PutPlan::Added;
    };
    if let Some(setter) = property.found.setter() {
        return PutPlan::Called(setter);
    }
    if property.own && property.found.is_data() {
        PutPlan::Changed
    } else {
        PutPlan::Added
    }
}

/// The setter of a property that was found, if it has one.
fn found_setter(property: &Option<Property<'_>>) -> Option<ObjId>
    ensures { result ≡ found_setter (option_map property_seen property.now) }
{
    match property {
        Some(property) => property.found.setter(),
        None => None,
    }
}

/// Another value is asked for.
pub fn value_change(value: Value) -> Change
    ensures { result ≡ value_change value }
{
    Change {
        value: Some(value),
        writable: None,
        get: None,
        set: None,
        enumerable: None,
        configurable: None,
    }
}

/// A property is asked for that can be written, enumerated and configured (8.12.5, step 6).
pub fn plain_change(value: Value) -> Change
    ensures { result ≡ plain_change value }
{
    Change {
        value: Some(value),
        writable: Some(true),
        get: None,
        set: None,
        enumerable: Some(true),
        configurable: Some(true),
    }
}
