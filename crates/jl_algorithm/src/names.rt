//! Values of names (8.7.1, 8.7.2, 11.1.2, 11.4.3).
ghost use Rattle.std.specs.Prelude.{◌≡◌, IfOk};
ghost use Rattle.jl_value.specs.declared.value.Value.TheVariants as value;
ghost use Rattle.jl_meaning.specs.Parts.{give, ◌>>=◌ as ◌then◌};
ghost use Rattle.jl_meaning.specs.References.{delete_name, get_name, get_value, in_environment};
ghost use Rattle.jl_meaning.specs.References.{put_name, put_value, type_of_name, type_of_reference};
ghost use Rattle.jl_state.specs.AlgorithmFrames.{algorithm_after};
ghost use Rattle.jl_state.specs.Clauses.{Computes, RankAtMost, ResumesAlgorithm};
ghost use Rattle.jl_store.specs.Answers.{ends_with};
ghost use Rattle.jl_store.specs.BigStep.{BigStep};
ghost use Rattle.jl_store.specs.LookUps.{reference_seen};

use crate::deleting::delete;
use crate::errors::throw_not_defined;
use crate::getting::get;
use crate::putting::put;
use jl_conv::type_name;
use jl_state::{Act, AlgorithmFrame, State};
use jl_store::{Answer, Reference};
use jl_text::{NoMemory, Text, word};
use jl_value::{Completion, ObjId, Value};

/// GetValue of what a name refers to (8.7.1, 10.2.1.2.4). It throws a ReferenceError where that is nothing.
#[tactic(auto, unfolding(jl_meaning::specs::References::get_value), using(jl_state::proofs::Steps::looks))]
pub fn get_value<'p>(
    state: &mut State<'p>,
    name: &Text,
    reference: Reference,
) -> Result<Act<'p>, NoMemory>
    ensures refines { Computes state.old (get_value name.now (reference_seen reference)) result state.new }
    ensures bounded { RankAtMost state.old 4 result state.new }
{
    match reference {
        Reference::InEnvironment(env) => { Ok(Act::Give(state.store.binding_value(env, name)?)) }
        Reference::OnGlobalObject => get(state, &Value::Obj(ObjId::GLOBAL), name),
        Reference::Unresolvable => throw_not_defined(state, name),
    }
}

/// The value of a name that has been resolved from an environment on (8.7.1, 11.1.2). It throws a ReferenceError where
/// nothing binds it.
#[tactic(auto, using(crate::proofs::Resolved::gets_name))]
pub fn get_name<'p>(state: &mut State<'p>, env: usize, name: &Text) -> Result<Act<'p>, NoMemory>
    ensures refines { Computes state.old (get_name env name.now) result state.new }
    ensures bounded { RankAtMost state.old 4 result state.new }
{
    let reference = state.store.identifier_reference(env, name);
    get_value(state, name, reference)
}

/// PutValue to what a name refers to (8.7.2), and then a value is given. In strict code it throws a ReferenceError
/// where that is nothing, and a TypeError where it can't be changed.
#[tactic(auto, unfolding(jl_meaning::specs::References::put_value), using(crate::proofs::Throwing::works_not_defined))]
pub fn put_value<'p>(
    state: &mut State<'p>,
    strict: bool,
    name: &Text,
    v: Value,
    reference: Reference,
    gives: Value,
) -> Result<Act<'p>, NoMemory>
    ensures refines { Computes state.old (put_value strict name.now v (reference_seen reference) then λ _. give gives)
        result state.new }
    ensures bounded { RankAtMost state.old 44 result state.new }
{
    let global = Value::Obj(ObjId::GLOBAL);
    match reference {
        Reference::InEnvironment(env) => put_binding(state, strict, env, name, v, gives),
        Reference::OnGlobalObject => put(state, strict, global, name, v, gives),
        Reference::Unresolvable => {
            if strict {
                return throw_not_defined(state, name);
            }
            put(state, false, global, name, v, gives)
        }
    }
}

/// A value is put to a name that has been resolved from an environment on (8.7.2), and then one is given.
pub fn put_name<'p>(
    state: &mut State<'p>,
    strict: bool,
    env: usize,
    name: &Text,
    v: Value,
    gives: Value,
) -> Result<Act<'p>, NoMemory>
    ensures refines { Computes state.old (put_name strict env name.now v then λ _. give gives) result state.new }
    ensures bounded { RankAtMost state.old 44 result state.new }
{
    let reference = state.store.identifier_reference(env, name);
    put_value(state, strict, name, v, reference, gives)
}

/// A value is put to the binding of a name in an environment (10.2.1.1.3), and then one is given.
fn put_binding<'p>(
    state: &mut State<'p>,
    strict: bool,
    env: usize,
    name: &Text,
    v: Value,
    gives: Value,
) -> Result<Act<'p>, NoMemory>
    ensures refines { Computes state.old (put_value strict name.now v (in_environment env) then λ _. give gives)
        result state.new }
    ensures bounded { RankAtMost state.old 3 result state.new }
{
    match state.store.set_mutable_binding(strict, env, name, v)? {
        Answer::Gives(()) => Ok(Act::Give(gives)),
        Answer::Throws(thrown) => Ok(Act::Complete(Completion::Throw(thrown))),
    }
}

/// What `typeof` gives of a name, as a value (11.4.3); of one that nothing binds that is `undefined`.
pub fn type_of_name<'p>(state: &mut State<'p>, env: usize, name: &Text) -> Result<Act<'p>, NoMemory>
    ensures refines { Computes state.old (type_of_name env name.now then λ type. give (value.Text type)) result
        state.new }
    ensures bounded { RankAtMost state.old 10 result state.new }
{
    let reference = state.store.identifier_reference(env, name);
    type_of_reference(state, name, reference)
}

/// The same of what the name refers to.
fn type_of_reference<'p>(
    state: &mut State<'p>,
    name: &Text,
    reference: Reference,
) -> Result<Act<'p>, NoMemory>
    ensures refines { Computes state.old (type_of_reference name.now (reference_seen reference) then λ type. give
        (value.Text type)) result state.new }
    ensures bounded { RankAtMost state.old 10 result state.new }
{
    let alloc = state.alloc();
    match reference {
        Reference::Unresolvable => Ok(Act::Give(Value::Text(word(alloc, "undefined")?))),
        Reference::InEnvironment(_) | Reference::OnGlobalObject => {
            type_of_value(state, name, reference)
        }
    }
}

/// The same of a name that is bound: its value is got first.
fn type_of_value<'p>(
    state: &mut State<'p>,
    name: &Text,
    reference: Reference,
) -> Result<Act<'p>, NoMemory>
    ensures refines { Computes state.old (get_value name.now (reference_seen reference) then algorithm_after
        AlgorithmFrame.TypeOf) result state.new }
    ensures bounded { RankAtMost state.old 10 result state.new }
{
    state.push_algorithm(AlgorithmFrame::TypeOf)?;
    get_value(state, name, reference)
}

/// Goes on with the value of a name whose type is asked for (11.4.3).
#[tactic(auto, using(jl_state::proofs::Steps::looks))]
pub fn step_type_of<'p>(state: &mut State<'p>, v: Value) -> Result<Act<'p>, NoMemory>
    ensures refines { ResumesAlgorithm state.old AlgorithmFrame.TypeOf v result state.new }
    ensures bounded { RankAtMost state.old 5 result state.new }
{
    let alloc = state.alloc();
    let name = type_name(&v, state.store.is_callable(&v));
    Ok(Act::Give(Value::Text(word(alloc, name)?)))
}

/// `delete` of a name that has been resolved from an environment on: whether it is bound no more (11.4.1, step 5).
#[tactic(auto, using(crate::proofs::Resolved::deletes_name))]
pub fn delete_name<'p>(
    state: &mut State<'p>,
    strict: bool,
    env: usize,
    name: &Text,
) -> Result<Answer<bool>, NoMemory>
    ensures stored { state.new ≡ record state.old { store = state.new.store } }
    ensures comes { IfOk result (λ answer. BigStep (delete_name strict env name.now) state.old.store state.new.store
        (ends_with answer)) }
{
    match state.store.identifier_reference(env, name) {
        Reference::InEnvironment(_) => Ok(Answer::Gives(false)),
        Reference::OnGlobalObject => { delete(state, strict, &Value::Obj(ObjId::GLOBAL), name) }
        Reference::Unresolvable => Ok(Answer::Gives(true)),
    }
}
