//! `Object` itself, prototypes, and what the prototype of objects has for every object (15.2.1 to 15.2.4).
ghost use Rattle.std.specs.Prelude.{◌≡◌, ◌++◌, codes, false, IfOk};
ghost use Rattle.jl_heap.specs.Objects.{object_at};
ghost use Rattle.jl_meaning.specs.builtins.Object.{class_text, is_prototype_of_value, object_call, object_for};
ghost use Rattle.jl_meaning.specs.builtins.Object.{object_get_prototype_of, object_is_prototype_of, object_to_string};
ghost use Rattle.jl_meaning.specs.builtins.Object.{object_value_of, prototype_value};
ghost use Rattle.jl_state.specs.Clauses.{Computes, RankAtMost};
ghost use Rattle.jl_state.specs.Words.{call_of};
ghost use Rattle.jl_store.specs.Answers.{ends_with};
ghost use Rattle.jl_store.specs.BigStep.{BigStep};
ghost use Rattle.jl_value.specs.Tests.{is_nothing};
ghost use Rattle.jl_value.specs.Texts.{class_name};

use crate::waiting::{argument_of, first_object};
use jl_state::{Act, Invocation, State};
use jl_store::{Answer, Store};
use jl_text::{NoMemory, word};
use jl_value::{Class, Completion, ObjId, Value, is_nothing};

/// A new object, or the object that a value converts to.
fn object_for(store: &mut Store, v: &Value) -> Result<Answer<ObjId>, NoMemory>
    ensures { IfOk result (λ answer. BigStep (object_for v.now) store.old store.new (ends_with answer)) }
{
    if is_nothing(v) {
        let id = store.new_plain_object()?;
        return Ok(Answer::Gives(id));
    }
    let answer = store.to_object(v)?;
    Ok(answer)
}

/// `Object(value)` and `new Object(value)` (15.2.1.1, 15.2.2.1).
pub(crate) fn object_call<'p>(state: &mut State<'p>, call: &Invocation) -> Result<Act<'p>, NoMemory>
    ensures refines { Computes state.old (object_call (call_of call.now)) result state.new }
    ensures bounded { RankAtMost state.old 3 result state.new }
{
    let alloc = state.alloc();
    let v = argument_of(alloc, call, 0)?;
    match object_for(&mut state.store, &v)? {
        Answer::Throws(thrown) => Ok(Act::Complete(Completion::Throw(thrown))),
        Answer::Gives(id) => Ok(Act::Give(Value::Obj(id))),
    }
}

/// The prototype of an object, which is null where it has none.
fn prototype_value(store: &Store, id: ObjId) -> Value
    ensures { result ≡ prototype_value (object_at store.now.heap id.0).proto }
{
    match store.proto_of(id) {
        Some(proto) => Value::Obj(proto),
        None => Value::Null,
    }
}

/// `Object.getPrototypeOf(O)` (15.2.3.2).
pub(crate) fn object_get_prototype_of<'p>(
    state: &mut State<'p>,
    call: &Invocation,
) -> Result<Act<'p>, NoMemory>
    ensures refines { Computes state.old (object_get_prototype_of (call_of call.now)) result state.new }
    ensures bounded { RankAtMost state.old 3 result state.new }
{
    let alloc = state.alloc();
    match first_object(alloc, &mut state.store, call)? {
        Answer::Throws(thrown) => Ok(Act::Complete(Completion::Throw(thrown))),
        Answer::Gives(id) => Ok(Act::Give(prototype_value(&state.store, id))),
    }
}

/// The text of an object of a class (15.2.4.2, step 5).
fn class_text(class: Class) -> &'static str
    ensures { result.now ≡ codes "[object " ++ class_name class ++ codes "]" }
{
    match class {
        Class::Primitive => "[object Primitive]",
        Class::Object => "[object Object]",
        Class::Function => "[object Function]",
        Class::Array => "[object Array]",
        Class::String => "[object String]",
        Class::Number => "[object Number]",
        Class::Boolean => "[object Boolean]",
        Class::Error => "[object Error]",
        Class::Arguments => "[object Arguments]",
        Class::Math => "[object Math]",
    }
}

/// The text of what is an object, or converts to one.
fn object_text<'p>(state: &mut State<'p>, v: &Value) -> Result<Act<'p>, NoMemory>
    requires { is_nothing v.now ≡ false }
    ensures refines { Computes state.old (class_text v.now) result state.new }
    ensures bounded { RankAtMost state.old 3 result state.new }
{
    let alloc = state.alloc();
    match state.store.to_object(v)? {
        Answer::Throws(thrown) => Ok(Act::Complete(Completion::Throw(thrown))),
        Answer::Gives(id) => {
            let text = word(alloc, class_text(state.store.class_of(id)))?;
            Ok(Act::Give(Value::Text(text)))
        }
    }
}

/// `Object.prototype.toString()` (15.2.4.2).
pub(crate) fn object_to_string<'p>(
    state: &mut State<'p>,
    call: &Invocation,
) -> Result<Act<'p>, NoMemory>
    ensures refines { Computes state.old (object_to_string (call_of call.now)) result state.new }
    ensures bounded { RankAtMost state.old 3 result state.new }
{
    let alloc = state.alloc();
    match &call.this {
        Value::Undefined => Ok(Act::Give(Value::Text(word(alloc, "[object Undefined]")?))),
        Value::Null => Ok(Act::Give(Value::Text(word(alloc, "[object Null]")?))),
        _ => object_text(state, &call.this),
    }
}

/// `Object.prototype.valueOf()` (15.2.4.4).
pub(crate) fn object_value_of<'p>(
    state: &mut State<'p>,
    call: &Invocation,
) -> Result<Act<'p>, NoMemory>
    ensures refines { Computes state.old (object_value_of (call_of call.now)) result state.new }
    ensures bounded { RankAtMost state.old 3 result state.new }
{
    match state.store.to_object(&call.this)? {
        Answer::Throws(thrown) => Ok(Act::Complete(Completion::Throw(thrown))),
        Answer::Gives(id) => Ok(Act::Give(Value::Obj(id))),
    }
}

/// Whether `this` is among the prototypes of an object (15.2.4.6, steps 2 and 3).
fn is_prototype_of_object<'p>(
    state: &mut State<'p>,
    call: &Invocation,
    id: ObjId,
) -> Result<Act<'p>, NoMemory>
    ensures refines { Computes state.old (is_prototype_of_value (call_of call.now) (Value.Obj id)) result state.new }
    ensures bounded { RankAtMost state.old 3 result state.new }
{
    match state.store.to_object(&call.this)? {
        Answer::Throws(thrown) => Ok(Act::Complete(Completion::Throw(thrown))),
        Answer::Gives(proto) => {
            let is_prototype = state.store.is_prototype_of(proto, id);
            Ok(Act::Give(Value::Bool(is_prototype)))
        }
    }
}

/// `Object.prototype.isPrototypeOf(V)` (15.2.4.6).
pub(crate) fn object_is_prototype_of<'p>(
    state: &mut State<'p>,
    call: &Invocation,
) -> Result<Act<'p>, NoMemory>
    ensures refines { Computes state.old (object_is_prototype_of (call_of call.now)) result state.new }
    ensures bounded { RankAtMost state.old 3 result state.new }
{
    let alloc = state.alloc();
    let v = argument_of(alloc, call, 0)?;
    match &v {
        Value::Obj(id) => is_prototype_of_object(state, call, *id),
        _ => Ok(Act::Give(Value::Bool(false))),
    }
}
