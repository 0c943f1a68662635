//! `instanceof` and `in` (11.8.6, 11.8.7).
ghost use Rattle.std.specs.Prelude.{◌≡◌, ◌≤◌};
ghost use Rattle.jl_meaning.specs.Relations.{has_instance, has_prototype, in_object, instance_of};
ghost use Rattle.jl_state.specs.Clauses.{Computes, RankAtMost, ResumesAlgorithm};

use crate::sums::text_of;
use jl_algorithm::{get, throw_native, to_primitive};
use jl_state::{Act, AlgorithmFrame, Hint, State};
use jl_text::{NoMemory, word};
use jl_value::{ErrorKind, ObjId, Value, is_object};

/// [[HasInstance]] of a function, if it is one (15.3.5.3).
fn has_instance<'p>(state: &mut State<'p>, f: Option<ObjId>, v: Value) -> Result<Act<'p>, NoMemory>
    ensures refines { Computes state.old (has_instance f v) result state.new }
    ensures bounded { RankAtMost state.old 10 result state.new }
{
    let alloc = state.alloc();
    let Some(f) = f else {
        return throw_native(state, ErrorKind::TypeError, "not a function");
    };
    if !is_object(&v) {
        return Ok(Act::Give(Value::Bool(false)));
    }
    let name = word(alloc, "prototype")?;
    state.push_algorithm(AlgorithmFrame::InstanceOf { value: v })?;
    get(state, &Value::Obj(f), &name)
}

/// Whether an object is an instance of a function with this prototype (15.3.5.3, steps 3 and 4).
fn is_instance<'p>(state: &mut State<'p>, object: ObjId, proto: &Value) -> Result<Act<'p>, NoMemory>
    ensures refines { Computes state.old (has_prototype state.old.store.heap (Value.Obj object) proto.now) result
        state.new }
    ensures bounded { RankAtMost state.old 5 result state.new }
{
    match proto {
        Value::Obj(proto) => {
            let is_prototype = state.store.is_prototype_of(*proto, object);
            Ok(Act::Give(Value::Bool(is_prototype)))
        }
        _ => throw_native(state, ErrorKind::TypeError, "not an object"),
    }
}

/// Whether a value is an instance of a function with this prototype (15.3.5.3, steps 3 and 4).
fn has_prototype<'p>(
    state: &mut State<'p>,
    value: &Value,
    proto: &Value,
) -> Result<Act<'p>, NoMemory>
    ensures refines { ResumesAlgorithm state.old (AlgorithmFrame.InstanceOf value.now) proto.now result state.new }
    ensures bounded { RankAtMost state.old 5 result state.new }
{
    match value {
        Value::Obj(object) => is_instance(state, *object, proto),
        _ => throw_native(state, ErrorKind::TypeError, "not an object"),
    }
}

/// Goes on with the prototype of the instances of a function.
pub fn step_instance_of<'p>(
    state: &mut State<'p>,
    value: Value,
    v: Value,
) -> Result<Act<'p>, NoMemory>
    ensures refines { ResumesAlgorithm state.old (AlgorithmFrame.InstanceOf value) v result state.new }
    ensures bounded { RankAtMost state.old 5 result state.new }
{
    has_prototype(state, &value, &v)
}

/// `a instanceof b` (11.8.6).
pub(crate) fn instance_of<'p>(
    state: &mut State<'p>,
    a: Value,
    b: &Value,
) -> Result<Act<'p>, NoMemory>
    ensures refines { Computes state.old (instance_of a b.now) result state.new }
    ensures bounded { RankAtMost state.old 40 result state.new }
{
    match b {
        Value::Obj(f) => {
            let target = state.store.target_of(*f);
            has_instance(state, target, a)
        }
        _ => throw_native(state, ErrorKind::TypeError, "not a function"),
    }
}

/// Goes on with the name that is looked for on an object, which is converted first (11.8.7).
pub fn step_in<'p>(state: &mut State<'p>, object: ObjId, v: Value) -> Result<Act<'p>, NoMemory>
    ensures refines { ResumesAlgorithm state.old (AlgorithmFrame.In object) v result state.new }
    ensures bounded { RankAtMost state.old 5 result state.new }
{
    let alloc = state.alloc();
    let name = text_of(alloc, &v)?;
    Ok(Act::Give(Value::Bool(state.store.has_property(object, &name))))
}

/// A name is converted, and looked for on an object.
fn convert_name<'p>(state: &mut State<'p>, name: Value, object: ObjId) -> Result<Act<'p>, NoMemory>
    ensures refines { Computes state.old (in_object name (Value.Obj object)) result state.new }
    ensures bounded { RankAtMost state.old 40 result state.new }
{
    state.push_algorithm(AlgorithmFrame::In { object })?;
    to_primitive(state, name, Hint::Text)
}

/// `a in b` (11.8.7).
pub(crate) fn in_object<'p>(state: &mut State<'p>, a: Value, b: &Value) -> Result<Act<'p>, NoMemory>
    ensures refines { Computes state.old (in_object a b.now) result state.new }
    ensures bounded { RankAtMost state.old 40 result state.new }
{
    match b {
        Value::Obj(object) => convert_name(state, a, *object),
        _ => throw_native(state, ErrorKind::TypeError, "not an object"),
    }
}
