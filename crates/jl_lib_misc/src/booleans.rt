//! `Boolean`, and the functions of its prototype (15.6).
ghost use Rattle.std.specs.Prelude.{◌≡◌};
ghost use Rattle.jl_meaning.specs.builtins.Boolean.{boolean_constructor, boolean_inside, boolean_of_receiver};
ghost use Rattle.jl_meaning.specs.builtins.Boolean.{boolean_to_string, boolean_value_of};
ghost use Rattle.jl_state.specs.Clauses.{Computes, RankAtMost};
ghost use Rattle.jl_state.specs.Words.{call_of};

use crate::numbers::value_or_object;
use jl_algorithm::throw_native;
use jl_builtin::argument;
use jl_conv::to_boolean;
use jl_heap::Inner;
use jl_operator::text_of;
use jl_state::{Act, Invocation, State};
use jl_store::Store;
use jl_text::NoMemory;
use jl_value::{Class, ErrorKind, ObjId, Value};

/// `Boolean(value)` and `new Boolean(value)` (15.6.1.1, 15.6.2.1).
pub(crate) fn boolean_constructor<'p>(
    state: &mut State<'p>,
    call: &Invocation,
) -> Result<Act<'p>, NoMemory>
    ensures refines { Computes state.old (boolean_constructor (call_of call.now)) result state.new }
    ensures bounded { RankAtMost state.old 3 result state.new }
{
    let alloc = state.alloc();
    let first = argument(alloc, call.args.items(), 0)?;
    let truth = Value::Bool(to_boolean(&first));
    value_or_object(
        state,
        call.by_new,
        Class::Boolean,
        ObjId::BOOLEAN_PROTOTYPE,
        truth,
    )
}

/// The truth value that an object stands for, if it is a `Boolean` object.
fn boolean_inside(class: Class, inner: &Inner) -> Option<bool>
    ensures { result ≡ boolean_inside class inner.now }
{
    match (class, inner) {
        (Class::Boolean, Inner::Wrapped(Value::Bool(truth))) => Some(*truth),
        _ => None,
    }
}

/// The truth value that `this` stands for, if it is one.
fn boolean_of_receiver(store: &Store, this: &Value) -> Option<bool>
    ensures { result ≡ boolean_of_receiver store.now.heap this.now }
{
    match this {
        Value::Bool(truth) => Some(*truth),
        Value::Obj(id) => boolean_inside(store.class_of(*id), store.inner_of(*id)),
        _ => None,
    }
}

/// `Boolean.prototype.toString()` (15.6.4.2).
pub(crate) fn boolean_to_string<'p>(
    state: &mut State<'p>,
    call: &Invocation,
) -> Result<Act<'p>, NoMemory>
    ensures refines { Computes state.old (boolean_to_string (call_of call.now)) result state.new }
    ensures bounded { RankAtMost state.old 3 result state.new }
{
    let alloc = state.alloc();
    match boolean_of_receiver(&state.store, &call.this) {
        Some(truth) => Ok(Act::Give(Value::Text(text_of(alloc, &Value::Bool(truth))?))),
        None => throw_native(state, ErrorKind::TypeError, "wrong receiver"),
    }
}

/// `Boolean.prototype.valueOf()` (15.6.4.3).
pub(crate) fn boolean_value_of<'p>(
    state: &mut State<'p>,
    call: &Invocation,
) -> Result<Act<'p>, NoMemory>
    ensures refines { Computes state.old (boolean_value_of (call_of call.now)) result state.new }
    ensures bounded { RankAtMost state.old 3 result state.new }
{
    match boolean_of_receiver(&state.store, &call.this) {
        Some(truth) => Ok(Act::Give(Value::Bool(truth))),
        None => throw_native(state, ErrorKind::TypeError, "wrong receiver"),
    }
}
