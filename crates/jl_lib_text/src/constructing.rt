//! `String`, and the strings that `String` objects stand for (15.5.1, 15.5.2, 15.5.4.2, 15.5.4.3).
ghost use Rattle.std.specs.Prelude.{◌≡◌, IfOk};
ghost use Rattle.jl_conv.specs.Conversions.{text_of_value};
ghost use Rattle.jl_meaning.specs.builtins.String.{string_constructor, string_inside, string_of_receiver};
ghost use Rattle.jl_meaning.specs.builtins.String.{string_or_object, string_value};
ghost use Rattle.jl_state.specs.Clauses.{Computes, RankAtMost};
ghost use Rattle.jl_state.specs.Words.{call_of};

use jl_algorithm::throw_native;
use jl_builtin::{value_from, wait_for_string};
use jl_heap::Inner;
use jl_operator::text_of;
use jl_progress::{Progress, StringProgress};
use jl_state::{Act, Invocation, State};
use jl_store::Store;
use jl_text::{NoMemory, Text, word};
use jl_value::{Class, ErrorKind, Value};
use std::alloc::Global;

/// A string, or with `new` an object that stands for it.
fn string_or_object<'p>(
    state: &mut State<'p>,
    by_new: bool,
    units: Text,
) -> Result<Act<'p>, NoMemory>
    ensures refines { Computes state.old (string_or_object by_new units) result state.new }
    ensures bounded { RankAtMost state.old 3 result state.new }
{
    if !by_new {
        return Ok(Act::Give(Value::Text(units)));
    }
    let id = state.store.new_string_object(units)?;
    Ok(Act::Give(Value::Obj(id)))
}

/// `String(value)` and `new String(value)` (15.5.1.1, 15.5.2.1).
pub(crate) fn string_constructor<'p>(
    state: &mut State<'p>,
    call: &Invocation,
) -> Result<Act<'p>, NoMemory>
    ensures refines { Computes state.old (string_constructor (call_of call.now)) result state.new }
    ensures bounded { RankAtMost state.old 22 result state.new }
{
    let alloc = state.alloc();
    let by_new = call.by_new;
    match value_from(alloc, call.args.items(), 0)? {
        None => {
            let empty = word(alloc, "")?;
            string_or_object(state, by_new, empty)
        }
        Some((v, _)) => {
            let progress = Progress::String(StringProgress::Given { by_new });
            wait_for_string(state, progress, v)
        }
    }
}

/// Goes on with the argument of `String`.
pub(crate) fn resume_given<'p>(
    state: &mut State<'p>,
    by_new: bool,
    p: &Value,
) -> Result<Act<'p>, NoMemory>
    ensures refines { Computes state.old (string_or_object by_new (text_of_value p.now)) result state.new }
    ensures bounded { RankAtMost state.old 3 result state.new }
{
    let alloc = state.alloc();
    let units = text_of(alloc, p)?;
    string_or_object(state, by_new, units)
}

/// The string that an object stands for, if it is a `String` object.
fn string_inside(alloc: Global, class: Class, inner: &Inner) -> Result<Option<Text>, NoMemory>
    ensures { IfOk result (λ found. found ≡ string_inside class inner.now) }
{
    match (class, inner) {
        (Class::String, Inner::Wrapped(Value::Text(units))) => Ok(Some(units.share(alloc)?)),
        _ => Ok(None),
    }
}

/// The string that `this` stands for, if it is one.
fn string_of_receiver(alloc: Global, store: &Store, this: &Value) -> Result<Option<Text>, NoMemory>
    ensures { IfOk result (λ found. found ≡ string_of_receiver store.now.heap this.now) }
{
    match this {
        Value::Text(units) => Ok(Some(units.share(alloc)?)),
        Value::Obj(id) => string_inside(alloc, store.class_of(*id), store.inner_of(*id)),
        _ => Ok(None),
    }
}

/// `String.prototype.toString()` and `valueOf()` (15.5.4.2, 15.5.4.3).
pub(crate) fn string_value<'p>(
    state: &mut State<'p>,
    call: &Invocation,
) -> Result<Act<'p>, NoMemory>
    ensures refines { Computes state.old (string_value (call_of call.now)) result state.new }
    ensures bounded { RankAtMost state.old 3 result state.new }
{
    let alloc = state.alloc();
    match string_of_receiver(alloc, &state.store, &call.this)? {
        Some(units) => Ok(Act::Give(Value::Text(units))),
        None => throw_native(state, ErrorKind::TypeError, "wrong receiver"),
    }
}
