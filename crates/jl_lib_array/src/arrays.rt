//! Array and Array.isArray (15.4.1 to 15.4.3).
ghost use Rattle.std.specs.Prelude.{◌≡◌, pos, IfOk, Some};
ghost use Rattle.jl_lib_array.specs.inner.Arrays.{number_in, only_number};
ghost use Rattle.jl_meaning.specs.builtins.Array.{add_all, array_by, array_is_array, array_of_one, array_of_values};
ghost use Rattle.jl_meaning.specs.builtins.Array.{is_array_value};
ghost use Rattle.jl_meaning.specs.builtins.Elements.{array_of_length};
ghost use Rattle.jl_num.specs.Bits.{uint32_of};
ghost use Rattle.jl_state.specs.Clauses.{Computes, RankAtMost};
ghost use Rattle.jl_state.specs.Words.{call_of};
ghost use Rattle.jl_store.specs.Answers.{finish_of};
ghost use Rattle.jl_store.specs.BigStep.{BigStep};
ghost use Rattle.jl_value.specs.Same.{same_number};
ghost use Rattle.jl_value.specs.declared.value.Value.TheVariants as value;

use jl_algorithm::{is_count, throw_native, value_change};
use jl_builtin::{add_index, argument, fault_of};
use jl_num::{Num, to_uint32};
use jl_state::{Act, Invocation, State};
use jl_store::{Finished, Store};
use jl_text::{NoMemory, word};
use jl_value::{Class, Completion, ErrorKind, ObjId, Value, share};
use std::alloc::Global;

/// `Array(..)` and `new Array(..)` (15.4.1, 15.4.2).
pub(crate) fn array_constructor<'p>(
    state: &mut State<'p>,
    args: &[Value],
) -> Result<Act<'p>, NoMemory>
    ensures refines { Computes state.old (array_by args.now) result state.new }
    ensures bounded { RankAtMost state.old 3 result state.new }
{
    let number = only_number(args);
    match number {
        Some(n) => array_of_number(state, n),
        None => array_of_values(state, args),
    }
}

/// The number that is the only argument, if it is one.
fn only_number(args: &[Value]) -> Option<Num>
    ensures { result ≡ only_number args.now }
{
    if args.len() == 1 {
        return number_in(&args[0]);
    }
    None
}

/// The number that a value is, if it is one.
fn number_in(v: &Value) -> Option<Num>
    ensures { result ≡ number_in v.now }
{
    match v {
        Value::Num(n) => Some(*n),
        _ => None,
    }
}

/// An array with this length, which throws a RangeError where the number is none (15.4.2.2).
fn array_of_number<'p>(state: &mut State<'p>, n: Num) -> Result<Act<'p>, NoMemory>
    ensures refines { Computes state.old (array_of_one (value.Num n)) result state.new }
    ensures bounded { RankAtMost state.old 3 result state.new }
{
    let alloc = state.alloc();
    if !is_length(n) {
        return throw_native(state, ErrorKind::RangeError, "bad array length");
    }
    let answer = array_of_length(alloc, &mut state.store, n)?;
    match answer {
        Finished::Gives(array) => Ok(Act::Give(Value::Obj(array))),
        Finished::Throws(thrown) => Ok(Act::Complete(Completion::Throw(thrown))),
        Finished::Fails(fault) => Ok(Act::Fault(fault_of(fault))),
    }
}

/// Whether a number is ToUint32 of itself (15.4.2.2).
fn is_length(n: Num) -> bool
    ensures { result ≡ same_number (Some (pos (uint32_of n))) n }
{
    is_count(n, to_uint32(n))
}

/// An array with these elements (15.4.2.1).
fn array_of_values<'p>(state: &mut State<'p>, values: &[Value]) -> Result<Act<'p>, NoMemory>
    ensures refines { Computes state.old (array_of_values values.now) result state.new }
    ensures bounded { RankAtMost state.old 3 result state.new }
{
    let alloc = state.alloc();
    let array = state.store.new_array()?;
    let answer = add_all(alloc, &mut state.store, array, values)?;
    match answer {
        Finished::Gives(()) => Ok(Act::Give(Value::Obj(array))),
        Finished::Throws(thrown) => Ok(Act::Complete(Completion::Throw(thrown))),
        Finished::Fails(fault) => Ok(Act::Fault(fault_of(fault))),
    }
}

/// Values become the elements of a new array.
fn add_all(
    alloc: Global,
    store: &mut Store,
    array: ObjId,
    values: &[Value],
) -> Result<Finished<()>, NoMemory>
    ensures { IfOk result (λ end. BigStep (add_all array 0 values.now) store.old store.new (finish_of end)) }
{
    for index in 0..values.len() {
        let v = share(alloc, &values[index])?;
        let answer = add_index(alloc, store, array, index, v)?;
        match answer {
            Finished::Gives(()) => {}
            Finished::Throws(thrown) => return Ok(Finished::Throws(thrown)),
            Finished::Fails(fault) => return Ok(Finished::Fails(fault)),
        }
    }
    Ok(Finished::Gives(()))
}

/// A new array of this length.
pub(crate) fn array_of_length(
    alloc: Global,
    store: &mut Store,
    length: Num,
) -> Result<Finished<ObjId>, NoMemory>
    ensures { IfOk result (λ end. BigStep (array_of_length (value.Num length)) store.old store.new (finish_of end)) }
{
    let array = store.new_array()?;
    let name = word(alloc, "length")?;
    let change = value_change(Value::Num(length));
    let answer = store.define_own_property(array, &name, change)?;
    match answer {
        Finished::Gives(_) => Ok(Finished::Gives(array)),
        Finished::Throws(thrown) => Ok(Finished::Throws(thrown)),
        Finished::Fails(fault) => Ok(Finished::Fails(fault)),
    }
}

/// `Array.isArray` (15.4.3.2).
pub(crate) fn array_is_array<'p>(
    state: &mut State<'p>,
    call: &Invocation,
) -> Result<Act<'p>, NoMemory>
    ensures refines { Computes state.old (array_is_array (call_of call.now)) result state.new }
    ensures bounded { RankAtMost state.old 3 result state.new }
{
    let alloc = state.alloc();
    let v = argument(alloc, call.args.items(), 0)?;
    Ok(Act::Give(Value::Bool(is_array_value(&state.store, &v))))
}

/// Whether a value is an array.
fn is_array_value(store: &Store, v: &Value) -> bool
    ensures { result ≡ is_array_value store.now.heap v.now }
{
    match v {
        Value::Obj(id) => matches!(store.class_of(*id), Class::Array),
        _ => false,
    }
}
