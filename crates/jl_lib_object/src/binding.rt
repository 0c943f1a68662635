//! `Function.prototype.bind` (15.3.4.5).
ghost use Rattle.std.specs.Option.{option_copied};
ghost use Rattle.std.specs.Prelude.{◌≡◌, false, length, IfOk};
ghost use Rattle.jl_effects.specs.Running.{Ends};
ghost use Rattle.jl_heap.specs.Define.{count_of, length_name, length_of};
ghost use Rattle.jl_heap.specs.declared.property.Prop.TheVariants.{Plain};
ghost use Rattle.jl_meaning.specs.Parts.{gives, ◌>>=◌ as ◌then◌};
ghost use Rattle.jl_meaning.specs.builtins.Arguments.{give_object};
ghost use Rattle.jl_meaning.specs.builtins.Function.{bound_length, create_bound, function_bind};
ghost use Rattle.jl_state.specs.Clauses.{Computes, RankAtMost};
ghost use Rattle.jl_state.specs.Words.{call_of};
ghost use Rattle.jl_store.specs.BigStep.{BigStep};

use crate::waiting::argument_of;
use jl_builtin::{continuation_of, need_function};
use jl_heap::{Inner, Prop};
use jl_state::{Act, Invocation, State};
use jl_store::{Answer, Store, count};
use jl_text::{List, NoMemory, Text, word};
use jl_value::{Class, Completion, ObjId, Value};
use std::alloc::Global;

/// The whole number that a value is, and 0 for any other value.
fn count_of(value: &Value) -> usize
    ensures { result ≡ count_of value.now }
{
    let Value::Num(number) = value else {
        return 0;
    };
    match number.value() {
        Some(count) if count >= 0 => count as usize,
        _ => 0,
    }
}

/// The number that a property `length` gives.
fn length_of(property: Option<&Prop>) -> usize
    ensures { result ≡ length_of (option_copied property.entry) }
{
    match property {
        Some(Prop::Plain { value, .. }) => count_of(value),
        _ => 0,
    }
}

/// The length of a function that is bound to these arguments: that of the target without them (steps 15 and 16).
#[tactic(auto, unfolding(jl_heap::specs::Define::length_name))]
fn bound_length(
    alloc: Global,
    store: &Store,
    target: ObjId,
    args: &[Value],
) -> Result<usize, NoMemory>
    ensures { IfOk result (λ n. n ≡ bound_length store.now.heap target args.now) }
{
    let name = word(alloc, "length")?;
    let length = length_of(store.heap().own(target, &name));
    Ok(length.saturating_sub(args.len()))
}

/// A property that can't be changed.
fn constant_property(value: Value) -> Prop
    ensures { result ≡ Plain value false false false }
{
    Prop::Plain {
        value,
        writable: false,
        enumerable: false,
        configurable: false,
    }
}

/// A function that calls another with this `this` and these arguments before those of the call.
fn create_bound(
    alloc: Global,
    store: &mut Store,
    target: ObjId,
    this: Value,
    args: List<Value>,
) -> Result<ObjId, NoMemory>
    ensures { IfOk result (λ id. BigStep (create_bound target this args) store.old store.new (Ends (gives id))) }
{
    let length = count(bound_length(alloc, store, target, args.items())?)?;
    let name = word(alloc, "length")?;
    let inner = Inner::Bound { target, this, args };
    let id = store.new_object(Class::Function, Some(ObjId::FUNCTION_PROTOTYPE), inner)?;
    store.add_property(id, &name, constant_property(length))?;
    store.add_poison(id)?;
    Ok(id)
}

/// Such a function is given.
fn give_bound<'p>(
    state: &mut State<'p>,
    target: ObjId,
    this: Value,
    args: List<Value>,
) -> Result<Act<'p>, NoMemory>
    ensures refines { Computes state.old (create_bound target this args then give_object) result state.new }
    ensures bounded { RankAtMost state.old 3 result state.new }
{
    let alloc = state.alloc();
    let id = create_bound(alloc, &mut state.store, target, this, args)?;
    Ok(Act::Give(Value::Obj(id)))
}

/// `Function.prototype.bind(thisArg, arg1, ..)` (15.3.4.5).
pub(crate) fn function_bind<'p>(
    state: &mut State<'p>,
    call: &Invocation,
) -> Result<Act<'p>, NoMemory>
    ensures refines { Computes state.old (function_bind (call_of call.now)) result state.new }
    ensures bounded { RankAtMost state.old 3 result state.new }
{
    let alloc = state.alloc();
    let this = argument_of(alloc, call, 0)?;
    let args = continuation_of(alloc, call.args.items(), 1)?;
    match need_function(&mut state.store, &call.this)? {
        Answer::Throws(thrown) => Ok(Act::Complete(Completion::Throw(thrown))),
        Answer::Gives(target) => give_bound(state, target, this, args),
    }
}
