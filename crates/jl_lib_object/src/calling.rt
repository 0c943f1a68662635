//! `Function.prototype.apply` and `Function.prototype.call` (15.3.4.3, 15.3.4.4).
ghost use Rattle.std.specs.Prelude.{◌≡◌, ◌-◌, ◌<◌};
ghost use Rattle.jl_effects.specs.Effects.{Step};
ghost use Rattle.jl_lib_object.specs.inner.Calls.{apply_by, apply_element, apply_list};
ghost use Rattle.jl_meaning.specs.Parts.{call, ◌>>=◌ as ◌then◌};
ghost use Rattle.jl_meaning.specs.builtins.Function.{arguments_in, function_apply, function_call};
ghost use Rattle.jl_progress.specs.Functions.{function_after};
ghost use Rattle.jl_state.specs.Clauses.{Computes, RankAtMost};
ghost use Rattle.jl_state.specs.Words.{call_of};

use crate::waiting::{argument_of, wait_function};
use jl_algorithm::{get, to_primitive};
use jl_builtin::{
    continuation_of, get_index, length_of, need_function, need_object, number_of_primitive,
};
use jl_progress::FunctionProgress;
use jl_state::{Act, Hint, Invocation, State};
use jl_store::Answer;
use jl_text::{List, NoMemory, word};
use jl_value::{Completion, Fault, ObjId, Value, is_nothing};

/// An element of a list of arguments takes a step, and is got; the index is that of the one after it.
fn get_element<'p>(
    state: &mut State<'p>,
    function: ObjId,
    this: Value,
    list: ObjId,
    args: List<Value>,
    at: usize,
    length: usize,
) -> Result<Act<'p>, NoMemory>
    requires { at < length }
    ensures refines { Computes state.old (Step (apply_element function this list args at length)) result state.new }
    ensures bounded { RankAtMost state.old 1 result state.new }
{
    if !state.spend() {
        return Ok(Act::Spent);
    }
    wait_function(
        state,
        FunctionProgress::Element {
            function,
            this,
            list,
            args,
            from: at + 1,
            length,
        },
    )?;
    get_index(state, list, at)
}

/// A function is called with the arguments so far and those of a list from an index on.
fn apply_from<'p>(
    state: &mut State<'p>,
    function: ObjId,
    this: Value,
    list: ObjId,
    args: List<Value>,
    from: usize,
    length: usize,
) -> Result<Act<'p>, NoMemory>
    ensures refines { Computes state.old (apply_by function this list (length - from) from args) result state.new }
    ensures bounded { RankAtMost state.old 3 result state.new }
{
    let alloc = state.alloc();
    if from < length {
        return get_element(state, function, this, list, args, from, length);
    }
    Act::call(
        alloc,
        Invocation {
            callee: function,
            this,
            args,
            by_new: false,
        },
    )
}

/// Goes on with an element of a list of arguments.
pub(crate) fn step_element<'p>(
    state: &mut State<'p>,
    function: ObjId,
    this: Value,
    list: ObjId,
    args: List<Value>,
    from: usize,
    length: usize,
    v: Value,
) -> Result<Act<'p>, NoMemory>
    ensures refines { Computes state.old (function_after (FunctionProgress.Element function this list args from
        length) v) result state.new }
    ensures bounded { RankAtMost state.old 3 result state.new }
{
    let mut args = args;
    args.push(v)?;
    apply_from(state, function, this, list, args, from, length)
}

/// Goes on with the length of a list of arguments, which is converted.
pub(crate) fn step_length<'p>(
    state: &mut State<'p>,
    function: ObjId,
    this: Value,
    list: ObjId,
    v: Value,
) -> Result<Act<'p>, NoMemory>
    ensures refines { Computes state.old (function_after (FunctionProgress.Length function this list) v) result
        state.new }
    ensures bounded { RankAtMost state.old 22 result state.new }
{
    wait_function(
        state,
        FunctionProgress::LengthPrimitive {
            function,
            this,
            list,
        },
    )?;
    to_primitive(state, v, Hint::Number)
}

/// Goes on with that length, which has been converted.
pub(crate) fn step_length_primitive<'p>(
    state: &mut State<'p>,
    function: ObjId,
    this: Value,
    list: ObjId,
    p: &Value,
) -> Result<Act<'p>, NoMemory>
    ensures refines { Computes state.old (function_after (FunctionProgress.LengthPrimitive function this list) p.now)
        result state.new }
    ensures bounded { RankAtMost state.old 3 result state.new }
{
    let alloc = state.alloc();
    let Some(n) = number_of_primitive(p) else {
        return Ok(Act::Fault(Fault::NumberOutside));
    };
    let length = length_of(n);
    apply_from(state, function, this, list, List::new(alloc), 0, length)
}

/// The length of a list of arguments is got.
fn get_length<'p>(
    state: &mut State<'p>,
    function: ObjId,
    this: Value,
    list: ObjId,
) -> Result<Act<'p>, NoMemory>
    ensures refines { Computes state.old (apply_list function this list) result state.new }
    ensures bounded { RankAtMost state.old 26 result state.new }
{
    let alloc = state.alloc();
    let name = word(alloc, "length")?;
    wait_function(
        state,
        FunctionProgress::Length {
            function,
            this,
            list,
        },
    )?;
    get(state, &Value::Obj(list), &name)
}

/// A function is called with the arguments that a value has (15.3.4.3, steps 2 to 9).
fn apply_values<'p>(
    state: &mut State<'p>,
    function: ObjId,
    this: Value,
    values: &Value,
) -> Result<Act<'p>, NoMemory>
    ensures refines { Computes state.old (arguments_in values.now then λ args. call function this args) result
        state.new }
    ensures bounded { RankAtMost state.old 26 result state.new }
{
    let alloc = state.alloc();
    if is_nothing(values) {
        return Act::call(
            alloc,
            Invocation {
                callee: function,
                this,
                args: List::new(alloc),
                by_new: false,
            },
        );
    }
    match need_object(&mut state.store, values)? {
        Answer::Throws(thrown) => Ok(Act::Complete(Completion::Throw(thrown))),
        Answer::Gives(list) => get_length(state, function, this, list),
    }
}

/// `Function.prototype.apply(thisArg, argArray)` (15.3.4.3).
pub(crate) fn function_apply<'p>(
    state: &mut State<'p>,
    call: &Invocation,
) -> Result<Act<'p>, NoMemory>
    ensures refines { Computes state.old (function_apply (call_of call.now)) result state.new }
    ensures bounded { RankAtMost state.old 26 result state.new }
{
    let alloc = state.alloc();
    let this = argument_of(alloc, call, 0)?;
    let values = argument_of(alloc, call, 1)?;
    match need_function(&mut state.store, &call.this)? {
        Answer::Throws(thrown) => Ok(Act::Complete(Completion::Throw(thrown))),
        Answer::Gives(function) => apply_values(state, function, this, &values),
    }
}

/// `Function.prototype.call(thisArg, arg1, ..)` (15.3.4.4).
pub(crate) fn function_call<'p>(
    state: &mut State<'p>,
    call: &Invocation,
) -> Result<Act<'p>, NoMemory>
    ensures refines { Computes state.old (function_call (call_of call.now)) result state.new }
    ensures bounded { RankAtMost state.old 3 result state.new }
{
    let alloc = state.alloc();
    let this = argument_of(alloc, call, 0)?;
    let args = continuation_of(alloc, call.args.items(), 1)?;
    match need_function(&mut state.store, &call.this)? {
        Answer::Throws(thrown) => Ok(Act::Complete(Completion::Throw(thrown))),
        Answer::Gives(callee) => Act::call(
            alloc,
            Invocation {
                callee,
                this,
                args,
                by_new: false,
            },
        ),
    }
}
