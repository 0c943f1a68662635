//! Functions of the script: entered, called and constructed by (10.4.3, 13.2.1, 13.2.2).
ghost use Rattle.std.specs.Prelude.{◌≡◌, ◌∷◌, slice_get, is_some, IfOk};
ghost use Rattle.jl_ast.specs.View.{view_function};
ghost use Rattle.jl_effects.specs.Running.{Ends};
ghost use Rattle.jl_function.specs.inner.Entered.{body_result, call_if_known, construct_if_known, this_as_object};
ghost use Rattle.jl_meaning.specs.Jobs.{begin_known};
ghost use Rattle.jl_meaning.specs.Parts.{gives};
ghost use Rattle.jl_meaning.specs.forms.Functions.{enter_function, function_context, prototype_for, this_within};
ghost use Rattle.jl_state.specs.Clauses.{Evaluates, RankAtMost, Resumes};
ghost use Rattle.jl_state.specs.Trees.{plain};
ghost use Rattle.jl_state.specs.Words.{call_of, context_of, function_of, table_of};
ghost use Rattle.jl_store.specs.Answers.{ends_with};
ghost use Rattle.jl_store.specs.BigStep.{BigStep};
ghost use Rattle.jl_value.specs.declared.value.Value.{Value as AnyValue};

use jl_algorithm::get;
use jl_ast::Function;
use jl_heap::Inner;
use jl_state::{Act, Boxed, Call, Frame, Here, Invocation, ScriptFunction, State, ValueFrame};
use jl_statement::begin_statements;
use jl_store::{Answer, Store};
use jl_text::{List, NoMemory, word};
use jl_value::{Class, Completion, ObjId, Value, is_nothing, share};
use std::alloc::Global;

/// What `this` becomes in a function that is strict or not (10.4.3).
#[tactic(auto, unfolding(jl_meaning::specs::forms::Functions::this_within))]
fn this_within(
    alloc: Global,
    store: &mut Store,
    strict: bool,
    v: &Value,
) -> Result<Answer<Value>, NoMemory>
    ensures { IfOk result (λ answer. BigStep (this_within strict v.now) store.old store.new (ends_with answer)) }
{
    if strict {
        return Ok(Answer::Gives(share(alloc, v)?));
    }
    if is_nothing(v) {
        return Ok(Answer::Gives(Value::Obj(ObjId::GLOBAL)));
    }
    this_as_object(store, v)
}

/// ToObject of a value, as a value.
fn this_as_object(store: &mut Store, v: &Value) -> Result<Answer<Value>, NoMemory>
    ensures { IfOk result (λ answer. BigStep (this_as_object v.now) store.old store.new (ends_with answer)) }
{
    match store.to_object(v)? {
        Answer::Gives(id) => Ok(Answer::Gives(Value::Obj(id))),
        Answer::Throws(thrown) => Ok(Answer::Throws(thrown)),
    }
}

/// A function is entered, whatever its `this` is: a new environment, with what its body declares (10.4.3).
fn enter_function(
    store: &mut Store,
    f: &ScriptFunction<'_>,
    env: usize,
    call: &Invocation,
) -> Result<usize, NoMemory>
    ensures { IfOk result (λ inside. (this : AnyValue) → BigStep
        (enter_function (function_of f.now) env this (call_of call.now)) store.old store.new
        (Ends (gives (function_context (function_of f.now) inside this (call_of call.now))))) }
{
    let inside = store.new_environment(env)?;
    store.declare_body(
        &f.function.body,
        &f.declared,
        f.is_strict,
        call.callee,
        f.function.params.items(),
        call.args.items(),
        inside,
    )?;
    Ok(inside)
}

/// The body of a function runs, in a call that is the innermost one (13.2.1).
fn run_body<'p>(
    state: &mut State<'p>,
    function: &'p Function,
    here: Here,
    call: Call,
) -> Result<Act<'p>, NoMemory>
    ensures refines { Evaluates state.old (body_result (table_of state.old.functions) (plain (view_function
        function.now)) (context_of (call ∷ state.old.calls) here)) result state.new }
    ensures bounded { RankAtMost state.old 17 result state.new }
{
    state.calls.push(call)?;
    state.stack.push(Frame::Body)?;
    begin_statements(state, &function.body.statements, here)
}

/// [[Call]] of the function with this number (13.2.1), if there is one.
fn call_if_known<'p>(
    state: &mut State<'p>,
    number: u32,
    env: usize,
    call: &Invocation,
) -> Result<Act<'p>, NoMemory>
    ensures refines { Evaluates state.old (call_if_known (table_of state.old.functions) (slice_get (table_of
        state.old.functions) number) env (call_of call.now)) result state.new }
    ensures bounded { RankAtMost state.old 17 result state.new }
{
    let alloc = state.alloc();
    let Some(f) = state.functions.items().get(number as usize) else {
        return Ok(Act::Give(Value::Undefined));
    };
    let this = match this_within(alloc, &mut state.store, f.is_strict, &call.this)? {
        Answer::Gives(this) => this,
        Answer::Throws(thrown) => return Ok(Act::Complete(Completion::Throw(thrown))),
    };
    let inside = enter_function(&mut state.store, f, env, call)?;
    let function = f.function;
    let here = Here {
        env: inside,
        strict: f.is_strict,
    };
    let running = Call {
        function: function.number,
        this,
        args: call.args.len(),
        by_new: call.by_new,
    };
    run_body(state, function, here, running)
}

/// Whether a function of the script has this number.
fn is_known(functions: &List<ScriptFunction<'_>>, number: u32) -> bool
    ensures { result ≡ is_some (slice_get functions.now number) }
{
    functions.items().get(number as usize).is_some()
}

/// [[Construct]] by the function with this number (13.2.2), if there is one.
fn construct_if_known<'p>(
    state: &mut State<'p>,
    number: u32,
    env: usize,
    call: Invocation,
) -> Result<Act<'p>, NoMemory>
    ensures refines { Evaluates state.old (construct_if_known (table_of state.old.functions) (slice_get (table_of
        state.old.functions) number) env (call_of call)) result state.new }
    ensures bounded { RankAtMost state.old 64 result state.new }
{
    let alloc = state.alloc();
    if !is_known(&state.functions, number) {
        return Ok(Act::Give(Value::Undefined));
    }
    let name = word(alloc, "prototype")?;
    let callee = Value::Obj(call.callee);
    let call = Boxed::of(alloc, call)?;
    state.push_value(ValueFrame::InstancePrototype {
        function: number,
        env,
        call,
    })?;
    get(state, &callee, &name)
}

/// The function with this number is called, or with `new` constructed by.
pub fn begin_script<'p>(
    state: &mut State<'p>,
    number: u32,
    env: usize,
    call: Invocation,
) -> Result<Act<'p>, NoMemory>
    ensures refines { Evaluates state.old (begin_known (table_of state.old.functions) (slice_get (table_of
        state.old.functions) number) env (call_of call)) result state.new }
    ensures bounded { RankAtMost state.old 64 result state.new }
{
    if call.by_new {
        construct_if_known(state, number, env, call)
    } else {
        call_if_known(state, number, env, &call)
    }
}

/// The prototype of a new object (13.2.2, steps 5 to 7).
fn prototype_for(v: &Value) -> ObjId
    ensures { result ≡ prototype_for v.now }
{
    match v {
        Value::Obj(id) => *id,
        _ => ObjId::OBJECT_PROTOTYPE,
    }
}

/// A construction goes on with the prototype of the new object (13.2.2).
pub fn step_instance_prototype<'p>(
    state: &mut State<'p>,
    function: u32,
    env: usize,
    call: Invocation,
    proto: Value,
) -> Result<Act<'p>, NoMemory>
    ensures refines { Resumes state.old (ValueFrame.InstancePrototype function env call) proto result state.new }
    ensures bounded { RankAtMost state.old 62 result state.new }
{
    if !is_known(&state.functions, function) {
        return Ok(Act::Give(Value::Undefined));
    }
    let proto = Some(prototype_for(&proto));
    let id = state
        .store
        .new_object(Class::Object, proto, Inner::Nothing)?;
    let object = Value::Obj(id);
    state.push_value(ValueFrame::Constructed { object })?;
    let with_object = Invocation {
        callee: call.callee,
        this: Value::Obj(id),
        args: call.args,
        by_new: call.by_new,
    };
    call_if_known(state, function, env, &with_object)
}
