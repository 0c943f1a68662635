//! What is done with elements, and with what the function gives for them (15.4.4.16 to 15.4.4.22).
ghost use Rattle.std.specs.Prelude.{◌≡◌, ◌+◌, ◌++◌, ◌∷◌, [], IfOk, Some};
ghost use Rattle.jl_lib_array.specs.inner.Tasks.{task_end};
ghost use Rattle.jl_meaning.specs.FunctionObjects.{whole};
ghost use Rattle.jl_meaning.specs.Parts.{◌>>=◌ as ◌then◌};
ghost use Rattle.jl_meaning.specs.builtins.ArrayCallbacks.{called_with};
ghost use Rattle.jl_meaning.specs.builtins.Elements.{add_index};
ghost use Rattle.jl_progress.specs.ArrayCalls.{any_with, array_call_after, next_place, task_after, task_with};
ghost use Rattle.jl_progress.specs.ArrayCalls.{turns, walk_of};
ghost use Rattle.jl_state.specs.Clauses.{Computes, RankAtMost};
ghost use Rattle.jl_value.specs.declared.value.Value.TheVariants as value;

use crate::places::{next_index, next_place};
use jl_algorithm::throw_native;
use jl_builtin::{add_index, fault_of, go_on};
use jl_conv::to_boolean;
use jl_progress::{ArrayCallProgress, Direction, Progress, Task, Walk};
use jl_state::{Act, Invocation, State};
use jl_store::{Finished, count};
use jl_text::{List, NoMemory};
use jl_value::{Completion, ErrorKind, ObjId, Value, share};

/// The turns follow that begin at a place.
pub(crate) fn go_on_walking<'p>(
    state: &mut State<'p>,
    walk: Walk,
    task: Task,
    at: usize,
) -> Result<Act<'p>, NoMemory>
    ensures refines { Computes state.old (turns task (walk_of walk) at) result state.new }
    ensures bounded { RankAtMost state.old 9 result state.new }
{
    let progress = ArrayCallProgress::Turn { walk, task, at };
    go_on(state, Progress::ArrayCall(progress))
}

/// What a task comes to, when no turn is left.
pub(crate) fn end_task<'p>(state: &mut State<'p>, task: Task) -> Result<Act<'p>, NoMemory>
    ensures refines { Computes state.old (task_end task) result state.new }
    ensures bounded { RankAtMost state.old 3 result state.new }
{
    match task {
        Task::Any { wanted } => Ok(Act::Give(Value::Bool(!wanted))),
        Task::ForEach => Ok(Act::Give(Value::Undefined)),
        Task::Map { array } => Ok(Act::Give(Value::Obj(array))),
        Task::Filter { array, .. } => Ok(Act::Give(Value::Obj(array))),
        Task::Reduce { so_far, .. } => match so_far {
            Some(v) => Ok(Act::Give(v)),
            None => throw_native(state, ErrorKind::TypeError, "empty array"),
        },
    }
}

/// Goes on with the element at an index.
pub(crate) fn step_element<'p>(
    state: &mut State<'p>,
    walk: Walk,
    task: Task,
    index: usize,
    v: Value,
) -> Result<Act<'p>, NoMemory>
    ensures refines { Computes state.old (array_call_after (ArrayCallProgress.Element walk task index) v) result
        state.new }
    ensures bounded { RankAtMost state.old 14 result state.new }
{
    match task {
        Task::Any { wanted } => ask(state, walk, Task::Any { wanted }, index, v),
        Task::ForEach => ask(state, walk, Task::ForEach, index, v),
        Task::Map { array } => ask(state, walk, Task::Map { array }, index, v),
        Task::Filter { array, to } => { ask(state, walk, Task::Filter { array, to }, index, v) }
        Task::Reduce { so_far, direction } => { combine(state, walk, so_far, direction, index, v) }
    }
}

/// The function is called for an element.
fn ask<'p>(
    state: &mut State<'p>,
    walk: Walk,
    task: Task,
    index: usize,
    v: Value,
) -> Result<Act<'p>, NoMemory>
    ensures refines { Computes state.old (called_with (walk_of walk) index v then task_after task (walk_of walk) index
        v) result state.new }
    ensures bounded { RankAtMost state.old 14 result state.new }
{
    let alloc = state.alloc();
    let element = share(alloc, &v)?;
    let this = share(alloc, &walk.this)?;
    let args = with_element(List::new(alloc), v, index, walk.object)?;
    let invocation = Invocation {
        callee: walk.function,
        this,
        args,
        by_new: false,
    };
    let progress = ArrayCallProgress::Answer {
        walk,
        task,
        index,
        element,
    };
    state.push_builtin(Progress::ArrayCall(progress))?;
    Act::call(alloc, invocation)
}

/// Arguments of a call for an element: those that there are, and then the element, its index and the object.
fn with_element(
    mut args: List<Value>,
    v: Value,
    index: usize,
    object: ObjId,
) -> Result<List<Value>, NoMemory>
    ensures { IfOk result (λ list. list ≡ args ++ v ∷ whole index ∷ value.Obj object ∷ []) }
{
    args.push(v)?;
    args.push(count(index)?)?;
    args.push(Value::Obj(object))?;
    Ok(args)
}

/// `reduce` and `reduceRight` go on with an element. The first one is there without a call where no value was given to
/// begin with (15.4.4.21, step 8).
fn combine<'p>(
    state: &mut State<'p>,
    walk: Walk,
    so_far: Option<Value>,
    direction: Direction,
    index: usize,
    v: Value,
) -> Result<Act<'p>, NoMemory>
    ensures refines { Computes state.old (task_with (Task.Reduce so_far direction) (walk_of walk) index (Some v))
        result state.new }
    ensures bounded { RankAtMost state.old 14 result state.new }
{
    match so_far {
        None => go_on_reducing(state, walk, v, direction, index),
        Some(so_far) => call_to_combine(state, walk, so_far, direction, index, v),
    }
}

/// The turns of `reduce` or `reduceRight` follow that come after the one at an index.
fn go_on_reducing<'p>(
    state: &mut State<'p>,
    walk: Walk,
    so_far: Value,
    direction: Direction,
    index: usize,
) -> Result<Act<'p>, NoMemory>
    ensures refines { Computes state.old (turns (Task.Reduce (Some so_far) direction) (walk_of walk) (next_place
        direction index)) result state.new }
    ensures bounded { RankAtMost state.old 9 result state.new }
{
    let at = next_place(direction, index)?;
    let so_far = Some(so_far);
    go_on_walking(state, walk, Task::Reduce { so_far, direction }, at)
}

/// The function is called with what there is so far and an element (15.4.4.21, step 9.c.ii).
fn call_to_combine<'p>(
    state: &mut State<'p>,
    walk: Walk,
    so_far: Value,
    direction: Direction,
    index: usize,
    v: Value,
) -> Result<Act<'p>, NoMemory>
    ensures refines { Computes state.old (task_with (Task.Reduce (Some so_far) direction) (walk_of walk) index (Some
        v)) result state.new }
    ensures bounded { RankAtMost state.old 14 result state.new }
{
    let alloc = state.alloc();
    let mut before = List::new(alloc);
    before.push(so_far)?;
    let args = with_element(before, v, index, walk.object)?;
    let invocation = Invocation {
        callee: walk.function,
        this: Value::Undefined,
        args,
        by_new: false,
    };
    let progress = ArrayCallProgress::Answer {
        walk,
        task: Task::Reduce {
            so_far: None,
            direction,
        },
        index,
        element: Value::Undefined,
    };
    state.push_builtin(Progress::ArrayCall(progress))?;
    Act::call(alloc, invocation)
}

/// Goes on with what the function gives for an element.
pub(crate) fn step_answer<'p>(
    state: &mut State<'p>,
    walk: Walk,
    task: Task,
    index: usize,
    element: Value,
    v: Value,
) -> Result<Act<'p>, NoMemory>
    ensures refines { Computes state.old (array_call_after (ArrayCallProgress.Answer walk task index element) v)
        result state.new }
    ensures bounded { RankAtMost state.old 9 result state.new }
{
    match task {
        Task::Any { wanted } => answer_any(state, walk, wanted, index, &v),
        Task::ForEach => go_on_walking(state, walk, Task::ForEach, next_index(index)?),
        Task::Map { array } => add_answer(state, walk, array, index, v),
        Task::Filter { array, to } => { answer_filter(state, walk, array, to, index, element, &v) }
        Task::Reduce { direction, .. } => go_on_reducing(state, walk, v, direction, index),
    }
}

/// `every` and `some` end with an answer that is wanted, and go on with any other.
fn answer_any<'p>(
    state: &mut State<'p>,
    walk: Walk,
    wanted: bool,
    index: usize,
    v: &Value,
) -> Result<Act<'p>, NoMemory>
    ensures refines { Computes state.old (any_with wanted (walk_of walk) index (Some v.now)) result state.new }
    ensures bounded { RankAtMost state.old 9 result state.new }
{
    let truth = to_boolean(v);
    if truth == wanted {
        return Ok(Act::Give(Value::Bool(wanted)));
    }
    let at = next_index(index)?;
    go_on_walking(state, walk, Task::Any { wanted }, at)
}

/// `filter` keeps the element for a true answer.
fn answer_filter<'p>(
    state: &mut State<'p>,
    walk: Walk,
    array: ObjId,
    to: usize,
    index: usize,
    element: Value,
    v: &Value,
) -> Result<Act<'p>, NoMemory>
    ensures refines { Computes state.old (task_after (Task.Filter array to) (walk_of walk) index element v.now) result
        state.new }
    ensures bounded { RankAtMost state.old 9 result state.new }
{
    if to_boolean(v) {
        return add_element(state, walk, array, to, index, element);
    }
    let at = next_index(index)?;
    go_on_walking(state, walk, Task::Filter { array, to }, at)
}

/// `map` makes an answer the element at the same index of its array.
fn add_answer<'p>(
    state: &mut State<'p>,
    walk: Walk,
    array: ObjId,
    index: usize,
    v: Value,
) -> Result<Act<'p>, NoMemory>
    ensures refines { Computes state.old (add_index array index v then λ _. turns (Task.Map array) (walk_of walk)
        (index + 1)) result state.new }
    ensures bounded { RankAtMost state.old 9 result state.new }
{
    let alloc = state.alloc();
    let at = next_index(index)?;
    let answer = add_index(alloc, &mut state.store, array, index, v)?;
    match answer {
        Finished::Gives(()) => go_on_walking(state, walk, Task::Map { array }, at),
        Finished::Throws(thrown) => Ok(Act::Complete(Completion::Throw(thrown))),
        Finished::Fails(fault) => Ok(Act::Fault(fault_of(fault))),
    }
}

/// `filter` adds an element to its array.
fn add_element<'p>(
    state: &mut State<'p>,
    walk: Walk,
    array: ObjId,
    to: usize,
    index: usize,
    element: Value,
) -> Result<Act<'p>, NoMemory>
    ensures refines { Computes state.old (add_index array to element then λ _. turns (Task.Filter array (to + 1))
        (walk_of walk) (index + 1)) result state.new }
    ensures bounded { RankAtMost state.old 9 result state.new }
{
    let alloc = state.alloc();
    let at = next_index(index)?;
    let next = next_index(to)?;
    let answer = add_index(alloc, &mut state.store, array, to, element)?;
    match answer {
        Finished::Gives(()) => go_on_walking(state, walk, Task::Filter { array, to: next }, at),
        Finished::Throws(thrown) => Ok(Act::Complete(Completion::Throw(thrown))),
        Finished::Fails(fault) => Ok(Act::Fault(fault_of(fault))),
    }
}
