//! The functions that go through elements and call a function for each (15.4.4.16 to 15.4.4.22): how they begin, and
//! their turns.
ghost use Rattle.std.specs.Prelude.{◌≡◌, [], pos, IfOk, Some};
ghost use Rattle.jl_meaning.specs.Parts.{◌>>=◌ as ◌then◌};
ghost use Rattle.jl_meaning.specs.builtins.Elements.{element};
ghost use Rattle.jl_meaning.specs.builtins.Arguments.{need_function};
ghost use Rattle.jl_progress.specs.ArrayCalls.{argument_of, begin_walk, task_with, turns, walk_of, with_length};
ghost use Rattle.jl_state.specs.Clauses.{Computes, RankAtMost};
ghost use Rattle.jl_store.specs.Answers.{ends_with};
ghost use Rattle.jl_store.specs.BigStep.{BigStep};

use crate::arguments::second;
use crate::arrays::array_of_length;
use crate::places::{direction_of, first_place, index_at, next_place};
use crate::tasks::{end_task, go_on_walking};
use jl_builtin::{argument, fault_of, get_index, has_index, need_function};
use jl_num::Num;
use jl_progress::{ArrayCallProgress, LengthFor, Progress, Task, Walk, WalkFor};
use jl_state::{Act, State};
use jl_store::{Answer, Finished, Store};
use jl_text::{List, NoMemory};
use jl_value::{Completion, ObjId, Value};
use std::alloc::Global;

/// A walk begins, when the length is known (15.4.4.16, steps 4 and 5).
pub(crate) fn begin_walk<'p>(
    state: &mut State<'p>,
    purpose: WalkFor,
    object: ObjId,
    length: usize,
    args: &List<Value>,
) -> Result<Act<'p>, NoMemory>
    ensures refines { Computes state.old (with_length (LengthFor.Walk purpose) object args.now length) result
        state.new }
    ensures bounded { RankAtMost state.old 9 result state.new }
{
    let alloc = state.alloc();
    let answer = function_in(alloc, &mut state.store, args)?;
    match answer {
        Answer::Throws(thrown) => Ok(Act::Complete(Completion::Throw(thrown))),
        Answer::Gives(function) => {
            let this = argument(alloc, args.items(), 1)?;
            let walk = Walk {
                object,
                length,
                function,
                this,
            };
            begin_task(state, purpose, walk, args)
        }
    }
}

/// The function that the first argument is (15.4.4.16, step 4).
fn function_in(
    alloc: Global,
    store: &mut Store,
    args: &List<Value>,
) -> Result<Answer<ObjId>, NoMemory>
    ensures { IfOk result (λ answer. BigStep (need_function (argument_of args.now 0)) store.old store.new
        (ends_with answer)) }
{
    let v = argument(alloc, args.items(), 0)?;
    let answer = need_function(store, &v)?;
    Ok(answer)
}

/// What a walk is for begins, and the turns follow.
fn begin_task<'p>(
    state: &mut State<'p>,
    purpose: WalkFor,
    walk: Walk,
    args: &List<Value>,
) -> Result<Act<'p>, NoMemory>
    ensures refines { Computes state.old (begin_walk purpose (walk_of walk) args.now) result state.new }
    ensures bounded { RankAtMost state.old 9 result state.new }
{
    let alloc = state.alloc();
    match purpose {
        WalkFor::Any { wanted } => go_on_walking(state, walk, Task::Any { wanted }, 0),
        WalkFor::ForEach => go_on_walking(state, walk, Task::ForEach, 0),
        WalkFor::Map => begin_map(state, walk),
        WalkFor::Filter => begin_filter(state, walk),
        WalkFor::Reduce { direction } => {
            let so_far = second(alloc, args)?;
            let at = first_place(direction, walk.length);
            go_on_walking(state, walk, Task::Reduce { so_far, direction }, at)
        }
    }
}

/// `map` makes its array (15.4.4.19, step 6).
fn begin_map<'p>(state: &mut State<'p>, walk: Walk) -> Result<Act<'p>, NoMemory>
    ensures refines { Computes state.old (begin_walk WalkFor.Map (walk_of walk) []) result state.new }
    ensures bounded { RankAtMost state.old 9 result state.new }
{
    let alloc = state.alloc();
    let length = number(walk.length)?;
    let answer = array_of_length(alloc, &mut state.store, length)?;
    match answer {
        Finished::Gives(array) => go_on_walking(state, walk, Task::Map { array }, 0),
        Finished::Throws(thrown) => Ok(Act::Complete(Completion::Throw(thrown))),
        Finished::Fails(fault) => Ok(Act::Fault(fault_of(fault))),
    }
}

/// A length as a number. No memory holds more elements than there are numbers.
fn number(length: usize) -> Result<Num, NoMemory>
    ensures { IfOk result (λ n. n ≡ Some (pos length)) }
{
    match i64::try_from(length) {
        Ok(length) => match Num::new(length) {
            Ok(n) => Ok(n),
            Err(_) => Err(NoMemory),
        },
        Err(_) => Err(NoMemory),
    }
}

/// `filter` makes its array (15.4.4.20, step 6).
fn begin_filter<'p>(state: &mut State<'p>, walk: Walk) -> Result<Act<'p>, NoMemory>
    ensures refines { Computes state.old (begin_walk WalkFor.Filter (walk_of walk) []) result state.new }
    ensures bounded { RankAtMost state.old 9 result state.new }
{
    let array = state.store.new_array()?;
    go_on_walking(state, walk, Task::Filter { array, to: 0 }, 0)
}

/// A turn begins, if one is left (15.4.4.16, step 7).
pub(crate) fn turn<'p>(
    state: &mut State<'p>,
    walk: Walk,
    task: Task,
    at: usize,
) -> Result<Act<'p>, NoMemory>
    ensures refines { Computes state.old (turns task (walk_of walk) at) result state.new }
    ensures bounded { RankAtMost state.old 3 result state.new }
{
    let Some(index) = index_at(direction_of(&task), at, walk.length) else {
        return end_task(state, task);
    };
    if !state.spend() {
        return Ok(Act::Spent);
    }
    visit(state, walk, task, index)
}

/// The element of a turn is got, if there is one.
fn visit<'p>(
    state: &mut State<'p>,
    walk: Walk,
    task: Task,
    index: usize,
) -> Result<Act<'p>, NoMemory>
    ensures refines { Computes state.old (element walk.object index then task_with task (walk_of walk) index) result
        state.new }
    ensures bounded { RankAtMost state.old 24 result state.new }
{
    let alloc = state.alloc();
    let object = walk.object;
    let there = has_index(alloc, &state.store, object, index)?;
    if !there {
        let at = next_place(direction_of(&task), index)?;
        return go_on_walking(state, walk, task, at);
    }
    let progress = ArrayCallProgress::Element { walk, task, index };
    state.push_builtin(Progress::ArrayCall(progress))?;
    get_index(state, object, index)
}
