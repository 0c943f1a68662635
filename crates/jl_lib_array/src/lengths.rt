//! The functions that change what they are called on or copy its elements, and begin with its length (15.4.4.5 to
//! 15.4.4.13).
ghost use Rattle.std.specs.Prelude.{◌≡◌, IfOk, List};
ghost use Rattle.jl_lib_array.specs.inner.Functions.{change_call};
ghost use Rattle.jl_meaning.specs.Parts.{◌>>=◌ as ◌then◌};
ghost use Rattle.jl_meaning.specs.builtins.Elements.{get_length};
ghost use Rattle.jl_progress.specs.Arrays.{array_after, with_length};
ghost use Rattle.jl_state.specs.Clauses.{Computes, RankAtMost};
ghost use Rattle.jl_state.specs.Rest.{RefinesAlgorithm};
ghost use Rattle.jl_state.specs.Words.{call_of};
ghost use Rattle.jl_value.specs.declared.value.Value.{Value as AnyValue};

use crate::frames::{begin_turn, wait};
use crate::joining::join;
use crate::places::sum;
use crate::shifting::{pop_last, shift_first};
use crate::splicing::splice;
use jl_algorithm::get;
use jl_builtin::{length_of, number_of_primitive, wait_for_number};
use jl_progress::{
    AfterMoving, AfterPutting, ArrayProgress, LengthFunction, Moving, Progress, Reading, Reversing,
};
use jl_state::{Act, Invocation, State};
use jl_store::Answer;
use jl_text::{List, NoMemory, word};
use jl_value::{Completion, Fault, ObjId, Value};

/// A function begins that asks for the length of `this` first.
pub(crate) fn begin_with_length<'p>(
    state: &mut State<'p>,
    function: LengthFunction,
    call: Invocation,
) -> Result<Act<'p>, NoMemory>
    ensures refines { Computes state.old (change_call function (call_of call)) result state.new }
    ensures bounded { RankAtMost state.old 164 result state.new }
{
    let Invocation { this, args, .. } = call;
    let answer = state.store.to_object(&this)?;
    match answer {
        Answer::Gives(object) => get_length(state, function, object, args),
        Answer::Throws(thrown) => Ok(Act::Complete(Completion::Throw(thrown))),
    }
}

/// The length of an object is got, for which a function waits.
pub(crate) fn get_length<'p>(
    state: &mut State<'p>,
    function: LengthFunction,
    object: ObjId,
    args: List<Value>,
) -> Result<Act<'p>, NoMemory>
    ensures refines { Computes state.old (get_length object then with_length function object args) result state.new }
    ensures bounded { RankAtMost state.old 164 result state.new }
{
    let alloc = state.alloc();
    let name = word(alloc, "length")?;
    wait(
        state,
        ArrayProgress::Length {
            function,
            object,
            args,
        },
    )?;
    get(state, &Value::Obj(object), &name)
}

/// Goes on with the length.
pub(crate) fn step_length<'p>(
    state: &mut State<'p>,
    function: LengthFunction,
    object: ObjId,
    args: List<Value>,
    v: Value,
) -> Result<Act<'p>, NoMemory>
    ensures refines { Computes state.old (array_after (ArrayProgress.Length function object args) v) result state.new }
    ensures bounded { RankAtMost state.old 162 result state.new }
{
    let progress = Progress::Array(ArrayProgress::LengthPrimitive {
        function,
        object,
        args,
    });
    wait_for_number(state, progress, v)
}

/// Goes on with the length as a primitive value.
pub(crate) fn step_length_primitive<'p>(
    state: &mut State<'p>,
    function: LengthFunction,
    object: ObjId,
    args: List<Value>,
    p: &Value,
) -> Result<Act<'p>, NoMemory>
    ensures refines { Computes state.old (array_after (ArrayProgress.LengthPrimitive function object args) p.now)
        result state.new }
    ensures bounded { RankAtMost state.old 144 result state.new }
{
    let Some(n) = number_of_primitive(p) else {
        return Ok(Act::Fault(Fault::NumberOutside));
    };
    with_length(state, function, object, args, length_of(n))
}

/// What a function does with the length.
fn with_length<'p>(
    state: &mut State<'p>,
    function: LengthFunction,
    object: ObjId,
    args: List<Value>,
    length: usize,
) -> Result<Act<'p>, NoMemory>
    ensures refines { Computes state.old (with_length function object args length) result state.new }
    ensures bounded { RankAtMost state.old 144 result state.new }
{
    match function {
        LengthFunction::Join => join(state, object, args.items(), length),
        LengthFunction::Pop => pop_last(state, object, length),
        LengthFunction::Push => push(state, object, args, length),
        LengthFunction::Reverse => reverse(state, object, length),
        LengthFunction::Shift => shift_first(state, object, length),
        LengthFunction::Sort => sort(state, object, length),
        LengthFunction::Splice { array } => { splice(state, object, array, args, length) }
        LengthFunction::Unshift => unshift(state, object, args, length),
    }
}

/// `push` of an object with this length (15.4.4.7).
fn push<'p>(
    state: &mut State<'p>,
    object: ObjId,
    args: List<Value>,
    length: usize,
) -> Result<Act<'p>, NoMemory>
    ensures refines { Computes state.old (with_length LengthFunction.Push object args length) result state.new }
    ensures bounded { RankAtMost state.old 144 result state.new }
{
    let progress = ArrayProgress::PutTurn {
        object,
        index: length,
        values: args,
        from: 0,
        then: AfterPutting::Push,
    };
    begin_turn(state, progress)
}

/// `reverse` of an object with this length (15.4.4.8).
fn reverse<'p>(state: &mut State<'p>, object: ObjId, length: usize) -> Result<Act<'p>, NoMemory>
    ensures refines { IfOk result (λ act. (args : List AnyValue) → RefinesAlgorithm state.old
        (with_length LengthFunction.Reverse object args length) state.new act) }
    ensures bounded { RankAtMost state.old 144 result state.new }
{
    let reversing = Reversing {
        object,
        length,
        lower: 0,
        left: length / 2,
    };
    begin_turn(state, ArrayProgress::ReverseTurn { reversing })
}

/// `sort` of an object with this length (15.4.4.11).
fn sort<'p>(state: &mut State<'p>, object: ObjId, length: usize) -> Result<Act<'p>, NoMemory>
    ensures refines { IfOk result (λ act. (args : List AnyValue) → RefinesAlgorithm state.old
        (with_length LengthFunction.Sort object args length) state.new act) }
    ensures bounded { RankAtMost state.old 144 result state.new }
{
    let alloc = state.alloc();
    let reading = Reading {
        object,
        length,
        left: length,
        k: 0,
    };
    let read = List::new(alloc);
    begin_turn(state, ArrayProgress::SortTurn { reading, read })
}

/// `unshift` of an object with this length (15.4.4.13).
fn unshift<'p>(
    state: &mut State<'p>,
    object: ObjId,
    args: List<Value>,
    length: usize,
) -> Result<Act<'p>, NoMemory>
    ensures refines { Computes state.old (with_length LengthFunction.Unshift object args length) result state.new }
    ensures bounded { RankAtMost state.old 144 result state.new }
{
    let added = args.len();
    let after = sum(length, added)?;
    let moving = Moving {
        object,
        from: 0,
        to: added,
        left: length,
    };
    let then = AfterMoving::Unshift {
        args,
        length: after,
    };
    begin_turn(state, ArrayProgress::MoveDown { moving, then })
}
