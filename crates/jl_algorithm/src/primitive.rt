//! Objects converted to primitive values (8.12.8, 9.1).
ghost use Rattle.std.specs.Prelude.{◌≡◌, ◌+◌, None, IfOk};
ghost use Rattle.jl_value.specs.declared.value.Value.TheVariants as value;
ghost use Rattle.jl_meaning.specs.Conversions.{to_primitive, try_method};
ghost use Rattle.jl_meaning.specs.Parts.{◌>>=◌ as ◌then◌};
ghost use Rattle.jl_state.specs.AlgorithmFrames.{after_method, method_name};
ghost use Rattle.jl_state.specs.Clauses.{Computes, RankAtMost, ResumesAlgorithm};
ghost use Rattle.jl_state.specs.Rank.{rank_method, rank_method_result};
ghost use Rattle.jl_state.specs.Words.{hint_of};

use crate::errors::throw_native;
use crate::getting::get;
use jl_state::{Act, AlgorithmFrame, Hint, Invocation, State};
use jl_text::{List, NoMemory, Text, word};
use jl_value::{ErrorKind, ObjId, Value};
use std::alloc::Global;

/// ToPrimitive (9.1). An object is asked for its two methods, one after the other.
#[tactic(auto, unfolding(jl_meaning::specs::Conversions::to_primitive), using(crate::proofs::Methods::works_default))]
pub fn to_primitive<'p>(state: &mut State<'p>, v: Value, hint: Hint) -> Result<Act<'p>, NoMemory>
    ensures refines { Computes state.old (to_primitive (hint_of hint) v) result state.new }
    ensures bounded { RankAtMost state.old 16 result state.new }
{
    match v {
        Value::Obj(object, ..) => try_method(state, object, hint, false),
        _ => Ok(Act::Give(v)),
    }
}

/// Goes on with a method of [[DefaultValue]] that has been got: it is called, if it can be (8.12.8).
#[tactic(auto, using(crate::proofs::Methods::leaves_method))]
pub fn step_method<'p>(
    state: &mut State<'p>,
    object: ObjId,
    hint: Hint,
    is_second: bool,
    v: Value,
) -> Result<Act<'p>, NoMemory>
    ensures refines { ResumesAlgorithm state.old (AlgorithmFrame.Method object hint is_second) v result state.new }
    ensures bounded { RankAtMost state.old (rank_method is_second) result state.new }
{
    let alloc = state.alloc();
    if !state.store.is_callable(&v) {
        return after_none(state, object, hint, is_second);
    }
    let Value::Obj(callee, ..) = v else {
        return after_none(state, object, hint, is_second);
    };
    state.push_algorithm(AlgorithmFrame::MethodResult {
        object,
        hint,
        is_second,
    })?;
    Act::call(
        alloc,
        Invocation {
            callee,
            this: Value::Obj(object),
            args: List::new(alloc),
            by_new: false,
        },
    )
}

/// Goes on with what that method has given (8.12.8).
pub fn step_method_result<'p>(
    state: &mut State<'p>,
    object: ObjId,
    hint: Hint,
    is_second: bool,
    v: Value,
) -> Result<Act<'p>, NoMemory>
    ensures refines { ResumesAlgorithm state.old (AlgorithmFrame.MethodResult object hint is_second) v result
        state.new }
    ensures bounded { RankAtMost state.old (rank_method_result is_second) result state.new }
{
    match v {
        Value::Obj(..) => after_none(state, object, hint, is_second),
        _ => Ok(Act::Give(v)),
    }
}

/// Gets a method of [[DefaultValue]], which is tried then (8.12.8).
#[tactic(auto, using(crate::proofs::Methods::works_method))]
fn try_method<'p>(
    state: &mut State<'p>,
    object: ObjId,
    hint: Hint,
    is_second: bool,
) -> Result<Act<'p>, NoMemory>
    ensures refines { Computes state.old (try_method (value.Obj object) (method_name hint is_second) then after_method
        object hint is_second) result state.new }
    ensures bounded { RankAtMost state.old (rank_method is_second + 4) result state.new }
{
    let alloc = state.alloc();
    let name = method_name(alloc, hint, is_second)?;
    state.push_algorithm(AlgorithmFrame::Method {
        object,
        hint,
        is_second,
    })?;
    get(state, &Value::Obj(object), &name)
}

/// What follows a method that gave no primitive value: the second is tried, or an error thrown (8.12.8).
#[tactic(auto, using(crate::proofs::Methods::ends_methods))]
fn after_none<'p>(
    state: &mut State<'p>,
    object: ObjId,
    hint: Hint,
    is_second: bool,
) -> Result<Act<'p>, NoMemory>
    ensures refines { Computes state.old (after_method object hint is_second None) result state.new }
    ensures bounded { RankAtMost state.old (rank_method_result is_second) result state.new }
{
    if is_second {
        throw_native(state, ErrorKind::TypeError, "no primitive value")
    } else {
        try_method(state, object, hint, true)
    }
}

/// The name of the first or the second of the methods.
fn method_name(alloc: Global, hint: Hint, is_second: bool) -> Result<Text, NoMemory>
    ensures { IfOk result (λ name. name ≡ method_name hint is_second) }
{
    match (hint, is_second) {
        (Hint::Text, false) | (Hint::None | Hint::Number, true) => word(alloc, "toString"),
        (Hint::Text, true) | (Hint::None | Hint::Number, false) => word(alloc, "valueOf"),
    }
}
