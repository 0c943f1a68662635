//! `toString` (15.4.4.2).
ghost use Rattle.std.specs.Prelude.{◌≡◌, codes};
ghost use Rattle.jl_lib_array.specs.inner.Functions.{callee_of, string_on};
ghost use Rattle.jl_progress.specs.Arrays.{array_after};
ghost use Rattle.jl_meaning.specs.builtins.Array.{array_to_string, standard_to_string};
ghost use Rattle.jl_state.specs.Clauses.{Computes, RankAtMost};
ghost use Rattle.jl_state.specs.Words.{call_of};

use crate::frames::wait;
use jl_algorithm::get;
use jl_progress::ArrayProgress;
use jl_state::{Act, Invocation, State};
use jl_store::Answer;
use jl_text::{List, NoMemory, word};
use jl_value::{Builtin, Completion, ObjId, ObjectBuiltin, Value};

/// `toString` begins.
pub(crate) fn array_to_string<'p>(
    state: &mut State<'p>,
    call: Invocation,
) -> Result<Act<'p>, NoMemory>
    ensures refines { Computes state.old (array_to_string (call_of call)) result state.new }
    ensures bounded { RankAtMost state.old 10 result state.new }
{
    let answer = state.store.to_object(&call.this)?;
    match answer {
        Answer::Gives(object) => string_on(state, object),
        Answer::Throws(thrown) => Ok(Act::Complete(Completion::Throw(thrown))),
    }
}

/// `toString` of an object.
fn string_on<'p>(state: &mut State<'p>, object: ObjId) -> Result<Act<'p>, NoMemory>
    ensures refines { Computes state.old (string_on object) result state.new }
    ensures bounded { RankAtMost state.old 10 result state.new }
{
    let alloc = state.alloc();
    let name = word(alloc, "join")?;
    wait(state, ArrayProgress::Join { object })?;
    get(state, &Value::Obj(object), &name)
}

/// Goes on with the property `join`, which is called, or the standard `Object.prototype.toString` in its place.
pub(crate) fn step_join_property<'p>(
    state: &mut State<'p>,
    object: ObjId,
    join: &Value,
) -> Result<Act<'p>, NoMemory>
    ensures refines { Computes state.old (array_after (ArrayProgress.Join object) join.now) result state.new }
    ensures bounded { RankAtMost state.old 8 result state.new }
{
    let alloc = state.alloc();
    let callable = state.store.is_callable(join);
    Act::call(
        alloc,
        Invocation {
            callee: callee_of(callable, join),
            this: Value::Obj(object),
            args: List::new(alloc),
            by_new: false,
        },
    )
}

/// The function that `toString` calls.
fn callee_of(callable: bool, join: &Value) -> ObjId
    ensures { result ≡ callee_of callable join.now }
{
    match join {
        Value::Obj(f) if callable => *f,
        _ => standard_to_string(),
    }
}

/// The standard `Object.prototype.toString`.
fn standard_to_string() -> ObjId
    ensures { result ≡ standard_to_string }
{
    Builtin::Object(ObjectBuiltin::ToString).place()
}
