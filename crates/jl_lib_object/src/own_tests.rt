//! `Object.prototype.hasOwnProperty` and `propertyIsEnumerable` (15.2.4.5, 15.2.4.7).
ghost use Rattle.std.specs.Prelude.{◌≡◌};
ghost use Rattle.jl_conv.specs.Conversions.{text_of_value};
ghost use Rattle.jl_meaning.specs.builtins.Object.{this_has};
ghost use Rattle.jl_progress.specs.Objects.{object_after, own_test_of};
ghost use Rattle.jl_state.specs.Clauses.{Computes, RankAtMost};
ghost use Rattle.jl_state.specs.Words.{call_of};

use crate::own_names::has_enumerable;
use crate::waiting::{argument_of, wait_object};
use jl_algorithm::to_primitive;
use jl_operator::text_of;
use jl_progress::{ObjectProgress, OwnTest};
use jl_state::{Act, Hint, Invocation, State};
use jl_store::{Answer, Store};
use jl_text::{NoMemory, Text};
use jl_value::{Completion, ObjId, Value, share};

/// Whether an object has an own property that is so.
fn has_own(store: &Store, test: OwnTest, id: ObjId, name: &Text) -> bool
    ensures { result ≡ own_test_of test store.now id.0 name.now }
{
    match test {
        OwnTest::IsThere => store.get_own_property(id, name).is_some(),
        OwnTest::IsEnumerable => has_enumerable(store, id, name),
    }
}

/// Whether `this` has an own property of the name that is given which is so: the name is converted.
pub(crate) fn this_has<'p>(
    state: &mut State<'p>,
    test: OwnTest,
    call: &Invocation,
) -> Result<Act<'p>, NoMemory>
    ensures refines { Computes state.old (this_has (own_test_of test) (call_of call.now)) result state.new }
    ensures bounded { RankAtMost state.old 22 result state.new }
{
    let alloc = state.alloc();
    let name = argument_of(alloc, call, 0)?;
    let this = share(alloc, &call.this)?;
    wait_object(state, ObjectProgress::OwnName { test, this })?;
    to_primitive(state, name, Hint::Text)
}

/// Goes on with the name.
pub(crate) fn step_own_name<'p>(
    state: &mut State<'p>,
    test: OwnTest,
    this: &Value,
    p: &Value,
) -> Result<Act<'p>, NoMemory>
    ensures refines { Computes state.old (object_after (ObjectProgress.OwnName test this.now) p.now) result state.new }
    ensures bounded { RankAtMost state.old 3 result state.new }
{
    let alloc = state.alloc();
    let name = text_of(alloc, p)?;
    match state.store.to_object(this)? {
        Answer::Throws(thrown) => Ok(Act::Complete(Completion::Throw(thrown))),
        Answer::Gives(id) => Ok(Act::Give(Value::Bool(has_own(&state.store, test, id, &name)))),
    }
}
