//! New arrays, and their elements (15.4.5.1).
ghost use Rattle.std.specs.Prelude.{◌≡◌, drop, IfOk};
ghost use Rattle.jl_meaning.specs.Parts.{fault_of, ◌>>=◌ as ◌then◌};
ghost use Rattle.jl_meaning.specs.builtins.Arguments.{give_object};
ghost use Rattle.jl_meaning.specs.builtins.Elements.{add_in_turns, add_index};
ghost use Rattle.jl_state.specs.Clauses.{Computes, RankAtMost};
ghost use Rattle.jl_store.specs.Answers.{fault_seen, finish_of};
ghost use Rattle.jl_store.specs.BigStep.{BigStep};

use crate::lists::value_from;
use crate::turns::go_on;
use jl_algorithm::plain_change;
use jl_progress::Progress;
use jl_state::{Act, State};
use jl_store::{AlgorithmFault, Finished, Store, index_name};
use jl_text::{List, NoMemory};
use jl_value::{Completion, Fault, ObjId, Value};
use std::alloc::Global;

/// An element is defined that can be written, enumerated and configured, and nothing is done where that is rejected
/// (15.4.5.1).
#[tactic(auto, using(jl_store::proofs::PropertyChanges::elements))]
pub fn add_index(
    alloc: Global,
    store: &mut Store,
    array: ObjId,
    index: usize,
    v: Value,
) -> Result<Finished<()>, NoMemory>
    ensures { IfOk result (λ end. BigStep (add_index array index v) store.old store.new (finish_of end)) }
{
    let name = index_name(alloc, index)?;
    let change = plain_change(v);
    let answer = store.define_own_property(array, &name, change)?;
    match answer {
        Finished::Gives(_) => Ok(Finished::Gives(())),
        Finished::Throws(thrown) => Ok(Finished::Throws(thrown)),
        Finished::Fails(fault) => Ok(Finished::Fails(fault)),
    }
}

/// The values from an index on become the elements of an array at these indices, one a turn, and then the array is
/// given.
pub fn fill_array<'p>(
    state: &mut State<'p>,
    array: ObjId,
    values: List<Value>,
    from: usize,
) -> Result<Act<'p>, NoMemory>
    ensures refines { Computes state.old (add_in_turns array from (drop from values) then λ _. give_object array)
        result state.new }
    ensures bounded { RankAtMost state.old 6 result state.new }
{
    let alloc = state.alloc();
    let found = value_from(alloc, values.items(), from)?;
    match found {
        None => Ok(Act::Give(Value::Obj(array))),
        Some((v, next)) => {
            if !state.spend() {
                return Ok(Act::Spent);
            }
            add_and_go_on(state, array, from, v, values, next)
        }
    }
}

/// A value becomes the element at an index, and then those that are left are added from the next index on.
fn add_and_go_on<'p>(
    state: &mut State<'p>,
    array: ObjId,
    index: usize,
    v: Value,
    values: List<Value>,
    next: usize,
) -> Result<Act<'p>, NoMemory>
    ensures refines { Computes state.old (add_index array index v then λ _. (add_in_turns array next (drop next
        values) then λ _. give_object array)) result state.new }
    ensures bounded { RankAtMost state.old 10 result state.new }
{
    let alloc = state.alloc();
    let answer = add_index(alloc, &mut state.store, array, index, v)?;
    match answer {
        Finished::Gives(()) => {
            let progress = Progress::Fill {
                array,
                values,
                from: next,
            };
            go_on(state, progress)
        }
        Finished::Throws(thrown) => Ok(Act::Complete(Completion::Throw(thrown))),
        Finished::Fails(fault) => Ok(Act::Fault(fault_of(fault))),
    }
}

/// A fault of an algorithm, as what ends the run.
pub fn fault_of(fault: AlgorithmFault) -> Fault
    ensures { result ≡ fault_of (fault_seen fault) }
{
    match fault {
        AlgorithmFault::NumberOutside => Fault::NumberOutside,
        AlgorithmFault::StringTooLong => Fault::StringTooLong,
    }
}
