//! Values of properties got (8.7.1, 8.12.3).
ghost use Rattle.std.specs.Prelude.{◌≡◌, ◌≤◌, Some, IfOk};
ghost use Rattle.jl_meaning.specs.Getting.{get, value_of_property};
ghost use Rattle.jl_state.specs.Clauses.{Computes, RankAtMost};
ghost use Rattle.jl_store.specs.LookUps.{property_seen};
ghost use Rattle.jl_state.specs.Rank.{rank_act};
ghost use Rattle.jl_state.specs.Rest.{RefinesAlgorithm};
ghost use Rattle.jl_state.specs.declared.state.State.{State as Machine};

use jl_state::{Act, Invocation, State};
use jl_store::Property;
use jl_text::{List, NoMemory, Text};
use jl_value::{ObjId, Value, share};
use std::alloc::Global;

/// [[Get]] of an object (8.12.3), and that of a value that is no object (8.7.1). A getter is called.
#[tactic(auto, unfolding(jl_meaning::specs::Getting::get), using(jl_state::proofs::Steps::looks))]
pub fn get<'p>(state: &mut State<'p>, base: &Value, name: &Text) -> Result<Act<'p>, NoMemory>
    ensures refines { Computes state.old (get base.now name.now) result state.new }
    ensures bounded { RankAtMost state.old 4 result state.new }
{
    let alloc = state.alloc();
    match state.store.property_of_value(base, name) {
        None => Ok(Act::Give(Value::Undefined)),
        Some(property) => value_of_property(alloc, base, &property),
    }
}

/// The value of a property that was found, which a getter gives for `this` (8.12.3).
#[tactic(auto, using(crate::proofs::Found::values_found))]
fn value_of_property<'p>(
    alloc: Global,
    this: &Value,
    property: &Property<'_>,
) -> Result<Act<'p>, NoMemory>
    ensures refines { IfOk result (λ act. (s : Machine)
        → RefinesAlgorithm s (value_of_property this.now (Some (property_seen property.now))) s act) }
    ensures quiet { IfOk result (λ act. rank_act act ≤ 2) }
{
    if let Some(value) = property.found.value(alloc)? {
        return Ok(Act::Give(value));
    }
    match property.found.getter() {
        None => Ok(Act::Give(Value::Undefined)),
        Some(getter) => Act::call(
            alloc,
            Invocation {
                callee: getter,
                this: share(alloc, this)?,
                args: List::new(alloc),
                by_new: false,
            },
        ),
    }
}
