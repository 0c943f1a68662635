//! Functions that `bind` made (15.3.4.5).
ghost use Rattle.std.specs.Prelude.{◌≡◌};
ghost use Rattle.jl_heap.specs.Objects.{object_at};
ghost use Rattle.jl_meaning.specs.FunctionObjects.{has_construct};
ghost use Rattle.jl_meaning.specs.Jobs.{call_bound};
ghost use Rattle.jl_state.specs.Clauses.{Computes, RankAtMost};

use jl_algorithm::throw_native;
use jl_state::{Act, Invocation, State};
use jl_store::has_construct;
use jl_text::{List, NoMemory};
use jl_value::{ErrorKind, ObjId, Value};

/// A function that `bind` made calls its target, or constructs by it (15.3.4.5.1, 15.3.4.5.2).
#[tactic(auto, unfolding(jl_meaning::specs::Jobs::call_bound))]
pub fn call_bound<'p>(
    state: &mut State<'p>,
    target: ObjId,
    this: Value,
    args: List<Value>,
    by_new: bool,
) -> Result<Act<'p>, NoMemory>
    ensures refines { Computes state.old (call_bound (has_construct (object_at state.old.store.heap target.0).inner)
        target this args by_new) result state.new }
    ensures bounded { RankAtMost state.old 3 result state.new }
{
    let alloc = state.alloc();
    let constructs = has_construct(state.store.inner_of(target));
    if by_new && !constructs {
        return throw_native(state, ErrorKind::TypeError, "not a constructor");
    }
    Act::call(
        alloc,
        Invocation {
            callee: target,
            this,
            args,
            by_new,
        },
    )
}
