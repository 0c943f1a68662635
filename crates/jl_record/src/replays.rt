// A stored run is shown to an observer.
ghost use Rattle.std.specs.Prelude.{◌≡◌, List, ◌++◌, OnOk, OnErr, true};
ghost use Rattle.jl_op.specs.Operations.{Operation};

use crate::record::Record;
use jl_op::{NoMemory, Observer};

/// Shows an observer the operations of a stored run, in their order. The error is that no memory was left: the
/// observer may then have seen any number of them, and it refuses each later operation.
pub fn replay<O: Observer>(stored: &Record, observer: &mut O) -> Result<(), NoMemory>
    ensures same { O.fixed observer.new ≡ O.fixed observer.old }
    ensures seen { OnOk result ((seen : List Operation) → O.stands_for observer.old seen
        → O.stands_for observer.new (seen ++ stored.now.ops.items)) }
    ensures refuses { OnErr result (O.has_refused observer.new ≡ true) }
{
    for (id, op) in stored.ops.iter() {
        observer.see(*id, op)?;
    }
    Ok(())
}
