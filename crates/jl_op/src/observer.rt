ghost use Rattle.std.specs.Prelude.{◌≡◌, ℕ, Bool, false, true, List, [], ◌∷◌, ◌++◌, OnOk, OnErr, IsOk};
ghost use Rattle.jl_op.specs.Operations.{Operation};

use crate::op::{Op, OpId};
use std::alloc::AllocError;

/// Who is told of each operation of a run.
pub trait Observer {
    /// The operations that it may have been told of: it may stand for several lists.
    ghost stands_for: { Self → List Operation → Type 0 };

    /// Whether it has refused an operation.
    ghost has_refused: { Self → Bool };

    /// What of it no operation changes, as numbers.
    ghost fixed: { Self → List ℕ } = { λ _. [] };

    /// Tells of one more operation. The error is that no memory was left: the observer may then have taken notice of
    /// the operation or not, and it refuses each later one.
    fn see(&mut self, id: OpId, op: &Op) -> Result<(), AllocError>
        ensures same { fixed self.new ≡ fixed self.old }
        ensures heard { OnOk result ((has_refused self.old ≡ false) × (has_refused self.new ≡ false)) }
        ensures told { OnOk result ((told : List Operation) → stands_for self.old told
            → stands_for self.new (told ++ (id, op.now) ∷ [])) }
        ensures refuses { OnErr result (has_refused self.new ≡ true) };
}

/// An observer that keeps nothing, and so stands for every list. It never refuses.
#[derive(Clone, Copy)]
pub struct Nobody;

impl Observer for Nobody {
    ghost stands_for = { λ _ _. Unit {0} };

    ghost has_refused = { λ _. false };

    fn see(&mut self, _id: OpId, _op: &Op) -> Result<(), AllocError>
        ensures { IsOk result }
    {
        Ok(())
    }
}
