ghost use Rattle.std.specs.Prelude.{◌≡◌, ℕ, List, [], ◌∷◌, ◌++◌, IfOk};
ghost use Rattle.jl_op.specs.declared.op.Op.{Op as Done};
ghost use Rattle.jl_analysis.specs.Memories.{Memory};
ghost use Rattle.jl_analysis.specs.Rules.{IsRule, hit, memory_of};

use jl_op::Op;
use std::alloc::{AllocError, Global};

/// One of the rules: where it hits, and what it remembers for that.
pub trait Rule: Drop {
    /// Its number.
    ghost NUMBER: { ℕ };

    /// What it remembers.
    ghost memory: { Self → Memory };

    /// Its number in the table of rules.
    const NUMBER: u32;

    /// The rule before the first operation.
    fn fresh(alloc: Global) -> Self
        ensures { memory result ≡ memory_of NUMBER [] };

    /// Whether it hits at one more operation. The error is that no memory was left; what it remembers is then unknown.
    fn hears(&mut self, op: &Op) -> Result<bool, AllocError>
        ensures heard { IfOk result (λ hits. (told : List Done) → memory self.old ≡ memory_of NUMBER told
            → (hits ≡ hit NUMBER told op.now) × (memory self.new ≡ memory_of NUMBER (told ++ op.now ∷ []))) };

    ghost listed: { IsRule NUMBER };
}
