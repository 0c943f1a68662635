ghost use Rattle.std.specs.Prelude.{◌≡◌, ◌≤◌, ℕ, Bool, true, false, List, [], ◌∷◌, ◌++◌, All, OnOk, OnErr};
ghost use Rattle.jl_op.specs.Operations.{Operation};
ghost use Rattle.jl_analysis.specs.Rules.{IsRule};
ghost use Rattle.jl_analysis.specs.Summary.{Kept, summary};

use jl_op::{Op, OpId};
use std::alloc::AllocError;

/// A checker of one rule, which is told of each operation and counts the places where its rule hits.
pub trait Analysis: Drop {
    /// The number of its rule.
    ghost rule_of: { Self → ℕ };

    /// What it has kept.
    ghost kept: { Self → Kept };

    /// Whether it has refused an operation, so that what it kept may lack one.
    ghost has_refused: { Self → Bool };

    /// The number of the rule.
    fn rule(&self) -> u32
        ensures same { result ≡ rule_of self.now }
        ensures listed { IsRule result };

    /// Tells of one more operation. The error is that no memory was left; after it, every call answers so.
    fn hook(&mut self, id: OpId, op: &Op) -> Result<(), AllocError>
        ensures same_rule { rule_of self.new ≡ rule_of self.old }
        ensures heard { OnOk result ((has_refused self.old ≡ false) × (has_refused self.new ≡ false)) }
        ensures summed { OnOk result ((told : List Operation) → kept self.old ≡ summary (rule_of self.old) told
            → kept self.new ≡ summary (rule_of self.old) (told ++ (id, op.now) ∷ [])) }
        ensures refuses { OnErr result (has_refused self.new ≡ true) };

    /// The ids at which the rule hit, in the order of the first hits, with the number of hits, which is at least 1.
    fn found(&self) -> &[(OpId, u64)]
        ensures found { result.now ≡ (kept self.now).counts }
        ensures counted { All (λ x. 1 ≤ x.1) result.now };
}
