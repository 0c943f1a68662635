ghost use Rattle.std.specs.Prelude.{◌≡◌, ◌≤◌, [], All, OnOk, OnErr};
ghost use Rattle.jl_analysis.specs.Summary.{add_hit};

use indexmap::IndexSet;
use jl_op::OpId;
use std::alloc::{AllocError, Global};
use std::marker::Model;

/// The number of hits at each id, in the order of the first hits. Contracts see it as that list.
#[derive(Drop)]
pub struct Tally {
    counts: Vec<(OpId, u64)>,
    ids: IndexSet<u32>,
}

impl Model for Tally {
    ghost use Rattle.std.specs.Prelude.{◌≡◌, ◌≤◌, List, ℕ, map, All};
    ghost use Rattle.jl_op.specs.declared.op.OpId.{OpId};

    ghost Value = { List (OpId × ℕ) };

    ghost view = { λ t. t.counts.items };

    ghost invariant = { λ t. (t.ids.keys ≡ map (λ x. x.0.0) t.counts.items) × All (λ x. 1 ≤ x.1) t.counts.items };
}

impl Tally {
    /// No hits.
    pub fn new(alloc: Global) -> Tally
        ensures { result ≡ [] }
    {
        Tally {
            counts: Vec::new(alloc),
            ids: IndexSet::new(alloc),
        }
    }

    /// Adds one hit, in constant time on average. A number of hits stands still at its type's end. The error is that
    /// no memory was left; the tally is then as it was.
    #[tactic(auto, using(crate::proofs::Counting::counting))]
    pub fn hit(&mut self, id: OpId) -> Result<(), AllocError>
        ensures ok { OnOk result (self.new ≡ add_hit self.old id) }
        ensures err { OnErr result (self.new ≡ self.old) }
    {
        self.counts.reserve(1)?;
        let (at, added) = self.ids.insert_full(id.0)?;
        if added {
            self.counts.push((id, 1))?;
        } else {
            let count = &mut self.counts[at];
            count.1 = count.1.saturating_add(1);
        }
        Ok(())
    }

    /// The ids at which there were hits, in the order of the first hits, with the number of hits, which is at least 1.
    pub fn counts(&self) -> &[(OpId, u64)]
        ensures same { result.now ≡ self.now }
        ensures counted { All (λ x. 1 ≤ x.1) result.now }
    {
        self.counts.as_slice()
    }
}
