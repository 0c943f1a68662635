#![tactic(auto, unfolding(jl_analysis::specs::Rules::rules, jl_analysis::specs::Rules::hit, jl_analysis::specs::Rules::memory_of))]

ghost use Rattle.std.proofs.Common.{rules};
ghost use Rattle.std.specs.Prelude.{◌≡◌};
ghost use Rattle.jl_analysis.specs.Memories.{entered_and_left};
ghost use Rattle.jl_rules_use.specs.inner.Remembered.{writes_global};

use jl_analysis::values::is_object_at;
use jl_analysis::{Checker, Rule};
use jl_op::Op;
use jl_value::ObjId;
use std::alloc::{AllocError, Global};
use std::marker::Model;

/// Rule 20: inside a function a property is put on the global object (15.1), as by `this.x = 1` where the function was
/// called on no object (10.4.3). Contracts see what it remembers: how many functions were entered, and how many left.
#[derive(Drop)]
pub struct WritesGlobalThis {
    entered: u64,
    left: u64,
}

impl Model for WritesGlobalThis {
    ghost use Rattle.std.specs.Prelude.{[], ◌∷◌};
    ghost use Rattle.jl_analysis.specs.Memories.{Memory};

    ghost Value = { Memory };

    ghost view = { λ it. (it.entered, it.left) ∷ [] };
}

/// The checker of global-this.
pub type GlobalThis = Checker<WritesGlobalThis>;

impl Rule for WritesGlobalThis {
    ghost NUMBER = { 20 };

    ghost memory = { λ it. it };

    const NUMBER: u32 = 20;

    fn fresh(_alloc: Global) -> WritesGlobalThis {
        WritesGlobalThis {
            entered: 0,
            left: 0,
        }
    }

    #[tactic(auto, using(crate::proofs::Entered::remembering))]
    fn hears(&mut self, op: &Op) -> Result<bool, AllocError> {
        let hits = self.hits(op);
        self.note(op);
        Ok(hits)
    }

    ghost listed = { Prim.search rules };
}

impl WritesGlobalThis {
    /// Whether a property is put on the global object while there is a function that was entered and not left.
    fn hits(&self, op: &Op) -> bool
        ensures { result ≡ writes_global self.now op.now }
    {
        match op {
            Op::PutField { base, .. } => {
                is_object_at(&base.value, ObjId::GLOBAL) && self.left < self.entered
            }
            _ => false,
        }
    }

    /// Counts a function that is entered or left. A count stands still at its type's end.
    fn note(&mut self, op: &Op)
        ensures { self.new ≡ entered_and_left self.old op.now }
    {
        match op {
            Op::FunctionEnter { .. } => self.entered = self.entered.saturating_add(1),
            Op::FunctionExit { .. } => self.left = self.left.saturating_add(1),
            _ => {}
        }
    }
}
