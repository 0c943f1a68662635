#![tactic(auto, unfolding(jl_analysis::specs::Rules::rules, jl_analysis::specs::Rules::hit, jl_analysis::specs::Rules::memory_of))]

ghost use Rattle.std.proofs.Common.{rules};
ghost use Rattle.std.specs.Prelude.{◌≡◌, OnOk};
ghost use Rattle.jl_analysis.specs.Memories.{called_by_new, noted_once};
ghost use Rattle.jl_rules_use.specs.inner.Remembered.{was_called, sets_late};

use crate::prototype::is_prototype_of_function;
use indexmap::IndexSet;
use jl_analysis::{Checker, Rule};
use jl_op::Op;
use jl_value::Value;
use std::alloc::{AllocError, Global};
use std::marker::Model;

/// Rule 15: the property `prototype` of a function is set after the function was called by `new`, so that what it made
/// before keeps another prototype (13.2.2). Contracts see what it remembers: the places of the functions that were
/// called by `new`, in the order of the first such calls.
#[derive(Drop)]
pub struct SetsPrototypeLate {
    called: IndexSet<usize>,
}

impl Model for SetsPrototypeLate {
    ghost use Rattle.std.specs.Prelude.{map};
    ghost use Rattle.jl_analysis.specs.Memories.{Memory};

    ghost Value = { Memory };

    ghost view = { λ it. map (λ place. (place, 0)) it.called.keys };
}

/// The checker of late-prototype.
pub type LatePrototype = Checker<SetsPrototypeLate>;

impl Rule for SetsPrototypeLate {
    ghost NUMBER = { 15 };

    ghost memory = { λ it. it };

    const NUMBER: u32 = 15;

    fn fresh(alloc: Global) -> SetsPrototypeLate {
        SetsPrototypeLate {
            called: IndexSet::new(alloc),
        }
    }

    #[tactic(auto, using(crate::proofs::CalledByNew::remembering))]
    fn hears(&mut self, op: &Op) -> Result<bool, AllocError> {
        let hits = self.hits(op);
        self.note(op)?;
        Ok(hits)
    }

    ghost listed = { Prim.search rules };
}

impl SetsPrototypeLate {
    /// Whether the `prototype` of a function is set that was called by `new`.
    fn hits(&self, op: &Op) -> bool
        ensures { result ≡ sets_late self.now op.now }
    {
        match op {
            Op::PutField { base, name, .. } => {
                is_prototype_of_function(base, name) && self.was_called(&base.value)
            }
            _ => false,
        }
    }

    /// Whether the value was called by `new`, in constant time on average.
    #[tactic(auto, using(crate::proofs::CalledByNew::as_places))]
    fn was_called(&self, value: &Value) -> bool
        ensures { result ≡ was_called self.now value.now }
    {
        match value {
            Value::Obj(id) => self.called.contains(&id.0),
            _ => false,
        }
    }

    /// Remembers what is called by `new`.
    fn note(&mut self, op: &Op) -> Result<(), AllocError>
        ensures { OnOk result (self.new ≡ called_by_new self.old op.now) }
    {
        match op {
            Op::InvokePre {
                callee,
                by_new: true,
                ..
            } => self.add(callee.0),
            _ => Ok(()),
        }
    }

    /// Remembers a place, in constant time on average.
    #[tactic(auto, using(crate::proofs::CalledByNew::as_places))]
    fn add(&mut self, place: usize) -> Result<(), AllocError>
        ensures { OnOk result (self.new ≡ noted_once self.old place) }
    {
        self.called.insert(place)?;
        Ok(())
    }
}
