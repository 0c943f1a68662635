#![tactic(auto, unfolding(jl_analysis::specs::Rules::rules, jl_analysis::specs::Rules::hit, jl_analysis::specs::Rules::memory_of))]

ghost use Rattle.std.proofs.Common.{rules};
ghost use Rattle.std.specs.Prelude.{◌≡◌, OnOk, Some, option_map};
ghost use Rattle.jl_analysis.specs.Memories.{both_ways, noted_way, way, ways_called};
ghost use Rattle.jl_rules_use.specs.inner.Remembered.{mixes, tells_way, ways_of};
ghost use Rattle.jl_rules_use.specs.Ways.{number_of};

use indexmap::IndexMap;
use jl_analysis::{Checker, Rule};
use jl_op::{Callee, Op};
use std::alloc::{AllocError, Global};
use std::marker::Model;

/// How a function was called.
#[derive(Clone, Copy)]
enum Ways {
    Call,
    New,
    Both,
}

/// Rule 12: a function of the script is called by `new` that was called without it before, or the other way round
/// (13.2.1, 13.2.2). Contracts see what it remembers: how each function was called, in the order of the first calls.
#[derive(Drop)]
pub struct MixesNew {
    called: IndexMap<u32, Ways>,
}

impl Model for MixesNew {
    ghost use Rattle.jl_analysis.specs.Memories.{Memory};
    ghost use Rattle.jl_rules_use.specs.Ways.{memory_of_ways};

    ghost Value = { Memory };

    ghost view = { λ it. memory_of_ways it.called.entries };
}

/// The checker of mixed-new.
pub type MixedNew = Checker<MixesNew>;

impl Rule for MixesNew {
    ghost NUMBER = { 12 };

    ghost memory = { λ it. it };

    const NUMBER: u32 = 12;

    fn fresh(alloc: Global) -> MixesNew {
        MixesNew {
            called: IndexMap::new(alloc),
        }
    }

    #[tactic(auto, using(crate::proofs::Ways::remembering))]
    fn hears(&mut self, op: &Op) -> Result<bool, AllocError> {
        let hits = self.hits(op);
        self.note(op)?;
        Ok(hits)
    }

    ghost listed = { Prim.search rules };
}

impl MixesNew {
    /// Whether a function of the script is called that was called in the other way before.
    fn hits(&self, op: &Op) -> bool
        ensures { result ≡ mixes self.now op.now }
    {
        match op {
            Op::InvokePre {
                target: Callee::Script { function, .. },
                by_new,
                ..
            } => match self.ways(*function) {
                Some(ways) => ways.tell(!*by_new),
                None => false,
            },
            _ => false,
        }
    }

    /// How the function was called, if it was, in constant time on average.
    #[tactic(auto, using(crate::proofs::Ways::as_numbers))]
    fn ways(&self, function: u32) -> Option<Ways>
        ensures { option_map number_of result ≡ ways_of self.now function }
    {
        self.called.get(&function).copied()
    }

    /// Remembers how a function of the script is called.
    fn note(&mut self, op: &Op) -> Result<(), AllocError>
        ensures { OnOk result (self.new ≡ ways_called self.old op.now) }
    {
        match op {
            Op::InvokePre {
                target: Callee::Script { function, .. },
                by_new,
                ..
            } => self.add(*function, *by_new),
            _ => Ok(()),
        }
    }

    /// Remembers that the function is called, by `new` or not, in constant time on average.
    #[tactic(auto, using(crate::proofs::Ways::as_numbers))]
    fn add(&mut self, function: u32, by_new: bool) -> Result<(), AllocError>
        ensures { OnOk result (self.new ≡ noted_way self.old function (way by_new)) }
    {
        let ways = match self.ways(function) {
            Some(earlier) => earlier.and(Ways::of(by_new)),
            None => Ways::of(by_new),
        };
        self.called.insert(function, ways)?;
        Ok(())
    }
}

impl Ways {
    /// By `new`, or without it.
    fn of(by_new: bool) -> Ways
        ensures { number_of result ≡ way by_new }
    {
        if by_new { Ways::New } else { Ways::Call }
    }

    /// In these ways and those.
    fn and(self, other: Ways) -> Ways
        ensures { number_of result ≡ both_ways (number_of self) (number_of other) }
    {
        match (self, other) {
            (Ways::Call, Ways::Call) => Ways::Call,
            (Ways::New, Ways::New) => Ways::New,
            _ => Ways::Both,
        }
    }

    /// Whether it was called by `new`, or without it.
    fn tell(self, by_new: bool) -> bool
        ensures { result ≡ tells_way (Some (number_of self)) by_new }
    {
        match self {
            Ways::Call => !by_new,
            Ways::New => by_new,
            Ways::Both => true,
        }
    }
}
