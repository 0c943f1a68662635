ghost use Rattle.std.specs.Prelude.{◌≡◌, false, []};
ghost use Rattle.jl_analysis.specs.Summary.{summary};

use crate::analysis::Analysis;
use crate::rule::Rule;
use crate::tally::Tally;
use jl_op::{Op, OpId};
use std::alloc::{AllocError, Global};

/// The checker of a rule: it counts the hits at each id.
#[derive(Drop)]
pub struct Checker<R> {
    rule: R,
    tally: Tally,
    refused: bool,
}

impl<R: Rule> Checker<R> {
    /// A checker that has been told of no operation.
    pub fn fresh(alloc: Global) -> Checker<R>
        ensures kept { ⟦<Checker<R> as Analysis>⟧.kept result ≡ summary R.NUMBER [] }
        ensures ready { ⟦<Checker<R> as Analysis>⟧.has_refused result ≡ false }
    {
        Checker {
            rule: R::fresh(alloc),
            tally: Tally::new(alloc),
            refused: false,
        }
    }
}

impl<R: Rule> Analysis for Checker<R> {
    ghost rule_of = { λ _. R.NUMBER };

    ghost kept = { λ it. record { counts = it.tally; memory = R.memory it.rule } };

    ghost has_refused = { λ it. it.refused };

    fn rule(&self) -> u32 {
        R::NUMBER
    }

    fn hook(&mut self, id: OpId, op: &Op) -> Result<(), AllocError> {
        if self.refused {
            return Err(AllocError);
        }
        self.refused = true;
        if self.rule.hears(op)? {
            self.tally.hit(id)?;
        }
        self.refused = false;
        Ok(())
    }

    fn found(&self) -> &[(OpId, u64)] {
        self.tally.counts()
    }
}
