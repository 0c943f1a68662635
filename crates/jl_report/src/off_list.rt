ghost use Rattle.std.specs.Prelude.{◌≡◌, [], All, IfOk};
ghost use Rattle.std.specs.List.Sorted.{IsStrictlySortedBy};
ghost use Rattle.jl_analysis.specs.Rules.{IsRule};
ghost use Rattle.jl_report.specs.Off.{by_line, is_off};

use std::alloc::{AllocError, Global};
use std::collections::BTreeSet;
use std::marker::Model;

/// What is switched off in a source: pairs of a line and the number of a rule. Contracts see them as a list, by line
/// and then rule, each pair once.
#[derive(Drop)]
pub struct Off {
    pairs: Vec<(u32, u32)>,
}

impl Model for Off {
    ghost use Rattle.std.specs.Prelude.{List};
    ghost use Rattle.std.specs.List.Sorted.{IsStrictlySortedBy};
    ghost use Rattle.jl_report.specs.Off.{Pair, by_line};

    ghost Value = { List Pair };

    ghost view = { λ off. off.pairs.items };

    ghost invariant = { λ off. IsStrictlySortedBy by_line off.pairs.items };
}

impl Off {
    /// Nothing is switched off.
    pub fn none(alloc: Global) -> Off
        ensures { result ≡ [] }
    {
        Off {
            pairs: Vec::new(alloc),
        }
    }

    /// What these pairs of a line and the number of a rule switch off. They are ordered by line and then rule, and
    /// each stands once.
    pub fn of(pairs: Vec<(u32, u32)>) -> Off
        requires rules { All (λ pair. IsRule pair.1) pairs.items }
        requires in_order { IsStrictlySortedBy by_line pairs.items }
        ensures { result ≡ pairs.items }
    {
        Off { pairs }
    }

    /// The pairs of a line and the number of a rule, by line and then rule.
    pub fn pairs(&self) -> &[(u32, u32)]
        ensures value { result.now ≡ self.now }
        ensures in_order { IsStrictlySortedBy by_line self.now }
    {
        &self.pairs
    }

    /// Whether a rule, by its number, is switched off for a line. It takes the logarithm of the number of pairs.
    pub fn has(&self, line: u32, rule: u32) -> bool
        ensures { result ≡ is_off self.now line rule }
    {
        self.pairs.binary_search(&(line, rule)).is_ok()
    }

    /// What the pairs of a set switch off.
    pub(crate) fn of_set(alloc: Global, set: &BTreeSet<(u32, u32)>) -> Result<Off, AllocError>
        ensures { IfOk result (λ off. off ≡ set.now.keys) }
    {
        let mut pairs = Vec::new(alloc);
        for pair in set.iter() {
            pairs.push(*pair)?;
        }
        Ok(Off { pairs })
    }
}
