ghost use Rattle.std.specs.Prelude.{◌≡◌, None, option_map};
ghost use Rattle.jl_scope.specs.Kinds.{comes_before, first_from, sooner};
ghost use Rattle.jl_scope.specs.inner.Steps.{early_error_of};
ghost use Rattle.jl_scope.specs.EarlyErrors.{broken_if};

use crate::rules::EarlyRule;
use jl_text::{Span, Text};
use std::marker::Model;

/// Something that is wrong with a program.
#[derive(Clone, Copy)]
pub(crate) enum Finding<'a> {
    Early(EarlyRule, Span),
    LeftOut(&'a Text, Span),
    ReservedName(Span),
}

impl<'a> Finding<'a> {
    fn comes_before(self, other: Finding<'a>) -> bool
        ensures { result ≡ comes_before (early_error_of self.entry) (early_error_of other.entry) }
    {
        match (self, other) {
            (Finding::Early(r, s), Finding::Early(q, t)) => {
                s.from < t.from || (s.from == t.from && r.number() < q.number())
            }
            (Finding::Early(_, _), _) => true,
            (Finding::LeftOut(_, _), Finding::Early(_, _)) => false,
            (Finding::LeftOut(_, s), Finding::LeftOut(_, t)) => s.from < t.from,
            (Finding::LeftOut(_, _), Finding::ReservedName(_)) => true,
            (Finding::ReservedName(s), Finding::ReservedName(t)) => s.from < t.from,
            (Finding::ReservedName(_), _) => false,
        }
    }
}

/// The first thing that a walk found to be wrong. Contracts see it as an optional early error.
#[derive(Drop)]
pub(crate) struct Found<'a> {
    first: Option<Finding<'a>>,
}

impl<'a> Model for Found<'a> {
    ghost use Rattle.std.specs.Prelude.{Option, option_map};
    ghost use Rattle.jl_scope.specs.Kinds.{EarlyError};
    ghost use Rattle.jl_scope.specs.inner.Steps.{early_error_of};

    ghost Value = { Option EarlyError };

    ghost view = { λ f. option_map early_error_of f.first };
}

impl<'a> Found<'a> {
    pub(crate) fn new() -> Found<'a>
        ensures { result ≡ None }
    {
        Found { first: None }
    }

    /// Takes note of a finding, if it comes before what was found.
    pub(crate) fn offer(&mut self, finding: Finding<'a>)
        ensures { self.new ≡ sooner self.old (early_error_of finding.entry) }
    {
        let earlier = match self.first {
            Some(held) => finding.comes_before(held),
            None => true,
        };
        if earlier {
            self.first = Some(finding);
        }
    }

    /// Takes note of a broken rule, if it is broken.
    pub(crate) fn offer_if(&mut self, broken: bool, rule: EarlyRule, at: Span)
        ensures { self.new ≡ first_from self.old (broken_if broken rule at) }
    {
        if broken {
            self.offer(Finding::Early(rule, at));
        }
    }

    /// What was found first.
    pub(crate) fn into_first(self) -> Option<Finding<'a>>
        ensures { option_map early_error_of result ≡ self.entry }
    {
        self.first
    }
}
