ghost use Rattle.std.specs.Prelude.{◌≡◌, ◌≢◌, ℕ, true, false};
ghost use Rattle.jl_analysis.specs.Rules.{IsRule};

use crate::names::RULES;

/// A choice among the rules.
#[derive(Clone, Copy)]
pub struct RuleSet {
    chosen: [bool; RULES],
}

impl RuleSet {
    ghost use Rattle.jl_analysis.specs.Chosen.{is_chosen};

    /// The choice of all rules.
    pub fn all() -> RuleSet
        ensures { (rule : ℕ) → IsRule rule → is_chosen result rule ≡ true }
    {
        RuleSet {
            chosen: [true; RULES],
        }
    }

    /// The choice of no rule.
    pub fn none() -> RuleSet
        ensures { (rule : ℕ) → is_chosen result rule ≡ false }
    {
        RuleSet {
            chosen: [false; RULES],
        }
    }

    /// This choice with one more rule, by its number. A rule that was chosen stays so.
    pub fn with(self, rule: u32) -> RuleSet
        requires { IsRule rule }
        ensures chosen { is_chosen result rule ≡ true }
        ensures others { (other : ℕ) → other ≢ rule → is_chosen result other ≡ is_chosen self other }
    {
        let mut chosen = self.chosen;
        chosen[rule as usize - 1] = true;
        RuleSet { chosen }
    }

    /// Whether the rule with this number is chosen.
    pub fn has(self, rule: u32) -> bool
        requires { IsRule rule }
        ensures { result ≡ is_chosen self rule }
    {
        self.chosen[rule as usize - 1]
    }
}
