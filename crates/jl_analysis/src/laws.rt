//! What the definitions of this crate come to.
ghost use Rattle.std.specs.Prelude.{◌≡◌, length};
ghost use Rattle.jl_analysis.specs.Laws.{OneName, NeededIsEnough};
ghost use Rattle.jl_analysis.specs.Rules.{rules, rule_count};

/// A name has one rule at most.
pub fn one_name()
    ensures { OneName }
{}

/// There are as many rules as the table has rows.
pub fn rules_are_counted()
    ensures { length rules ≡ rule_count }
{}

/// Operations of kinds that no chosen rule looks at change no hit of a chosen rule.
pub fn needed_is_enough()
    ensures { NeededIsEnough }
{}
