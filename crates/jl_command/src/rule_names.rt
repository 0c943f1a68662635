//! The rules that a word names.
ghost use Rattle.std.specs.Prelude.{◌≡◌, ◌==◌, ℕ, List, option_map};
ghost use Rattle.std.specs.List.{slice_split};
ghost use Rattle.jl_analysis.specs.Rules.{rule_with};
ghost use Rattle.jl_command.specs.Asked.{rules_in, with_names, with_rule};
ghost use Rattle.jl_command.specs.Meant.{IsChoice};
ghost use Rattle.jl_command.specs.inner.Optional.{BothOrNeither};

use jl_analysis::laws::one_name;
use jl_analysis::{RuleSet, rule_named};

/// The chosen rules, where the option has this value or is not given.
pub(crate) fn rules_in(value: Option<&str>) -> Option<RuleSet>
    ensures { BothOrNeither IsChoice result (rules_in (option_map (λ s. s.now) value.entry)) }
{
    match value {
        Some(names) => with_names(RuleSet::none(), names),
        None => Some(RuleSet::all()),
    }
}

/// These rules and those that a text names, where what stands between its commas is the name of a rule each time, and
/// none stands twice. It goes as deep as there are rules.
fn with_names(rules: RuleSet, names: &str) -> Option<RuleSet>
    ensures { (chosen : List ℕ) → IsChoice rules chosen
        → BothOrNeither IsChoice result (with_names chosen (slice_split (λ byte. byte == 44) names.now)) }
{
    match names.split_once(',') {
        Some((name, more)) => with_names(with_name(rules, name)?, more),
        None => with_name(rules, names),
    }
}

/// These rules and the one with this name, where there is one, and it is none of these.
fn with_name(rules: RuleSet, name: &str) -> Option<RuleSet>
    ensures { (chosen : List ℕ) → IsChoice rules chosen
        → BothOrNeither IsChoice result (with_rule chosen (rule_with name.now)) }
{
    one_name();
    let rule = rule_named(name)?;
    if rules.has(rule) {
        return None;
    }
    Some(rules.with(rule))
}
