//! Commands by their names, with the values of their options.
ghost use Rattle.std.specs.Prelude.{◌≡◌, option_map};
ghost use Rattle.jl_command.specs.Asked.{asked_by_name, without_budget, without_number, without_options};
ghost use Rattle.jl_command.specs.Asked.{without_rules};
ghost use Rattle.jl_command.specs.Meant.{Means};
ghost use Rattle.jl_command.specs.inner.Optional.{BothOrNeither};

use crate::command::Command;
use crate::numbers::{budget_in, soak_number};
use crate::rule_names::rules_in;

/// The command with this name, where its options have these values.
pub(crate) fn command_named(
    name: &str,
    budget: Option<&str>,
    rules: Option<&str>,
    number: Option<&str>,
) -> Option<Command>
    ensures { BothOrNeither Means result (asked_by_name name.now (option_map (λ s. s.now) budget.entry)
        (option_map (λ s. s.now) rules.entry) (option_map (λ s. s.now) number.entry)) }
{
    if name == "soak" {
        let number = soak_number(number)?;
        let budget = budget_in(budget)?;
        let rules = rules_in(rules)?;
        return Some(Command::Soak {
            number,
            budget,
            rules,
        });
    }
    if number.is_some() {
        return None;
    }
    without_number(name, budget, rules)
}

/// The command with this name that makes no script, where its budget and its rules have these values.
fn without_number(name: &str, budget: Option<&str>, rules: Option<&str>) -> Option<Command>
    ensures { BothOrNeither Means result (without_number name.now (option_map (λ s. s.now) budget.entry)
        (option_map (λ s. s.now) rules.entry)) }
{
    if name == "lint" {
        let budget = budget_in(budget)?;
        let rules = rules_in(rules)?;
        return Some(Command::Lint { budget, rules });
    }
    if name == "replay" {
        return without_budget(budget, rules);
    }
    if rules.is_some() {
        return None;
    }
    without_rules(name, budget)
}

/// The command that reports of what ran before, where it has no budget and its rules have this value.
fn without_budget(budget: Option<&str>, rules: Option<&str>) -> Option<Command>
    ensures { BothOrNeither Means result (without_budget (option_map (λ s. s.now) budget.entry)
        (option_map (λ s. s.now) rules.entry)) }
{
    if budget.is_some() {
        return None;
    }
    let rules = rules_in(rules)?;
    Some(Command::Replay { rules })
}

/// The command with this name that reports by no rules, where its budget has this value.
fn without_rules(name: &str, budget: Option<&str>) -> Option<Command>
    ensures { BothOrNeither Means result (without_rules name.now (option_map (λ s. s.now) budget.entry)) }
{
    if name == "run" {
        let budget = budget_in(budget)?;
        return Some(Command::Run { budget });
    }
    if name == "trace" {
        let budget = budget_in(budget)?;
        return Some(Command::Trace { budget });
    }
    if name == "exec" {
        let budget = budget_in(budget)?;
        return Some(Command::Exec { budget });
    }
    if name == "record" {
        let budget = budget_in(budget)?;
        return Some(Command::Record { budget });
    }
    if name == "objects" {
        let budget = budget_in(budget)?;
        return Some(Command::Objects { budget });
    }
    if name == "cover" {
        let budget = budget_in(budget)?;
        return Some(Command::Cover { budget });
    }
    if budget.is_some() {
        return None;
    }
    without_options(name)
}

/// The command with this name that has no options.
fn without_options(name: &str) -> Option<Command>
    ensures { BothOrNeither Means result (without_options name.now) }
{
    if name == "check" {
        return Some(Command::Check);
    }
    if name == "print" {
        return Some(Command::Print);
    }
    if name == "instrument" {
        return Some(Command::Instrument);
    }
    if name == "map" {
        return Some(Command::Map);
    }
    if name == "srcmap" {
        return Some(Command::Srcmap);
    }
    if name == "unmap" {
        return Some(Command::Unmap);
    }
    None
}
