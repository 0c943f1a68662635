//! What `run` and `lint` answer to the same bytes.
ghost use Rattle.std.specs.Prelude.{◌≡◌, ◌≤◌, ℕ, List, [], IfOk};
ghost use Rattle.jl_analysis.specs.Rules.{all_rules};
ghost use Rattle.jl_command.specs.Asked.{lint, run};
ghost use Rattle.jl_command.specs.Meant.{IsChoice};
ghost use Rattle.jl_app.specs.Answers.{IsDueTo};
ghost use Rattle.jl_app.specs.Due.{Due, IsGiven};
ghost use Rattle.jl_app.specs.RunAndLint.{HasEnded, ShowsSame};

use crate::answer::Answer;
use crate::laws::{never_both, one_reading, scripts_are_woven_well};
use crate::top::respond_to;
use jl_analysis::laws::needed_is_enough;
use jl_analysis::{Crowd, Findings, RuleSet};
use jl_command::Command;
use jl_op::Observer;
use jl_port::Same;
use std::alloc::{AllocError, Global};
use std::hash::RandomState;

/// The answers of `run` and of `lint` to the same bytes.
#[derive(Drop)]
pub struct RunAndLint {
    pub run: Answer,
    pub lint: Answer,
}

/// The answers of `run` and of `lint` to these bytes, each with a budget of this many steps, at most 1,000,000,000;
/// `lint` reports by these rules. Where the bytes are a script that is accepted, and its run ends within the budget,
/// both answers show the same output, the same line for an uncaught throw, and the same end; `lint` took no fewer steps,
/// and at most 32 times as many and 64 more. Beside that its answer has the report.
pub fn run_and_lint(
    alloc: Global,
    keys: RandomState,
    bytes: &[u8],
    budget: u64,
    rules: RuleSet,
    crowd: &mut Crowd,
) -> Result<RunAndLint, AllocError>
    requires budget { budget ≤ 1000000000 }
    requires rules { ⟦<Crowd as Findings>⟧.rules crowd.old ≡ all_rules }
    requires fresh { ⟦<Crowd as Observer>⟧.stands_for crowd.old [] }
    // This clause speaks of the two answers alone, as bytes.
    ensures same { IfOk result (λ both. HasEnded both.run.status → ShowsSame both.run both.lint) }
    // Each answer is the one that is due to its command; the shelf of `lint` lends what it was handed.
    ensures run { IfOk result (λ both. (text : List ℕ) × (due : Due)
        × IsDueTo (run budget) bytes.now (record { handed = text; lent = text; same = text ≡ [] }) due
        × (both.run.status ≡ due.status)
        × (both.run.bytes.items ≡ due.bytes)) }
    ensures lint { (chosen : List ℕ) → IsChoice rules chosen → IfOk result (λ both. (text : List ℕ) × (due : Due)
        × IsDueTo (lint budget chosen) bytes.now (record { handed = text; lent = text; same = text ≡ [] }) due
        × IsGiven (record {
          same = crowd.new ≡ crowd.old;
          told = λ told. ⟦<Crowd as Observer>⟧.stands_for crowd.new told;
        }) both.lint due) }
    ensures same_rules { ⟦<Crowd as Findings>⟧.rules crowd.new ≡ ⟦<Crowd as Findings>⟧.rules crowd.old }
{
    one_reading();
    never_both();
    scripts_are_woven_well();
    needed_is_enough();
    let run = respond_to(
        alloc,
        keys,
        Command::Run { budget },
        bytes,
        &mut Same::new(),
        crowd,
    )?;
    let lint = respond_to(
        alloc,
        keys,
        Command::Lint { budget, rules },
        bytes,
        &mut Same::new(),
        crowd,
    )?;
    Ok(RunAndLint { run, lint })
}
