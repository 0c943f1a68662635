//! A script that runs woven, with its report.
ghost use Rattle.std.specs.Prelude.{◌≡◌, ◌≤◌, ℕ, List as Items, All, [], ◌++◌, length, IfOk, OnOk};
ghost use Rattle.std.specs.String.{string_bytes};
ghost use Rattle.jl_analysis.specs.Rules.{IsRule, all_rules};
ghost use Rattle.jl_ast.specs.View.{view};
ghost use Rattle.jl_command.specs.Meant.{IsChoice};
ghost use Rattle.jl_effects.specs.Running.{state_of as world_of};
ghost use Rattle.jl_simulation.specs.Plain.{HasFewIds};
ghost use Rattle.jl_token.specs.Tokens.{Tokens};
ghost use Rattle.jl_token.specs.declared.token.Token.{Token as OneToken};
ghost use Rattle.jl_app.specs.Due.{Due, IsGiven};
ghost use Rattle.jl_app.specs.Linting.{IsLinted, IsReported, end_line, lint_due, lint_status};
ghost use Rattle.jl_app.specs.WovenRuns.{hooked_run, woven_budget};
ghost use Rattle.jl_app.specs.OwnRuns.{uncaught_line};
ghost use Rattle.jl_app.specs.Reporting.{Lines, lines_text};
ghost use Rattle.jl_app.specs.WovenText.{kinds_of, woven_text};
ghost use Rattle.jl_app.specs.inner.MapRows.{RowsBeginIn};

use crate::accept::Accepted;
use crate::answer::{Answer, line_only};
use crate::execute::{ending_text, uncaught_line};
use crate::instrument::woven_text;
use crate::listing::map_in;
use crate::read_back::{Unread, read_back};
use crate::report::{report_in, text};
use crate::run::run_program;
use crate::status::Status;
use jl_analysis::{Crowd, Findings, RuleSet, needs};
use jl_ast::Program;
use jl_hook_bound::laws::hooks_take_steps;
use jl_machine::Run;
use jl_op::Observer;
use jl_port::Shelf;
use jl_report::Line;
use jl_value::Outcome;
use std::alloc::{AllocError, Global};
use std::hash::RandomState;

/// The steps of a woven script's run, where the script's own run has so many.
pub(crate) fn woven_budget(budget: u64) -> u64
    requires { budget ≤ 1000000000 }
    ensures { result ≡ woven_budget budget }
{
    32 * budget + 64
}

/// The last line of an answer with a report.
fn end_line(alloc: Global, run: &Run, reports: usize) -> Result<String, AllocError>
    ensures { IfOk result (λ text. string_bytes text ≡ end_line run.now.outcome run.now.steps run.now.hooks reports) }
{
    let end = ending_text(alloc, &run.outcome)?;
    let steps = run.steps;
    let hooks = run.hooks;
    format!(in alloc; "jlint: {end} steps={steps} hooks={hooks} reports={reports}\n")
}

/// The status of a run with these report lines.
fn lint_status(outcome: &Outcome, lines: &[Line]) -> Status
    ensures { result ≡ lint_status outcome.now lines.now }
{
    match outcome {
        Outcome::Normal => {
            if lines.is_empty() {
                Status::Clean
            } else {
                Status::Reports
            }
        }
        Outcome::Thrown(_) => Status::Thrown,
        Outcome::Fault(_) => Status::Fault,
        Outcome::Spent => Status::Spent,
    }
}

/// What a run threw, if it threw anything, and its last line.
fn ending(alloc: Global, run: &Run, reports: usize) -> Result<String, AllocError>
    ensures { IfOk result (λ text. string_bytes text ≡ uncaught_line run.now.store.heap run.now.outcome
        ++ end_line run.now.outcome run.now.steps run.now.hooks reports) }
{
    let uncaught = uncaught_line(alloc, run.store.heap(), &run.outcome)?;
    let end = end_line(alloc, run, reports)?;
    format!(in alloc; "{uncaught}{end}")
}

/// The output of a run, two texts after it.
pub(crate) fn append_texts(output: Vec<u8>, report: &[u8], end: &str) -> Result<Vec<u8>, AllocError>
    ensures { IfOk result (λ bytes. bytes.items ≡ output.items ++ (report.now ++ end.now)) }
{
    let mut bytes = output;
    bytes.extend_from_slice(report)?;
    bytes.extend_from_slice(end.as_bytes())?;
    Ok(bytes)
}

/// What a run printed, the text of its report, what it threw, and the last line.
fn answer_bytes(alloc: Global, run: &Run, lines: &[Line]) -> Result<Vec<u8>, AllocError>
    requires { All (λ x. IsRule x.rule) lines.now }
    ensures { IfOk result (λ bytes. bytes.items ≡ run.now.output
        ++ (lines_text lines.now ++ (uncaught_line run.now.store.heap run.now.outcome
        ++ end_line run.now.outcome run.now.steps run.now.hooks (length lines.now)))) }
{
    let report = text(alloc, lines)?;
    let ending = ending(alloc, run, lines.len())?;
    append_texts(
        Vec::from_slice(alloc, run.output.items())?,
        &report,
        &ending,
    )
}

/// Runs the program that is read from the shelf, and answers what it printed, the report of its operations by the
/// chosen rules at the places of the script, and how it ended.
fn run_answer(
    alloc: Global,
    keys: RandomState,
    accepted: &Accepted,
    woven: &Program,
    budget: u64,
    rules: RuleSet,
    crowd: &mut Crowd,
) -> Result<Answer, AllocError>
    requires few { HasFewIds (view accepted.now.program) }
    requires places { RowsBeginIn accepted.now.source (view accepted.now.program) }
    requires lexed { (tokens : Items OneToken) × Tokens accepted.now.source tokens }
    requires budget { budget ≤ 1000000000 }
    requires rules { ⟦<Crowd as Findings>⟧.rules crowd.old ≡ all_rules }
    requires fresh { ⟦<Crowd as Observer>⟧.stands_for crowd.old [] }
    ensures run { (chosen : Items ℕ) → IsChoice rules chosen → IfOk result (λ a. (lines : Lines) × (hooks : ℕ)
        × IsReported accepted.now.source (view accepted.now.program) chosen
        (world_of (hooked_run (kinds_of chosen) (view woven.now) (woven_budget budget))).hooks
        (world_of (hooked_run (kinds_of chosen) (view woven.now) (woven_budget budget))).hooks lines hooks
        × (a.status ≡ (lint_due (hooked_run (kinds_of chosen) (view woven.now) (woven_budget budget))
        (woven_budget budget) lines hooks).status)
        × (a.bytes.items ≡ (lint_due (hooked_run (kinds_of chosen) (view woven.now) (woven_budget budget))
        (woven_budget budget) lines hooks).bytes)) }
    ensures told { (chosen : Items ℕ) → IsChoice rules chosen → OnOk result (⟦<Crowd as Observer>⟧.stands_for crowd.new
        (world_of (hooked_run (kinds_of chosen) (view woven.now) (woven_budget budget))).hooks) }
    ensures same_rules { ⟦<Crowd as Findings>⟧.rules crowd.new ≡ ⟦<Crowd as Findings>⟧.rules crowd.old }
{
    hooks_take_steps::<jl_text::Span>();
    let map = map_in(alloc, accepted)?;
    let run = run_program(
        alloc,
        keys,
        woven,
        woven_budget(budget),
        needs(rules),
        crowd,
    )?;
    let lines = report_in(alloc, &accepted.source, &map, rules, crowd)?;
    Ok(Answer {
        status: lint_status(&run.outcome, &lines),
        bytes: answer_bytes(alloc, &run, &lines)?,
    })
}

/// What `lint` answers to an accepted script, with this budget and these rules: it hands the shelf the text of the
/// script that is woven for the kinds that the rules look at, and runs the program that it reads from what the shelf
/// lends.
pub(crate) fn lint<H: Shelf>(
    alloc: Global,
    keys: RandomState,
    accepted: &Accepted,
    budget: u64,
    rules: RuleSet,
    shelf: &mut H,
    crowd: &mut Crowd,
) -> Result<Answer, AllocError>
    requires few { HasFewIds (view accepted.now.program) }
    requires places { RowsBeginIn accepted.now.source (view accepted.now.program) }
    requires lexed { (tokens : Items OneToken) × Tokens accepted.now.source tokens }
    requires budget { budget ≤ 1000000000 }
    requires rules { ⟦<Crowd as Findings>⟧.rules crowd.old ≡ all_rules }
    requires fresh { ⟦<Crowd as Observer>⟧.stands_for crowd.old [] }
    ensures handed { (chosen : Items ℕ) → IsChoice rules chosen
        → OnOk result (H.handed shelf.new ≡ woven_text (kinds_of chosen) (view accepted.now.program)) }
    ensures due { (chosen : Items ℕ) → IsChoice rules chosen → IfOk result (λ a. (due : Due)
        × IsLinted accepted.now.source (view accepted.now.program) budget chosen (H.lent shelf.new) due
        × IsGiven (record {
          same = crowd.new ≡ crowd.old;
          told = λ told. ⟦<Crowd as Observer>⟧.stands_for crowd.new told;
        }) a due) }
    ensures same_rules { ⟦<Crowd as Findings>⟧.rules crowd.new ≡ ⟦<Crowd as Findings>⟧.rules crowd.old }
{
    shelf.put(woven_text(alloc, &accepted.program, needs(rules))?);
    match read_back(alloc, shelf.lend()) {
        Ok(woven) => run_answer(alloc, keys, accepted, &woven, budget, rules, crowd),
        Err(Unread::NoProgram) => line_only(alloc, Status::Refused, "refused ReadBack"),
        Err(Unread::NoMemory) => Err(AllocError),
    }
}
