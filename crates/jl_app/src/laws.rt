//! Laws over the definitions; each is the contract of a function that does nothing.
ghost use Rattle.std.specs.Prelude.{ℕ, List};
ghost use Rattle.jl_ast.specs.Tree.{Program};
ghost use Rattle.jl_op.specs.Chosen.{Kinds};
ghost use Rattle.jl_text.specs.declared.span.Span.{Span};
ghost use Rattle.jl_app.specs.inner.RecordedRuns.{RecordedRunsAreStored};
ghost use Rattle.jl_app.specs.inner.Woven.{IsWovenWell};
ghost use Rattle.jl_app.specs.Accepting.{IsAccepted, OneReading};
ghost use Rattle.jl_app.specs.ListedMaps.{SourceMapsAreListed};
ghost use Rattle.jl_app.specs.Misuse.{AcceptedScriptsRunWithoutMisuse};
ghost use Rattle.jl_app.specs.OneAnswer.{OneAnswer};
ghost use Rattle.jl_app.specs.Refusals.{NeverBoth, AcceptedOrRefused};
ghost use Rattle.jl_app.specs.ReplayedRuns.{ReplayReportsAsLint};
ghost use Rattle.jl_app.specs.StandsAlone.{TextStandsAlone};
ghost use Rattle.jl_app.specs.StoredRuns.{StoredRunsReplay};

use jl_hook_bound::laws::hooks_take_steps;
use jl_meaning::laws::{kept_hooks, more_budget};
use jl_operation_rows::laws::{hooks_have_rows, hooks_see_values, rows_lie_in_the_text};
use jl_read_back::laws::{
    woven_bytes_are_bounded, woven_keeps_rules, woven_reads_back, woven_text_is_bounded,
    woven_units_are_small,
};
use jl_record::laws::{one_bad_line, one_record, records_come_back};
use jl_report::laws::off_names_rules;
use jl_safety::laws::{accepted_never_misuses, programs_end_or_throw, woven_never_misuses};
use jl_simulation::laws::{accepted_scripts_simulate, few_ids};
use jl_text::laws::units_come_back;
use jl_token::laws::spans_are_in_order;

/// No bytes are both read as a sound program and refused.
pub fn never_both()
    ensures { NeverBoth }
{}

/// All bytes are read as a sound program, or refused.
pub fn accepted_or_refused()
    ensures { AcceptedOrRefused }
{}

/// No bytes are read as two programs.
pub fn one_reading()
    ensures { OneReading }
{}

/// What an answer of `lint` rests on, for every set of kinds: the woven script of an accepted one simulates it, and its
/// text is short enough for a shelf and reads back as it.
pub(crate) fn scripts_are_woven_well()
    ensures { (kinds : Kinds) (bytes : List ℕ) (p : Program Span) → IsAccepted bytes p → IsWovenWell kinds p }
{
    accepted_scripts_simulate();
    more_budget::<jl_text::Span>();
    kept_hooks::<jl_text::Span>();
    jl_grammar::laws::one_reading();
    woven_reads_back();
    woven_text_is_bounded();
    woven_bytes_are_bounded();
    woven_units_are_small();
    woven_keeps_rules();
}

/// The fault Misuse is not told as the end of any run of an accepted script that `run` answers of, nor of its woven
/// script that `lint` or `trace` does, with any budget and any choice of rules.
pub fn accepted_scripts_run_without_misuse()
    ensures { AcceptedScriptsRunWithoutMisuse }
{
    accepted_never_misuses();
    woven_never_misuses();
    programs_end_or_throw::<jl_text::Span>();
    programs_end_or_throw::<()>();
    scripts_are_woven_well();
}

/// What is due to `exec` on the bytes that `instrument` writes of an accepted script is due to `trace` on the script,
/// and the other way round, where `exec` has the steps of the woven script.
pub fn text_stands_alone()
    ensures { TextStandsAlone }
{
    one_reading();
    never_both();
    units_come_back();
    scripts_are_woven_well();
}

/// What is due to words and bytes is one answer; only the place of a refusal as unreadable
/// is not determined. T stands for what it is that the shelf is as it was.
pub fn one_answer<T>()
    ensures { OneAnswer T }
{
    jl_srcmap::laws::readings_are_unique();
    jl_srcmap::laws::never_both();
    jl_srcmap::laws::bad_place_is_unique();
    one_record();
    one_bad_line();
}

/// To `unmap` of the bytes that `srcmap` answers to an accepted script, if it reads so many, the lines of the segments
/// that `srcmap` wrote are due, and nothing else.
pub fn source_maps_are_listed()
    ensures { SourceMapsAreListed }
{
    jl_srcmap::laws::written_reads_back();
    jl_srcmap::laws::readings_are_unique();
    jl_srcmap::laws::never_both();
    jl_srcmap::laws::bad_place_is_unique();
    spans_are_in_order();
    rows_lie_in_the_text();
    scripts_are_woven_well();
}

/// What is due to `replay` on the bytes of a stored run is the report of that run, whatever rules are chosen, where the
/// bytes are no more than `replay` reads.
pub fn stored_runs_replay()
    ensures { StoredRunsReplay }
{
    records_come_back();
    one_record();
}

/// The run that `record` tells of, of an accepted script with a budget of at most 1,000,000,000, is a stored run, if
/// its operations can be stored. Its rows have places, what is switched off is in order, and each operation has a row of
/// its kind and sees its values with their classes.
pub(crate) fn recorded_runs_are_stored()
    ensures { RecordedRunsAreStored }
{
    off_names_rules();
    rows_lie_in_the_text();
    few_ids();
    hooks_have_rows();
    hooks_see_values();
    hooks_take_steps::<()>();
}

/// What is due to `replay` on what is due to `record` on an accepted script, unless that is a refusal, is the report
/// that `lint` gives of the script, whatever rules are chosen, where its own run is over within the budget.
pub fn replay_reports_as_lint()
    ensures { ReplayReportsAsLint }
{
    scripts_are_woven_well();
    stored_runs_replay();
    rows_lie_in_the_text();
}
