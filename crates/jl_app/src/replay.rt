//! The report of a stored run.
ghost use Rattle.std.specs.Prelude.{◌≡◌, ◌≤◌, ◌++◌, ℕ, List as Items, [], codes, length, IfOk};
ghost use Rattle.std.specs.Fmt.{decimal};
ghost use Rattle.std.specs.String.{string_bytes};
ghost use Rattle.jl_analysis.specs.Rules.{all_rules};
ghost use Rattle.jl_command.specs.Meant.{IsChoice};
ghost use Rattle.jl_record.specs.Stages.{stored};
ghost use Rattle.jl_record.specs.Records.{IsStored, text_of};
ghost use Rattle.jl_text.specs.Encoding.{units_of};
ghost use Rattle.jl_app.specs.Due.{Due, IsGiven, refused_only};
ghost use Rattle.jl_app.specs.Forms.{most_record_bytes};
ghost use Rattle.jl_app.specs.Replaying.{IsReplayed, IsReportOf, places_of, replay_due, replay_status, replayed_line};
ghost use Rattle.jl_app.specs.Reporting.{Lines};
ghost use Rattle.jl_app.specs.Texts.{IsTextWithin};
ghost use Rattle.jl_app.specs.inner.Said.{IsAnswerOf};

use crate::answer::{Answer, line_only, refusal_answer};
use crate::refusal::Refusal;
use crate::report::text;
use crate::status::Status;
use jl_analysis::{Crowd, Findings, RuleSet};
use jl_op::{Observer, Op, OpId, OpKind};
use jl_record::{ReadRecordRefusal, Record, read_record};
use jl_report::{Line, report_at};
use jl_text::{Utf8Fault, from_utf8};
use std::alloc::{AllocError, Global};

/// The last line.
fn replayed_line(
    alloc: Global,
    operations: &[(OpId, Op)],
    lines: &[Line],
) -> Result<String, AllocError>
    ensures { IfOk result (λ text. string_bytes text ≡ replayed_line (length operations.now) (length lines.now)) }
{
    let hooks = operations.len();
    let reports = lines.len();
    format!(in alloc; "jlint: replayed hooks={hooks} reports={reports}\n")
}

/// The status of a replay with these report lines.
fn replay_status(lines: &[Line]) -> Status
    ensures { result ≡ replay_status lines.now }
{
    if lines.is_empty() {
        Status::Clean
    } else {
        Status::Reports
    }
}

/// The places of the rows of a stored run.
fn places(alloc: Global, rows: &[(OpKind, u32, u32)]) -> Result<Vec<(u32, u32)>, AllocError>
    ensures { IfOk result (λ places. places.items ≡ places_of rows.now) }
{
    let mut places = Vec::new(alloc);
    for row in rows {
        places.push((row.1, row.2))?;
    }
    Ok(places)
}

/// Shows a stored run to the crowd, and answers the report of it by the chosen rules.
fn report_record(
    alloc: Global,
    run: &Record,
    rules: RuleSet,
    crowd: &mut Crowd,
) -> Result<Answer, AllocError>
    requires is { IsStored (stored run.now) }
    requires rules { ⟦<Crowd as Findings>⟧.rules crowd.old ≡ all_rules }
    requires fresh { ⟦<Crowd as Observer>⟧.stands_for crowd.old [] }
    ensures due { (chosen : Items ℕ) → IsChoice rules chosen → IfOk result (λ given. (lines : Lines)
        × IsReportOf (stored run.now) chosen lines
        × IsAnswerOf given (replay_due run.now.ops.items lines)
        × ⟦<Crowd as Observer>⟧.stands_for crowd.new run.now.ops.items) }
    ensures same_rules { ⟦<Crowd as Findings>⟧.rules crowd.new ≡ ⟦<Crowd as Findings>⟧.rules crowd.old }
{
    jl_record::replay(run, crowd)?;
    let places = places(alloc, &run.rows)?;
    let lines = report_at(alloc, crowd, &places, rules, &run.off)?;
    let end = replayed_line(alloc, &run.ops, &lines)?;
    let mut bytes = text(alloc, &lines)?;
    bytes.extend_from_slice(end.as_bytes())?;
    Ok(Answer {
        status: replay_status(&lines),
        bytes,
    })
}

/// The answer to units of which this is the first bad line.
fn bad_record(alloc: Global, line: u64) -> Result<Answer, AllocError>
    ensures { IfOk result (λ given. IsAnswerOf given (refused_only (codes "Record at line " ++ decimal line))) }
{
    let text = format!(in alloc; "refused Record at line {line}")?;
    line_only(alloc, Status::Refused, &text)
}

/// What `replay` answers to bytes with these units.
fn replay_units(
    alloc: Global,
    units: &[u16],
    rules: RuleSet,
    crowd: &mut Crowd,
) -> Result<Answer, AllocError>
    requires rules { ⟦<Crowd as Findings>⟧.rules crowd.old ≡ all_rules }
    requires fresh { ⟦<Crowd as Observer>⟧.stands_for crowd.old [] }
    ensures due { (chosen bytes : Items ℕ) → IsChoice rules chosen → IsTextWithin most_record_bytes bytes
        → units.now ≡ units_of bytes → IfOk result (λ given. (due : Due) × IsReplayed chosen bytes due
        × IsGiven (record {
          same = crowd.new ≡ crowd.old;
          told = λ told. ⟦<Crowd as Observer>⟧.stands_for crowd.new told;
        }) given due) }
    ensures same_rules { ⟦<Crowd as Findings>⟧.rules crowd.new ≡ ⟦<Crowd as Findings>⟧.rules crowd.old }
{
    match read_record(alloc, units) {
        Ok(run) => report_record(alloc, &run, rules, crowd),
        Err(ReadRecordRefusal::BadRecord { line }) => bad_record(alloc, line),
        Err(ReadRecordRefusal::NoMemory) => Err(AllocError),
    }
}

/// What `replay` answers to these bytes, by the chosen rules.
pub(crate) fn replay(
    alloc: Global,
    bytes: &[u8],
    rules: RuleSet,
    crowd: &mut Crowd,
) -> Result<Answer, AllocError>
    requires short { length bytes.now ≤ most_record_bytes }
    requires rules { ⟦<Crowd as Findings>⟧.rules crowd.old ≡ all_rules }
    requires fresh { ⟦<Crowd as Observer>⟧.stands_for crowd.old [] }
    ensures due { (chosen : Items ℕ) → IsChoice rules chosen → IfOk result (λ given. (due : Due)
        × IsReplayed chosen bytes.now due
        × IsGiven (record {
          same = crowd.new ≡ crowd.old;
          told = λ told. ⟦<Crowd as Observer>⟧.stands_for crowd.new told;
        }) given due) }
    ensures same_rules { ⟦<Crowd as Findings>⟧.rules crowd.new ≡ ⟦<Crowd as Findings>⟧.rules crowd.old }
{
    match from_utf8(alloc, bytes) {
        Ok(units) => replay_units(alloc, &units, rules, crowd),
        Err(Utf8Fault::NotUtf8 { at }) => refusal_answer(alloc, &Refusal::NotUtf8 { at }),
        Err(Utf8Fault::NoMemory) => Err(AllocError),
    }
}
