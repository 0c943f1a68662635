ghost use Rattle.std.specs.Prelude.{◌≡◌, ◌<◌, ◌+◌, ◌^◌, ◌==◌, List, if◌then◌else◌, filter, map, not, length, All};
ghost use Rattle.std.specs.Prelude.{IfOk, OnOk};
ghost use Rattle.std.specs.BTreeMap.{IsOrdered};
ghost use Rattle.jl_analysis.specs.Chosen.{is_chosen};
ghost use Rattle.jl_analysis.specs.Rules.{IsRule, all_rules};
ghost use Rattle.jl_op.specs.Map.{BeginsIn};
ghost use Rattle.jl_op.specs.Operations.{Operation};
ghost use Rattle.jl_report.specs.inner.Collected.{number_in, HasHits, AreOfRules};
ghost use Rattle.jl_report.specs.Off.{is_off};
ghost use Rattle.jl_report.specs.Reports.{Key as Keyed, by_place, key, place_of, places_of, total_at, saturate_u64};
ghost use Rattle.jl_report.specs.Reports.{IsReport, IsReportOfFindings};

use crate::line::Line;
use crate::off_list::Off;
use jl_analysis::{Crowd, Findings, RuleSet};
use jl_op::{Observer, OpId, OpMap};
use jl_text::Lines;
use std::alloc::{AllocError, Global};
use std::collections::BTreeMap;

/// A line, a column and a rule, by which a report is ordered.
type Key = (u32, u32, u32);

/// The report of what the checkers of the chosen rules found: a line for each place and rule with a hit, but where the
/// rule is switched off for that line of the source, by line, column and rule. `places` has the line and the column of
/// each id, from the id 1 on; a hit at any other id is in no line. A number of hits stands still at its type's end.
///
/// For checkers of all rules that were told of the same operations, fewer than 2^64, the report is that of these
/// operations.
pub fn report_at(
    alloc: Global,
    crowd: &Crowd,
    places: &[(u32, u32)],
    chosen: RuleSet,
    off: &Off,
) -> Result<Vec<Line>, AllocError>
    ensures found { IfOk result (λ lines. IsReportOfFindings (is_chosen chosen) off.now places.now
        (⟦<Crowd as Findings>⟧.findings crowd.now) lines.items) }
    ensures done { IfOk result (λ lines. (told : List Operation)
        → ⟦<Crowd as Findings>⟧.rules crowd.now ≡ all_rules → ⟦<Crowd as Observer>⟧.stands_for crowd.now told
        → length told < 2 ^ 64 → IsReport (is_chosen chosen) off.now places.now told lines.items) }
    ensures rules { IfOk result (λ lines. All (λ x. IsRule x.rule) lines.items) }
{
    let mut hits = BTreeMap::new(alloc);
    for place in 0..crowd.len() {
        let rule = crowd.rule_at(place);
        if chosen.has(rule) {
            add(&mut hits, rule, crowd.found(place), places)?;
        }
    }
    list_lines(alloc, &hits, off)
}

/// The report of what the checkers of the chosen rules found, where `map` has the part of the source for each id, and
/// `lines` are those of the source. An id that is not in the map is in no line.
pub fn report(
    alloc: Global,
    crowd: &Crowd,
    map: &OpMap,
    lines: &Lines,
    chosen: RuleSet,
    off: &Off,
) -> Result<Vec<Line>, AllocError>
    requires { All (BeginsIn lines.now) map.now }
    ensures found { IfOk result (λ found. IsReportOfFindings (is_chosen chosen) off.now (places_of lines.now map.now)
        (⟦<Crowd as Findings>⟧.findings crowd.now) found.items) }
    ensures done { IfOk result (λ found. (told : List Operation)
        → ⟦<Crowd as Findings>⟧.rules crowd.now ≡ all_rules → ⟦<Crowd as Observer>⟧.stands_for crowd.now told
        → length told < 2 ^ 64
        → IsReport (is_chosen chosen) off.now (places_of lines.now map.now) told found.items) }
    ensures rules { IfOk result (λ found. All (λ x. IsRule x.rule) found.items) }
{
    let places = begins(alloc, map, lines)?;
    report_at(alloc, crowd, &places, chosen, off)
}

/// The lines and the columns where the parts of a map begin.
fn begins(alloc: Global, map: &OpMap, lines: &Lines) -> Result<Vec<(u32, u32)>, AllocError>
    requires { All (BeginsIn lines.now) map.now }
    ensures { IfOk result (λ places. places.items ≡ places_of lines.now map.now) }
{
    let mut places = Vec::new(alloc);
    for before in 0..map.len() {
        let span = map.place_of(OpId(before + 1));
        places.push(lines.line_col(span.from))?;
    }
    Ok(places)
}

/// Adds what the checker of a rule found.
fn add(
    hits: &mut BTreeMap<Key, u64>,
    rule: u32,
    found: &[(OpId, u64)],
    places: &[(u32, u32)],
) -> Result<(), AllocError>
    requires few { (k : Keyed) → number_in hits.old k < 2 ^ 64 }
    requires some { HasHits hits.old }
    requires rule { IsRule rule }
    requires rules { AreOfRules hits.old }
    ensures some { OnOk result (HasHits hits.new) }
    ensures rules { OnOk result (AreOfRules hits.new) }
    ensures numbers { OnOk result ((k : Keyed) → number_in hits.new k
        ≡ saturate_u64 (number_in hits.old k + (if rule == k.2 then total_at places.now found.now (k.0, k.1) else 0))) }
{
    for (id, count) in found {
        if *count == 0 {
            continue;
        }
        if let Some((line, column)) = place(places, *id) {
            let key = (line, column, rule);
            let before = hits.get(&key).copied().unwrap_or(0);
            hits.insert(key, before.saturating_add(*count))?;
        }
    }
    Ok(())
}

/// Where the part of the script with this id begins.
fn place(places: &[(u32, u32)], id: OpId) -> Option<(u32, u32)>
    ensures { result ≡ place_of places.now id }
{
    let index = id.0.checked_sub(1)?;
    places.get(index as usize).copied()
}

/// The lines with these numbers of hits, in their order, but those that are switched off.
fn list_lines(alloc: Global, hits: &BTreeMap<Key, u64>, off: &Off) -> Result<Vec<Line>, AllocError>
    ensures listed { IfOk result (λ lines. map (λ x. (key x, x.count)) lines.items
        ≡ filter (λ e. not (is_off off.now e.0.0 e.0.2)) hits.now.entries) }
    ensures in_order { IsOrdered by_place hits.now }
{
    let mut lines = Vec::new(alloc);
    for ((line, column, rule), count) in hits {
        if off.has(*line, *rule) {
            continue;
        }
        lines.push(Line {
            line: *line,
            column: *column,
            rule: *rule,
            count: *count,
        })?;
    }
    Ok(lines)
}
