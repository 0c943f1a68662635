ghost use Rattle.std.specs.Prelude.{◌≡◌, ◌&&◌, ◌||◌, ◌==◌, false, nat_eq, ℕ, List, [], All, IfOk, OnOk, is_none, map};
ghost use Rattle.indexmap.specs.IndexSet.{contains};
ghost use Rattle.jl_op.specs.Kinds.{number_of};
ghost use Rattle.jl_op.specs.Map.{BeginsIn};
ghost use Rattle.jl_op.specs.Operations.{Operation};
ghost use Rattle.jl_cover.specs.Coverage.{condition_gap, covered_count, gap_of, gaps_of, has_id, in_order, is_false};
ghost use Rattle.jl_cover.specs.Coverage.{is_true, missed_at, missed_in, numbered, row_count, totals_in};
ghost use Rattle.jl_cover.specs.inner.Observed.{IsCoverOf, lacks_by};

use crate::missed::{Gap, Missed};
use crate::totals::Totals;
use indexmap::IndexSet;
use jl_conv::to_boolean;
use jl_op::{Observer, Op, OpId, OpKind, OpMap};
use jl_text::Lines;
use std::alloc::{AllocError, Global};
use std::collections::BTreeMap;

/// A line, a column and an id, by which gaps are ordered.
type Key = (u32, u32, u32);

/// An observer that keeps, by id, which operations were reached, and which conditions were true and which false. It
/// takes a constant time for each operation, on average. Once it finds no memory left, it refuses each later one.
#[derive(Drop)]
pub struct Cover {
    reached: IndexSet<u32>,
    trues: IndexSet<u32>,
    falses: IndexSet<u32>,
    refused: bool,
}

impl Observer for Cover {
    ghost stands_for = { λ c observed.
        IsCoverOf (contains nat_eq c.reached) (contains nat_eq c.trues) (contains nat_eq c.falses) observed };

    ghost has_refused = { λ c. c.refused };

    fn see(&mut self, id: OpId, op: &Op) -> Result<(), AllocError> {
        if self.refused {
            return Err(AllocError);
        }
        self.refused = true;
        add(&mut self.reached, id)?;
        note(&mut self.trues, &mut self.falses, id, op)?;
        self.refused = false;
        Ok(())
    }
}

/// Notes the id of a condition that is true, or false.
fn note(
    trues: &mut IndexSet<u32>,
    falses: &mut IndexSet<u32>,
    id: OpId,
    op: &Op,
) -> Result<(), AllocError>
    ensures true_ones { OnOk result ((known : ℕ) → contains nat_eq trues.new known
        ≡ (contains nat_eq trues.old known || (has_id known (id, op.now) && is_true op.now))) }
    ensures false_ones { OnOk result ((known : ℕ) → contains nat_eq falses.new known
        ≡ (contains nat_eq falses.old known || (has_id known (id, op.now) && is_false op.now))) }
{
    match op {
        Op::Conditional { value } if to_boolean(&value.value) => add(trues, id),
        Op::Conditional { .. } => add(falses, id),
        _ => Ok(()),
    }
}

/// Adds an id.
fn add(ids: &mut IndexSet<u32>, id: OpId) -> Result<(), AllocError>
    ensures { OnOk result ((known : ℕ) → contains nat_eq ids.new known
        ≡ (contains nat_eq ids.old known || known == id.0)) }
{
    ids.insert(id.0)?;
    Ok(())
}

impl Cover {
    /// One that observed nothing.
    pub fn new(alloc: Global) -> Cover
        ensures stands { ⟦<Cover as Observer>⟧.stands_for result [] }
        ensures ready { ⟦<Cover as Observer>⟧.has_refused result ≡ false }
    {
        Cover {
            reached: IndexSet::new(alloc),
            trues: IndexSet::new(alloc),
            falses: IndexSet::new(alloc),
            refused: false,
        }
    }

    /// What the operations that it observed left out: of each row of the map, in the order of line, column and id, a
    /// function that was never entered, and a condition that was never reached, never true or never false. `map` has
    /// the part of the source for each id, and `lines` are those of the source. An id that the map lacks is in no line.
    pub fn missed(
        &self,
        alloc: Global,
        map: &OpMap,
        lines: &Lines,
    ) -> Result<Vec<Missed>, AllocError>
        requires { All (BeginsIn lines.now) map.now }
        ensures { IfOk result (λ missed. (observed : List Operation)
            → ⟦<Cover as Observer>⟧.stands_for self.now observed
            → missed.items ≡ missed_in lines.now map.now observed) }
    {
        let gaps = self.gaps(alloc, map, lines)?;
        list(alloc, &gaps)
    }

    /// How many functions of the map were entered, and how many of its conditions were both true and false.
    pub fn totals(&self, map: &OpMap) -> Totals
        ensures { (observed : List Operation) → ⟦<Cover as Observer>⟧.stands_for self.now observed
            → result ≡ totals_in map.now observed }
    {
        Totals {
            entered: self.covered(map, OpKind::FunctionEnter),
            functions: rows_of(map, OpKind::FunctionEnter),
            decided: self.covered(map, OpKind::Conditional),
            conditions: rows_of(map, OpKind::Conditional),
        }
    }

    /// What the row with this id and kind lacks, if anything.
    fn gap(&self, id: u32, kind: OpKind) -> Option<Gap>
        ensures { result ≡ gap_of kind (contains nat_eq self.now.reached id) (contains nat_eq self.now.trues id)
            (contains nat_eq self.now.falses id) }
    {
        match kind {
            OpKind::FunctionEnter if !self.reached.contains(&id) => Some(Gap::NeverEntered),
            OpKind::Conditional => self.condition_gap(id),
            _ => None,
        }
    }

    /// What the condition with this id lacks, if anything.
    fn condition_gap(&self, id: u32) -> Option<Gap>
        ensures { result ≡ condition_gap (contains nat_eq self.now.reached id) (contains nat_eq self.now.trues id)
            (contains nat_eq self.now.falses id) }
    {
        if !self.reached.contains(&id) {
            Some(Gap::NeverReached)
        } else if !self.trues.contains(&id) {
            Some(Gap::NeverTrue)
        } else if !self.falses.contains(&id) {
            Some(Gap::NeverFalse)
        } else {
            None
        }
    }

    /// The gaps of all rows, in order.
    fn gaps(
        &self,
        alloc: Global,
        map: &OpMap,
        lines: &Lines,
    ) -> Result<BTreeMap<Key, Gap>, AllocError>
        requires { All (BeginsIn lines.now) map.now }
        ensures { IfOk result (λ gaps. gaps.entries
            ≡ in_order (gaps_of lines.now (lacks_by self.now) (numbered map.now))) }
    {
        let mut gaps = BTreeMap::new(alloc);
        for before in 0..map.len() {
            let id = OpId(before + 1);
            if let Some(gap) = self.gap(id.0, map.kind_of(id)) {
                let (line, column) = lines.line_col(map.place_of(id).from);
                gaps.insert((line, column, id.0), gap)?;
            }
        }
        Ok(gaps)
    }

    /// Whether the row with this id and kind is of the kind that is wanted, and lacks nothing.
    fn is_covered(&self, id: OpId, kind: OpKind, wanted: OpKind) -> bool
        ensures { result ≡ (number_of kind == number_of wanted && is_none (lacks_by self.now id.0 kind)) }
    {
        is_of(kind, wanted) && self.gap(id.0, kind).is_none()
    }

    /// How many rows of this kind lack nothing.
    fn covered(&self, map: &OpMap, kind: OpKind) -> u32
        ensures { result ≡ covered_count map.now (lacks_by self.now) kind }
    {
        let mut count = 0;
        for before in 0..map.len() {
            let id = OpId(before + 1);
            if self.is_covered(id, map.kind_of(id), kind) {
                count += 1;
            }
        }
        count
    }
}

/// Whether it is the kind that is wanted.
fn is_of(kind: OpKind, wanted: OpKind) -> bool
    ensures { result ≡ (number_of kind == number_of wanted) }
{
    kind == wanted
}

/// How many rows are of this kind.
fn rows_of(map: &OpMap, kind: OpKind) -> u32
    ensures { result ≡ row_count map.now kind }
{
    let mut count = 0;
    for before in 0..map.len() {
        if is_of(map.kind_of(OpId(before + 1)), kind) {
            count += 1;
        }
    }
    count
}

/// Gaps as a list.
fn list(alloc: Global, gaps: &BTreeMap<Key, Gap>) -> Result<Vec<Missed>, AllocError>
    ensures { IfOk result (λ missed. missed.items ≡ map missed_at gaps.now.entries) }
{
    let mut missed = Vec::new(alloc);
    for ((line, column, _), gap) in gaps {
        missed.push(Missed {
            line: *line,
            column: *column,
            gap: *gap,
        })?;
    }
    Ok(missed)
}
