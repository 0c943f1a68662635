ghost use Rattle.std.specs.Prelude.{◌≡◌, ◌<◌, ◌≤◌, true, false, List, [], ◌∷◌, ◌++◌, ◌||◌, length, map, All, slice_get};
ghost use Rattle.std.specs.Prelude.{option_map, Some, OnOk, OnErr, IfErr, IfSome};
ghost use Rattle.std.specs.List.{list_any};
ghost use Rattle.jl_op.specs.Operations.{Operation};
ghost use Rattle.jl_analysis.specs.Rules.{IsRule};
ghost use Rattle.jl_analysis.specs.Summary.{summary};
ghost use Rattle.jl_analysis.specs.declared.crowd.CrowdRefusal.TheVariants.{NoMemory};

use crate::analysis::Analysis;
use crate::findings::Findings;
use jl_op::{Observer, Op, OpId};
use std::alloc::{AllocError, Global};

/// Boxed checkers, each of which is told of each operation, in their order. Where one of them finds no memory left,
/// `see` answers so, and so does every later call.
#[derive(Drop)]
pub struct Crowd {
    boxes: Vec<Box<dyn Analysis>>,
}

/// Why a crowd took no box.
#[derive(Drop)]
pub enum CrowdRefusal {
    /// No memory was left for one more box, which is handed back.
    NoMemory(Box<dyn Analysis>),
}

impl Findings for Crowd {
    ghost rules = { λ c. map (λ b. (Analysis-box b).rule_of b.value) c.boxes.items };

    ghost findings = { λ c. map (λ b. ((Analysis-box b).rule_of b.value, ((Analysis-box b).kept b.value).counts))
        c.boxes.items };
}

impl Observer for Crowd {
    ghost stands_for = { λ c told. All (λ b. (Analysis-box b).kept b.value
        ≡ summary ((Analysis-box b).rule_of b.value) told) c.boxes.items };

    ghost has_refused = { λ c. list_any (λ b. (Analysis-box b).has_refused b.value) c.boxes.items };

    ghost fixed = { λ c. map (λ b. (Analysis-box b).rule_of b.value) c.boxes.items };

    fn see(&mut self, id: OpId, op: &Op) -> Result<(), AllocError> {
        self.tell_all(id, op)
    }
}

/// Tells one checker of one more operation.
fn tell(one: &mut Box<dyn Analysis>, id: OpId, op: &Op) -> Result<(), AllocError>
    ensures same_rule { rule_of one.new ≡ rule_of one.old }
    ensures heard { OnOk result ((has_refused one.old ≡ false) × (has_refused one.new ≡ false)) }
    ensures summed { OnOk result ((told : List Operation) → kept one.old ≡ summary (rule_of one.old) told
        → kept one.new ≡ summary (rule_of one.old) (told ++ (id, op.now) ∷ [])) }
    ensures refuses { OnErr result (has_refused one.new ≡ true) }
{
    one.hook(id, op)
}

/// The number of one checker's rule.
fn rule_of_one(one: &Box<dyn Analysis>) -> u32
    ensures same { result ≡ rule_of one.now }
    ensures listed { IsRule result }
{
    one.rule()
}

/// What one checker found.
fn found_by_one(one: &Box<dyn Analysis>) -> &[(OpId, u64)]
    ensures found { result.now ≡ (kept one.now).counts }
    ensures counted { All (λ x. 1 ≤ x.1) result.now }
{
    one.found()
}

impl Crowd {
    /// A crowd of no checkers.
    pub fn new(alloc: Global) -> Crowd
        ensures rules { ⟦<Crowd as Findings>⟧.rules result ≡ [] }
        ensures findings { ⟦<Crowd as Findings>⟧.findings result ≡ [] }
        ensures stands { (told : List Operation) → ⟦<Crowd as Observer>⟧.stands_for result told }
        ensures ready { ⟦<Crowd as Observer>⟧.has_refused result ≡ false }
    {
        Crowd {
            boxes: Vec::new(alloc),
        }
    }

    /// The crowd of these checkers.
    pub fn of(boxes: Vec<Box<dyn Analysis>>) -> Crowd
        ensures rules { ⟦<Crowd as Findings>⟧.rules result ≡ map (λ b. rule_of b) boxes.items }
        ensures stands { (told : List Operation) → All (λ b. kept b ≡ summary (rule_of b) told) boxes.items
            → ⟦<Crowd as Observer>⟧.stands_for result told }
    {
        Crowd { boxes }
    }

    /// Adds a checker, which is told of each operation after those that are there. The error is that no memory was
    /// left: it hands the box back, and the crowd is as it was.
    pub fn add(&mut self, one: Box<dyn Analysis>) -> Result<(), CrowdRefusal>
        ensures rules { OnOk result (⟦<Crowd as Findings>⟧.rules self.new
            ≡ ⟦<Crowd as Findings>⟧.rules self.old ++ rule_of one ∷ []) }
        ensures findings { OnOk result (⟦<Crowd as Findings>⟧.findings self.new
            ≡ ⟦<Crowd as Findings>⟧.findings self.old ++ (rule_of one, (kept one).counts) ∷ []) }
        ensures stands { OnOk result ((told : List Operation) → ⟦<Crowd as Observer>⟧.stands_for self.old told
            → kept one ≡ summary (rule_of one) told → ⟦<Crowd as Observer>⟧.stands_for self.new told) }
        ensures ready { OnOk result (⟦<Crowd as Observer>⟧.has_refused self.new
            ≡ (⟦<Crowd as Observer>⟧.has_refused self.old || has_refused one)) }
        ensures same { OnErr result (self.new.boxes.items ≡ self.old.boxes.items) }
        ensures back { IfErr result (λ refusal. refusal ≡ NoMemory one) }
    {
        match self.boxes.push(one) {
            Ok(()) => Ok(()),
            Err(full) => Err(CrowdRefusal::NoMemory(full.value)),
        }
    }

    /// Tells each checker of one more operation. Once one of them found no memory left, it always answers so.
    pub(crate) fn tell_all(&mut self, id: OpId, op: &Op) -> Result<(), AllocError>
        ensures same_rules { ⟦<Crowd as Findings>⟧.rules self.new ≡ ⟦<Crowd as Findings>⟧.rules self.old }
        ensures heard { OnOk result ((⟦<Crowd as Observer>⟧.has_refused self.old ≡ false)
            × (⟦<Crowd as Observer>⟧.has_refused self.new ≡ false)) }
        ensures told { OnOk result ((told : List Operation) → ⟦<Crowd as Observer>⟧.stands_for self.old told
            → ⟦<Crowd as Observer>⟧.stands_for self.new (told ++ (id, op.now) ∷ [])) }
        ensures refuses { OnErr result (⟦<Crowd as Observer>⟧.has_refused self.new ≡ true) }
    {
        for one in self.boxes.iter_mut() {
            tell(one, id, op)?;
        }
        Ok(())
    }

    /// How many checkers there are.
    pub fn len(&self) -> usize
        ensures rules { result ≡ length (⟦<Crowd as Findings>⟧.rules self.now) }
        ensures findings { result ≡ length (⟦<Crowd as Findings>⟧.findings self.now) }
        ensures same_rules { map (λ x. x.0) (⟦<Crowd as Findings>⟧.findings self.now)
            ≡ ⟦<Crowd as Findings>⟧.rules self.now }
        ensures summed { (told : List Operation) → ⟦<Crowd as Observer>⟧.stands_for self.now told
            → ⟦<Crowd as Findings>⟧.findings self.now
            ≡ map (λ rule. (rule, (summary rule told).counts)) (⟦<Crowd as Findings>⟧.rules self.now) }
    {
        self.boxes.len()
    }

    /// The number of the rule of the checker at this place. Places count from 0.
    pub fn rule_at(&self, place: usize) -> u32
        requires { place < length (⟦<Crowd as Findings>⟧.rules self.now) }
        ensures there { slice_get (⟦<Crowd as Findings>⟧.rules self.now) place ≡ Some result }
        ensures found { option_map (λ x. x.0) (slice_get (⟦<Crowd as Findings>⟧.findings self.now) place)
            ≡ Some result }
        ensures listed { IsRule result }
    {
        rule_of_one(&self.boxes[place])
    }

    /// The ids at which the rule of the checker at this place hit, in the order of the first hits, with the number of
    /// hits, which is at least 1.
    pub fn found(&self, place: usize) -> &[(OpId, u64)]
        requires { place < length (⟦<Crowd as Findings>⟧.rules self.now) }
        ensures there { option_map (λ x. x.1) (slice_get (⟦<Crowd as Findings>⟧.findings self.now) place)
            ≡ Some result.now }
        ensures counted { All (λ x. 1 ≤ x.1) result.now }
        ensures summed { (told : List Operation) → ⟦<Crowd as Observer>⟧.stands_for self.now told
            → IfSome (slice_get (⟦<Crowd as Findings>⟧.rules self.now) place)
            (λ rule. result.now ≡ (summary rule told).counts) }
    {
        found_by_one(&self.boxes[place])
    }
}
