ghost use Rattle.std.specs.Prelude.{◌≡◌, ◌||◌, ◌<◌, Some, length, map, slice_get};
ghost use Rattle.jl_op.specs.KindSets.{is_member};
ghost use Rattle.jl_op.specs.declared.kind.OpKind.{OpKind as Kind};
ghost use Rattle.jl_analysis.specs.Chosen.{is_chosen};
ghost use Rattle.jl_analysis.specs.Rules.{IsRule, is_needed, is_one_of, needed_by, rule_at};

use crate::names::{RULE_COUNT, RULES};
use crate::rule_set::RuleSet;
use jl_op::{KindSet, OpKind};

// The kinds of operations that each rule looks at, in the order of their numbers.
const NEEDS: [&[OpKind]; RULES] = [
    &[OpKind::Binary, OpKind::Unary],
    &[OpKind::Binary],
    &[OpKind::Binary],
    &[OpKind::GetField, OpKind::PutField, OpKind::DeleteField],
    &[OpKind::PutField],
    &[OpKind::Conditional],
    &[OpKind::Binary],
    &[OpKind::Binary],
    &OpKind::ALL,
    &[OpKind::Binary, OpKind::Unary],
    &[OpKind::PutField],
    &[OpKind::InvokePre],
    &[OpKind::PutField],
    &[OpKind::PutField],
    &[OpKind::PutField, OpKind::InvokePre],
    &[OpKind::ForIn],
    &[OpKind::InvokePre],
    &[OpKind::InvokePre],
    &[OpKind::InvokePre],
    &[
        OpKind::PutField,
        OpKind::FunctionEnter,
        OpKind::FunctionExit,
    ],
];

/// The kinds of operations that the chosen rules look at.
pub fn needs(rules: RuleSet) -> KindSet
    ensures { (kind : Kind) → is_member result kind ≡ is_needed (is_chosen rules) kind }
{
    let mut kinds = KindSet::none();
    for rule in 1..=RULE_COUNT {
        if rules.has(rule) {
            kinds = with_all(kinds, needed_by(rule));
        }
    }
    kinds
}

/// The kinds of operations that the rule with this number looks at.
fn needed_by(rule: u32) -> &'static [OpKind]
    requires { IsRule rule }
    ensures { result.now ≡ needed_by (rule_at rule) }
{
    entry(&NEEDS, rule as usize - 1)
}

fn entry(table: &'static [&'static [OpKind]], at: usize) -> &'static [OpKind]
    requires { at < length table.now }
    ensures { slice_get (map (λ kinds. kinds.now) table.entry.now) at ≡ Some result.now }
{
    table[at]
}

/// The set with these kinds too.
fn with_all(kinds: KindSet, more: &[OpKind]) -> KindSet
    ensures { (kind : Kind) → is_member result kind ≡ (is_member kinds kind || is_one_of more.now kind) }
{
    let mut all = kinds;
    for kind in more {
        all = all.with(*kind);
    }
    all
}
