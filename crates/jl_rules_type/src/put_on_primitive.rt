#![tactic(auto, unfolding(jl_analysis::specs::Rules::rules, jl_analysis::specs::Rules::hit, jl_analysis::specs::Rules::memory_of))]

ghost use Rattle.std.proofs.Common.{rules};
ghost use Rattle.std.specs.Prelude.{◌≡◌, []};
ghost use Rattle.jl_analysis.specs.TypeRules.{put_on_primitive};

use jl_analysis::{Checker, Rule};
use jl_op::Op;
use jl_value::is_object;
use std::alloc::{AllocError, Global};

/// Rule 5: a property is put on a value that is no object, which makes no property (8.7.2).
#[derive(Drop)]
pub struct PutsOnPrimitive;

/// The checker of put-on-primitive.
pub type PutOnPrimitive = Checker<PutsOnPrimitive>;

impl Rule for PutsOnPrimitive {
    ghost NUMBER = { 5 };

    ghost memory = { λ _. [] };

    const NUMBER: u32 = 5;

    fn fresh(_alloc: Global) -> PutsOnPrimitive {
        PutsOnPrimitive
    }

    fn hears(&mut self, op: &Op) -> Result<bool, AllocError> {
        Ok(puts_on_primitive(op))
    }

    ghost listed = { Prim.search rules };
}

/// Whether the operation puts a property on a value that is no object.
fn puts_on_primitive(op: &Op) -> bool
    ensures { result ≡ put_on_primitive op.now }
{
    match op {
        Op::PutField { base, .. } => !is_object(&base.value),
        _ => false,
    }
}
