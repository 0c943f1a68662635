#![tactic(auto, unfolding(jl_analysis::specs::Rules::rules, jl_analysis::specs::Rules::hit, jl_analysis::specs::Rules::memory_of))]

ghost use Rattle.std.proofs.Common.{rules};
ghost use Rattle.std.specs.Prelude.{◌≡◌, []};
ghost use Rattle.jl_analysis.specs.UseRules.{object_prototype_write};

use jl_analysis::values::is_object_at;
use jl_analysis::{Checker, Rule};
use jl_op::Op;
use jl_value::ObjId;
use std::alloc::{AllocError, Global};

/// Rule 13: a property is put on the object that `Object.prototype` is when a run begins (15.2.4), so that nearly all
/// objects inherit it.
#[derive(Drop)]
pub struct WritesObjectPrototype;

/// The checker of object-prototype-write.
pub type ObjectPrototypeWrite = Checker<WritesObjectPrototype>;

impl Rule for WritesObjectPrototype {
    ghost NUMBER = { 13 };

    ghost memory = { λ _. [] };

    const NUMBER: u32 = 13;

    fn fresh(_alloc: Global) -> WritesObjectPrototype {
        WritesObjectPrototype
    }

    fn hears(&mut self, op: &Op) -> Result<bool, AllocError> {
        Ok(writes_object_prototype(op))
    }

    ghost listed = { Prim.search rules };
}

/// Whether a property is put on the first `Object.prototype`.
fn writes_object_prototype(op: &Op) -> bool
    ensures { result ≡ object_prototype_write op.now }
{
    match op {
        Op::PutField { base, .. } => is_object_at(&base.value, ObjId::OBJECT_PROTOTYPE),
        _ => false,
    }
}
