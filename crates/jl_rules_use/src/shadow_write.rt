#![tactic(auto, unfolding(jl_analysis::specs::Rules::rules, jl_analysis::specs::Rules::hit, jl_analysis::specs::Rules::memory_of))]

ghost use Rattle.std.proofs.Common.{rules};
ghost use Rattle.std.specs.Prelude.{◌≡◌, []};
ghost use Rattle.jl_analysis.specs.UseRules.{shadow_write};

use jl_analysis::{Checker, Rule};
use jl_op::{Found, Op};
use jl_value::{Class, is_object};
use std::alloc::{AllocError, Global};

/// Rule 11: a value that is no function is put on an object, under the name of a data property that it inherits from a
/// prototype (8.12.5).
#[derive(Drop)]
pub struct ShadowsByWrite;

/// The checker of shadow-write.
pub type ShadowWrite = Checker<ShadowsByWrite>;

impl Rule for ShadowsByWrite {
    ghost NUMBER = { 11 };

    ghost memory = { λ _. [] };

    const NUMBER: u32 = 11;

    fn fresh(_alloc: Global) -> ShadowsByWrite {
        ShadowsByWrite
    }

    fn hears(&mut self, op: &Op) -> Result<bool, AllocError> {
        Ok(shadows(op))
    }

    ghost listed = { Prim.search rules };
}

/// Whether a value that is no function is put on an object over a data property that it inherits.
fn shadows(op: &Op) -> bool
    ensures { result ≡ shadow_write op.now }
{
    match op {
        Op::PutField {
            base,
            value,
            found: Found::ChainPlain,
            ..
        } => is_object(&base.value) && !matches!(value.class, Class::Function),
        _ => false,
    }
}
