#![tactic(auto, unfolding(jl_analysis::specs::Rules::rules, jl_analysis::specs::Rules::hit, jl_analysis::specs::Rules::memory_of))]

ghost use Rattle.std.proofs.Common.{rules};
ghost use Rattle.std.specs.Prelude.{◌≡◌, []};
ghost use Rattle.jl_analysis.specs.TypeRules.{undefined_key};

use jl_analysis::{Checker, Rule};
use jl_op::Op;
use jl_text::is_spelled;
use std::alloc::{AllocError, Global};

/// Rule 4: a property is got, put or deleted under the name `undefined`.
#[derive(Drop)]
pub struct TakesUndefinedKey;

/// The checker of undefined-key.
pub type UndefinedKey = Checker<TakesUndefinedKey>;

impl Rule for TakesUndefinedKey {
    ghost NUMBER = { 4 };

    ghost memory = { λ _. [] };

    const NUMBER: u32 = 4;

    fn fresh(_alloc: Global) -> TakesUndefinedKey {
        TakesUndefinedKey
    }

    fn hears(&mut self, op: &Op) -> Result<bool, AllocError> {
        Ok(takes_undefined_key(op))
    }

    ghost listed = { Prim.search rules };
}

/// Whether the operation gets, puts or deletes a property under the name `undefined`.
fn takes_undefined_key(op: &Op) -> bool
    ensures { result ≡ undefined_key op.now }
{
    match op {
        Op::GetField { name, .. } | Op::PutField { name, .. } | Op::DeleteField { name, .. } => {
            is_spelled(name.units(), b"undefined")
        }
        _ => false,
    }
}
