#![tactic(auto, unfolding(jl_analysis::specs::Rules::rules, jl_analysis::specs::Rules::hit, jl_analysis::specs::Rules::memory_of))]

ghost use Rattle.std.proofs.Common.{rules};
ghost use Rattle.std.specs.Prelude.{◌≡◌, []};
ghost use Rattle.jl_analysis.specs.UseRules.{for_in_array};

use jl_analysis::{Checker, Rule};
use jl_op::Op;
use jl_value::{Class, is_object};
use std::alloc::{AllocError, Global};

/// Rule 16: the object of a `for-in` statement is an array, of which it gives the indices as texts, and the names of
/// all other enumerable properties too (12.6.4).
#[derive(Drop)]
pub struct VisitsArray;

/// The checker of for-in-array.
pub type ForInArray = Checker<VisitsArray>;

impl Rule for VisitsArray {
    ghost NUMBER = { 16 };

    ghost memory = { λ _. [] };

    const NUMBER: u32 = 16;

    fn fresh(_alloc: Global) -> VisitsArray {
        VisitsArray
    }

    fn hears(&mut self, op: &Op) -> Result<bool, AllocError> {
        Ok(visits_array(op))
    }

    ghost listed = { Prim.search rules };
}

/// Whether the object of a `for-in` is an array.
fn visits_array(op: &Op) -> bool
    ensures { result ≡ for_in_array op.now }
{
    match op {
        Op::ForIn { object } => is_object(&object.value) && matches!(object.class, Class::Array),
        _ => false,
    }
}
