#![tactic(auto, unfolding(jl_analysis::specs::Rules::rules, jl_analysis::specs::Rules::hit, jl_analysis::specs::Rules::memory_of))]

ghost use Rattle.std.proofs.Common.{rules};
ghost use Rattle.std.specs.Prelude.{◌≡◌, []};
ghost use Rattle.jl_analysis.specs.TypeRules.{wrapped_condition};

use jl_analysis::values::is_wrapper;
use jl_analysis::{Checker, Rule};
use jl_op::Op;
use jl_value::is_object;
use std::alloc::{AllocError, Global};

/// Rule 6: what is tested is an object that stands for a primitive value, and so counts as true (9.2).
#[derive(Drop)]
pub struct TestsWrapper;

/// The checker of wrapped-condition.
pub type WrappedCondition = Checker<TestsWrapper>;

impl Rule for TestsWrapper {
    ghost NUMBER = { 6 };

    ghost memory = { λ _. [] };

    const NUMBER: u32 = 6;

    fn fresh(_alloc: Global) -> TestsWrapper {
        TestsWrapper
    }

    fn hears(&mut self, op: &Op) -> Result<bool, AllocError> {
        Ok(tests_wrapper(op))
    }

    ghost listed = { Prim.search rules };
}

/// Whether the operation tests an object that stands for a primitive value.
fn tests_wrapper(op: &Op) -> bool
    ensures { result ≡ wrapped_condition op.now }
{
    match op {
        Op::Conditional { value } => is_object(&value.value) && is_wrapper(value.class),
        _ => false,
    }
}
