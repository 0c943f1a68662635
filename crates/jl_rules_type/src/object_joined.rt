#![tactic(auto, unfolding(jl_analysis::specs::Rules::rules, jl_analysis::specs::Rules::hit, jl_analysis::specs::Rules::memory_of))]

ghost use Rattle.std.proofs.Common.{rules};
ghost use Rattle.std.specs.Prelude.{◌≡◌, []};
ghost use Rattle.jl_analysis.specs.TypeRules.{object_joined};

use jl_analysis::{Checker, Rule};
use jl_ast::BinOp;
use jl_op::Op;
use jl_value::is_object;
use std::alloc::{AllocError, Global};

/// Rule 3: an operand of `+` is an object.
#[derive(Drop)]
pub struct JoinsObject;

/// The checker of object-joined.
pub type ObjectJoined = Checker<JoinsObject>;

impl Rule for JoinsObject {
    ghost NUMBER = { 3 };

    ghost memory = { λ _. [] };

    const NUMBER: u32 = 3;

    fn fresh(_alloc: Global) -> JoinsObject {
        JoinsObject
    }

    fn hears(&mut self, op: &Op) -> Result<bool, AllocError> {
        Ok(joins_object(op))
    }

    ghost listed = { Prim.search rules };
}

/// Whether the operation is a `+` with an operand that is an object.
fn joins_object(op: &Op) -> bool
    ensures { result ≡ object_joined op.now }
{
    match op {
        Op::Binary {
            op: BinOp::Add,
            left,
            right,
            ..
        } => is_object(&left.value) || is_object(&right.value),
        _ => false,
    }
}
