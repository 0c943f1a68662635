#![tactic(auto, unfolding(jl_analysis::specs::Rules::rules, jl_analysis::specs::Rules::hit, jl_analysis::specs::Rules::memory_of))]

ghost use Rattle.std.proofs.Common.{rules};
ghost use Rattle.std.specs.Prelude.{◌≡◌, []};
ghost use Rattle.jl_analysis.specs.TypeRules.{undefined_joined};

use jl_analysis::values::is_text;
use jl_analysis::{Checker, Rule};
use jl_ast::BinOp;
use jl_op::Op;
use jl_value::is_undefined;
use std::alloc::{AllocError, Global};

/// Rule 2: `+` makes a text of an operand that is undefined (11.6.1).
#[derive(Drop)]
pub struct JoinsUndefined;

/// The checker of undefined-joined.
pub type UndefinedJoined = Checker<JoinsUndefined>;

impl Rule for JoinsUndefined {
    ghost NUMBER = { 2 };

    ghost memory = { λ _. [] };

    const NUMBER: u32 = 2;

    fn fresh(_alloc: Global) -> JoinsUndefined {
        JoinsUndefined
    }

    fn hears(&mut self, op: &Op) -> Result<bool, AllocError> {
        Ok(joins_undefined(op))
    }

    ghost listed = { Prim.search rules };
}

/// Whether the operation is a `+` that gives a text, with an operand that is undefined.
fn joins_undefined(op: &Op) -> bool
    ensures { result ≡ undefined_joined op.now }
{
    match op {
        Op::Binary {
            op: BinOp::Add,
            left,
            right,
            result,
        } => is_text(&result.value) && (is_undefined(&left.value) || is_undefined(&right.value)),
        _ => false,
    }
}
