//! Operators between two operands (11.5 to 11.10).
ghost use Rattle.std.specs.Prelude.{◌≡◌, ◌≤◌};
ghost use Rattle.jl_meaning.specs.Operators.{binary_result};
ghost use Rattle.jl_state.specs.Clauses.{Computes, RankAtMost};

use crate::equality::{equal, strictly_equal};
use crate::instances::{in_object, instance_of};
use crate::numbers::on_numbers;
use crate::relations::compare;
use crate::sums::sum;
use jl_ast::BinOp;
use jl_state::{Act, State};
use jl_text::NoMemory;
use jl_value::Value;

/// An operator between two operands (11.5 to 11.10).
#[tactic(auto, unfolding(jl_meaning::specs::Operators::binary_result))]
pub fn binary_result<'p>(
    state: &mut State<'p>,
    op: BinOp,
    a: Value,
    b: Value,
) -> Result<Act<'p>, NoMemory>
    ensures refines { Computes state.old (binary_result op a b) result state.new }
    ensures bounded { RankAtMost state.old 40 result state.new }
{
    match op {
        BinOp::Add => sum(state, a, b),
        BinOp::Less | BinOp::Greater | BinOp::LessEq | BinOp::GreaterEq => {
            compare(state, op, a, b)
        }
        BinOp::InstanceOf => instance_of(state, a, &b),
        BinOp::In => in_object(state, a, &b),
        BinOp::Equal => equal(state, false, a, b),
        BinOp::NotEqual => equal(state, true, a, b),
        BinOp::StrictEqual => Ok(strictly_equal(false, &a, &b)),
        BinOp::StrictNotEqual => Ok(strictly_equal(true, &a, &b)),
        BinOp::Mul
        | BinOp::Div
        | BinOp::Rem
        | BinOp::Sub
        | BinOp::Shl
        | BinOp::Sar
        | BinOp::Shr
        | BinOp::BitAnd
        | BinOp::BitXor
        | BinOp::BitOr => on_numbers(state, op, a, b),
    }
}
