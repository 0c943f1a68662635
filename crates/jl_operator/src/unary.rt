//! Operators on one operand (11.3, 11.4).
ghost use Rattle.std.specs.Prelude.{◌≡◌, ◌≤◌, None, if◌then◌else◌};
ghost use Rattle.std.specs.Result.{result_ok};
ghost use Rattle.jl_meaning.specs.Conversions.{to_number};
ghost use Rattle.jl_meaning.specs.Operators.{give_next, next_after, unary_result};
ghost use Rattle.jl_meaning.specs.Parts.{◌>>=◌ as ◌then◌};
ghost use Rattle.jl_state.specs.AlgorithmFrames.{number_operand};
ghost use Rattle.jl_state.specs.Clauses.{Computes, RankAtMost, ResumesAlgorithm};
ghost use Rattle.jl_state.specs.Rank.{rank_act};
ghost use Rattle.jl_state.specs.Rest.{RefinesAlgorithm};
ghost use Rattle.jl_state.specs.declared.state.State.{State as Machine};

use crate::numbers::{give_number, number_of};
use jl_algorithm::to_primitive;
use jl_conv::{to_boolean, type_name};
use jl_num::{Num, NumberOutside, add, neg, not, sub};
use jl_op::UnKind;
use jl_state::{Act, AlgorithmFrame, Hint, State};
use jl_text::{NoMemory, word};
use jl_value::{Fault, Value, is_object};

/// The number after another one, or before it with `UnKind::Down` (11.3, 11.4.4, 11.4.5). Refused exactly where it is
/// no number of a script.
pub fn next_number(op: UnKind, n: Num) -> Result<Num, NumberOutside>
    ensures { result_ok result ≡ next_after op n }
{
    let one = Num::new(1)?;
    match op {
        UnKind::Down => sub(n, one),
        _ => add(n, one),
    }
}

/// The new value of `++`, or of `--` with `UnKind::Down`, for a number that it was (11.3, 11.4.4, 11.4.5).
pub fn give_next<'p>(op: UnKind, n: Num) -> Act<'p>
    ensures refines { (s : Machine) → RefinesAlgorithm s (give_next op n) s result }
    ensures low { rank_act result ≤ 2 }
{
    give_number(next_number(op, n))
}

/// What an operator makes of a number.
fn number_operand<'p>(op: UnKind, n: Num) -> Act<'p>
    ensures refines { (s : Machine) → RefinesAlgorithm s (number_operand op n) s result }
    ensures low { rank_act result ≤ 2 }
{
    match op {
        UnKind::Minus => Act::Give(Value::Num(neg(n))),
        UnKind::Tilde => Act::Give(Value::Num(not(n))),
        UnKind::Up => give_next(UnKind::Up, n),
        UnKind::Down => give_next(UnKind::Down, n),
        _ => Act::Give(Value::Num(n)),
    }
}

/// Goes on with the operand of an operator on a number, which is converted first.
pub fn step_number_operand<'p>(
    state: &mut State<'p>,
    op: UnKind,
    v: Value,
) -> Result<Act<'p>, NoMemory>
    ensures refines { ResumesAlgorithm state.old (AlgorithmFrame.NumberOperand op) v result state.new }
    ensures bounded { RankAtMost state.old 5 result state.new }
{
    match number_of(&v) {
        Ok(n) => Ok(number_operand(op, n)),
        Err(NumberOutside) => Ok(Act::Fault(Fault::NumberOutside)),
    }
}

/// An operator on a number.
fn on_number<'p>(state: &mut State<'p>, op: UnKind, v: Value) -> Result<Act<'p>, NoMemory>
    ensures refines { Computes state.old (to_number v then number_operand op) result state.new }
    ensures bounded { RankAtMost state.old 40 result state.new }
{
    if is_object(&v) {
        state.push_algorithm(AlgorithmFrame::NumberOperand { op })?;
        to_primitive(state, v, Hint::Number)
    } else {
        step_number_operand(state, op, v)
    }
}

/// An operator on one operand (11.3, 11.4).
#[tactic(auto, unfolding(jl_meaning::specs::Operators::unary_result))]
pub fn unary_result<'p>(state: &mut State<'p>, op: UnKind, v: Value) -> Result<Act<'p>, NoMemory>
    ensures refines { Computes state.old (unary_result op v) result state.new }
    ensures bounded { RankAtMost state.old 40 result state.new }
{
    let alloc = state.alloc();
    match op {
        UnKind::Minus | UnKind::Plus | UnKind::Tilde | UnKind::Up | UnKind::Down => {
            on_number(state, op, v)
        }
        UnKind::Not => Ok(Act::Give(Value::Bool(!to_boolean(&v)))),
        UnKind::Typeof => {
            let name = type_name(&v, state.store.is_callable(&v));
            Ok(Act::Give(Value::Text(word(alloc, name)?)))
        }
        UnKind::Void => Ok(Act::Give(Value::Undefined)),
    }
}
