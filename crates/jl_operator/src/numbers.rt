//! Operators on two numbers (11.5, 11.6.2, 11.7, 11.10).
ghost use Rattle.std.specs.Prelude.{◌≡◌, ◌≤◌};
ghost use Rattle.std.specs.Result.{result_ok};
ghost use Rattle.jl_conv.specs.Conversions.{number_of_value};
ghost use Rattle.jl_meaning.specs.Conversions.{to_number};
ghost use Rattle.jl_meaning.specs.Operators.{give_number, on_numbers};
ghost use Rattle.jl_meaning.specs.Parts.{◌>>=◌ as ◌then◌};
ghost use Rattle.jl_state.specs.AlgorithmFrames.{number_result};
ghost use Rattle.jl_state.specs.Clauses.{Computes, RankAtMost, ResumesAlgorithm};
ghost use Rattle.jl_state.specs.Rank.{rank_act};
ghost use Rattle.jl_state.specs.Rest.{RefinesAlgorithm};
ghost use Rattle.jl_state.specs.declared.state.State.{State as Machine};

use jl_algorithm::to_primitive;
use jl_ast::BinOp;
use jl_conv::primitive_to_num;
use jl_num::{Num, NumberOutside, and, div, mul, or, rem, sar, shl, shr, sub, xor};
use jl_state::{Act, AlgorithmFrame, Hint, State};
use jl_text::NoMemory;
use jl_value::{Fault, Value, is_object};

/// ToNumber of a primitive value (9.3). Refused for an object, too, which no conversion gives.
pub fn number_of(p: &Value) -> Result<Num, NumberOutside>
    ensures { result_ok result ≡ number_of_value p.now }
{
    match p {
        Value::Obj(_) => Err(NumberOutside),
        _ => primitive_to_num(p),
    }
}

/// The number is given that an operator came to.
pub(crate) fn give_number<'p>(outcome: Result<Num, NumberOutside>) -> Act<'p>
    ensures refines { (s : Machine) → RefinesAlgorithm s (give_number (result_ok outcome)) s result }
    ensures low { rank_act result ≤ 2 }
{
    match outcome {
        Ok(n) => Act::Give(Value::Num(n)),
        Err(NumberOutside) => Act::Fault(Fault::NumberOutside),
    }
}

/// What an operator makes of two numbers.
fn number_result(op: BinOp, x: Num, y: Num) -> Result<Num, NumberOutside>
    ensures { result_ok result ≡ number_result op x y }
{
    match op {
        BinOp::Mul => mul(x, y),
        BinOp::Div => div(x, y),
        BinOp::Rem => Ok(rem(x, y)),
        BinOp::Sub => sub(x, y),
        BinOp::Shl => Ok(shl(x, y)),
        BinOp::Sar => Ok(sar(x, y)),
        BinOp::Shr => Ok(shr(x, y)),
        BinOp::BitAnd => Ok(and(x, y)),
        BinOp::BitXor => Ok(xor(x, y)),
        BinOp::BitOr => Ok(or(x, y)),
        _ => Err(NumberOutside),
    }
}

/// An operator on two numbers, of which the left one is known.
fn with_left<'p>(
    state: &mut State<'p>,
    op: BinOp,
    left: Num,
    right: Value,
) -> Result<Act<'p>, NoMemory>
    ensures refines { Computes state.old (to_number right then (λ y. give_number (number_result op left y))) result
        state.new }
    ensures bounded { RankAtMost state.old 22 result state.new }
{
    if is_object(&right) {
        state.push_algorithm(AlgorithmFrame::RightNumber { op, left })?;
        to_primitive(state, right, Hint::Number)
    } else {
        step_right_number(state, op, left, right)
    }
}

/// Goes on with the left operand of an operator on two numbers, which is converted first.
pub fn step_left_number<'p>(
    state: &mut State<'p>,
    op: BinOp,
    right: Value,
    v: Value,
) -> Result<Act<'p>, NoMemory>
    ensures refines { ResumesAlgorithm state.old (AlgorithmFrame.LeftNumber op right) v result state.new }
    ensures bounded { RankAtMost state.old 22 result state.new }
{
    match number_of(&v) {
        Ok(x) => with_left(state, op, x, right),
        Err(NumberOutside) => Ok(Act::Fault(Fault::NumberOutside)),
    }
}

/// Goes on with the right operand of an operator on two numbers.
pub fn step_right_number<'p>(
    state: &mut State<'p>,
    op: BinOp,
    left: Num,
    v: Value,
) -> Result<Act<'p>, NoMemory>
    ensures refines { ResumesAlgorithm state.old (AlgorithmFrame.RightNumber op left) v result state.new }
    ensures bounded { RankAtMost state.old 5 result state.new }
{
    match number_of(&v) {
        Ok(y) => Ok(give_number(number_result(op, left, y))),
        Err(NumberOutside) => Ok(Act::Fault(Fault::NumberOutside)),
    }
}

/// An operator on two numbers (11.5, 11.6.2, 11.7, 11.10). Here as in the other operators no frame waits for an operand
/// that is no object, since its conversion calls nothing.
pub(crate) fn on_numbers<'p>(
    state: &mut State<'p>,
    op: BinOp,
    a: Value,
    b: Value,
) -> Result<Act<'p>, NoMemory>
    ensures refines { Computes state.old (on_numbers (number_result op) a b) result state.new }
    ensures bounded { RankAtMost state.old 40 result state.new }
{
    if is_object(&a) {
        state.push_algorithm(AlgorithmFrame::LeftNumber { op, right: b })?;
        to_primitive(state, a, Hint::Number)
    } else {
        step_left_number(state, op, b, a)
    }
}
