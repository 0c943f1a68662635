//! The addition operator (11.6.1).
ghost use Rattle.std.specs.Prelude.{◌≡◌, ◌≤◌, ◌||◌, [], IfOk};
ghost use Rattle.jl_conv.specs.Conversions.{number_of_value, text_of_value};
ghost use Rattle.jl_meaning.specs.Errors.{string_within};
ghost use Rattle.jl_meaning.specs.Operators.{is_string, sum, sum_of_primitives};
ghost use Rattle.jl_meaning.specs.Parts.{give, ◌>>=◌ as ◌then◌};
ghost use Rattle.jl_num.specs.Arithmetic.{sum_of};
ghost use Rattle.jl_operator.specs.inner.Sums.{sum_of_numbers, text_of_texts};
ghost use Rattle.jl_state.specs.Clauses.{Computes, RankAtMost, ResumesAlgorithm};
ghost use Rattle.jl_state.specs.Rank.{rank_act};
ghost use Rattle.jl_state.specs.Rest.{RefinesAlgorithm};
ghost use Rattle.jl_state.specs.declared.state.State.{State as Machine};

use crate::numbers::{give_number, number_of};
use jl_algorithm::to_primitive;
use jl_conv::primitive_to_text;
use jl_num::add;
use jl_state::{Act, AlgorithmFrame, Hint, State};
use jl_text::{NoMemory, Text, TextFault};
use jl_value::{Fault, Value, is_object};
use std::alloc::Global;

fn is_string(v: &Value) -> bool
    ensures { result ≡ is_string v.now }
{
    matches!(v, Value::Text(_))
}

/// Whether two primitive values are added as strings (11.6.1, step 7).
fn are_texts(x: &Value, y: &Value) -> bool
    ensures { result ≡ (is_string x.now || is_string y.now) }
{
    is_string(x) || is_string(y)
}

/// ToString of a primitive value (9.8); that of an object, which no conversion gives, is empty.
pub fn text_of(alloc: Global, p: &Value) -> Result<Text, NoMemory>
    ensures { IfOk result (λ text. text ≡ text_of_value p.now) }
{
    match p {
        Value::Obj(_) => no_text(alloc),
        _ => primitive_to_text(alloc, p),
    }
}

/// The empty text.
fn no_text(alloc: Global) -> Result<Text, NoMemory>
    ensures { IfOk result (λ text. text ≡ []) }
{
    match Text::from_units(alloc, &[]) {
        Ok(text) => Ok(text),
        Err(TextFault::TooLong | TextFault::NoMemory) => Err(NoMemory),
    }
}

/// Two texts, one after the other.
fn concatenate<'p>(alloc: Global, front: &Text, back: &Text) -> Result<Act<'p>, NoMemory>
    ensures refines { IfOk result (λ act. (s : Machine) → RefinesAlgorithm s (text_of_texts front.now back.now) s act) }
    ensures low { IfOk result (λ act. rank_act act ≤ 2) }
{
    match Text::concat(alloc, front, back) {
        Ok(text) => Ok(Act::Give(Value::Text(text))),
        Err(TextFault::TooLong) => Ok(Act::Fault(Fault::StringTooLong)),
        Err(TextFault::NoMemory) => Err(NoMemory),
    }
}

/// The sum of two primitive values as numbers (11.6.1, step 8).
fn sum_of_numbers<'p>(x: &Value, y: &Value) -> Act<'p>
    ensures refines { (s : Machine) → RefinesAlgorithm s (sum_of_numbers x.now y.now) s result }
    ensures low { rank_act result ≤ 2 }
{
    match (number_of(x), number_of(y)) {
        (Ok(x), Ok(y)) => give_number(add(x, y)),
        _ => Act::Fault(Fault::NumberOutside),
    }
}

/// The sum of two primitive values (11.6.1, steps 7 and 8).
fn sum_of_primitives<'p>(alloc: Global, x: &Value, y: &Value) -> Result<Act<'p>, NoMemory>
    ensures refines { IfOk result (λ act. (s : Machine) → RefinesAlgorithm s (sum_of_primitives x.now y.now) s act) }
    ensures low { IfOk result (λ act. rank_act act ≤ 2) }
{
    if are_texts(x, y) {
        let front = text_of(alloc, x)?;
        let back = text_of(alloc, y)?;
        concatenate(alloc, &front, &back)
    } else {
        Ok(sum_of_numbers(x, y))
    }
}

/// Goes on with the left summand, which is converted first.
pub fn step_left_summand<'p>(
    state: &mut State<'p>,
    right: Value,
    v: Value,
) -> Result<Act<'p>, NoMemory>
    ensures refines { ResumesAlgorithm state.old (AlgorithmFrame.LeftSummand right) v result state.new }
    ensures bounded { RankAtMost state.old 22 result state.new }
{
    if is_object(&right) {
        state.push_algorithm(AlgorithmFrame::RightSummand { left: v })?;
        to_primitive(state, right, Hint::None)
    } else {
        step_right_summand(state, v, right)
    }
}

/// Goes on with the right summand.
pub fn step_right_summand<'p>(
    state: &mut State<'p>,
    left: Value,
    v: Value,
) -> Result<Act<'p>, NoMemory>
    ensures refines { ResumesAlgorithm state.old (AlgorithmFrame.RightSummand left) v result state.new }
    ensures bounded { RankAtMost state.old 5 result state.new }
{
    let alloc = state.alloc();
    sum_of_primitives(alloc, &left, &v)
}

/// `a + b` (11.6.1).
pub(crate) fn sum<'p>(state: &mut State<'p>, a: Value, b: Value) -> Result<Act<'p>, NoMemory>
    ensures refines { Computes state.old (sum a b) result state.new }
    ensures bounded { RankAtMost state.old 40 result state.new }
{
    if is_object(&a) {
        state.push_algorithm(AlgorithmFrame::LeftSummand { right: b })?;
        to_primitive(state, a, Hint::None)
    } else {
        step_left_summand(state, b, a)
    }
}
