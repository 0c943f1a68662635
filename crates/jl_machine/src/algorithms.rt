//! Algorithms of the standard, and builtins, which go on with a value.
ghost use Rattle.jl_state.specs.Clauses.{RankAtMost, ResumesAlgorithm};
ghost use Rattle.std.specs.Prelude.{◌+◌};
ghost use Rattle.jl_state.specs.Rank.{rank_algorithm};

use crate::builtins::step_progress;
use jl_algorithm::{
    step_length_count, step_length_number, step_method, step_method_result, step_type_of,
};
use jl_operator::{
    step_equal_to, step_in, step_instance_of, step_left_compared, step_left_number,
    step_left_summand, step_number_operand, step_right_compared, step_right_number,
    step_right_summand,
};
use jl_state::{Act, AlgorithmFrame, State};
use jl_text::NoMemory;
use jl_value::Value;

/// An algorithm goes on with the value that it waited for.
pub(crate) fn step_algorithm<'p>(
    state: &mut State<'p>,
    frame: AlgorithmFrame,
    v: Value,
) -> Result<Act<'p>, NoMemory>
    ensures refines { ResumesAlgorithm state.old frame v result state.new }
    ensures bounded { RankAtMost state.old (rank_algorithm frame + 2) result state.new }
{
    match frame {
        AlgorithmFrame::Method {
            object,
            hint,
            is_second,
        } => step_method(state, object, hint, is_second, v),
        AlgorithmFrame::MethodResult {
            object,
            hint,
            is_second,
        } => step_method_result(state, object, hint, is_second, v),
        AlgorithmFrame::LeftNumber { op, right } => { step_left_number(state, op, right, v) }
        AlgorithmFrame::RightNumber { op, left } => step_right_number(state, op, left, v),
        AlgorithmFrame::LeftSummand { right } => step_left_summand(state, right, v),
        AlgorithmFrame::RightSummand { left } => step_right_summand(state, left, v),
        AlgorithmFrame::LeftCompared { op, right } => { step_left_compared(state, op, right, v) }
        AlgorithmFrame::RightCompared { op, left } => step_right_compared(state, op, left, v),
        AlgorithmFrame::EqualTo { other, is_negative } => {
            step_equal_to(state, other, is_negative, v)
        }
        AlgorithmFrame::InstanceOf { value } => step_instance_of(state, value, v),
        AlgorithmFrame::In { object } => step_in(state, object, v),
        AlgorithmFrame::NumberOperand { op } => step_number_operand(state, op, v),
        AlgorithmFrame::LengthCount {
            array,
            length,
            attributes,
            purpose,
        } => step_length_count(state, array, length, attributes, purpose, v),
        AlgorithmFrame::LengthNumber {
            array,
            count,
            attributes,
            purpose,
        } => step_length_number(state, array, count, attributes, purpose, v),
        AlgorithmFrame::TypeOf => step_type_of(state, v),
        AlgorithmFrame::Then(given) => Ok(Act::Give(given)),
        AlgorithmFrame::Builtin(progress) => step_progress(state, progress.into_inner(), v),
    }
}
