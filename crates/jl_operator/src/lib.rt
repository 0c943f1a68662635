//! Operators: what they do with their operands (11.3 to 11.10).
#![tactic(auto)]

mod binary;
mod equality;
mod instances;
mod numbers;
mod operated;
mod relations;
mod sums;
mod unary;

pub use binary::binary_result;
pub use equality::step_equal_to;
pub use instances::{step_in, step_instance_of};
pub use numbers::{number_of, step_left_number, step_right_number};
pub use operated::{
    emit, emit_for, operate, operate_on, step_emit_binary, step_emit_get, step_emit_invoke,
    step_emit_unary,
};
pub use relations::{step_left_compared, step_right_compared};
pub use sums::{step_left_summand, step_right_summand, text_of};
pub use unary::{give_next, next_number, step_number_operand, unary_result};
