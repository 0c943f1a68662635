//! Literals, and operators that wait for operands (clause 11, 7.8).
#![tactic(auto)]

mod array_literals;
mod literals;
mod object_literals;
mod operators;

pub use array_literals::{begin_array, step_element};
pub use literals::{begin_function, give_boolean, give_null, give_number, give_text};
pub use object_literals::{begin_object, step_entries, step_entry_value};
pub use operators::{
    step_and, step_comma, step_conditional, step_left_operand, step_operand, step_or,
    step_right_operand,
};
