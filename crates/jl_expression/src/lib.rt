//! Expressions: what they begin with, and how they go on.
#![tactic(auto)]

mod beginning;
mod boxes;
mod calls;
mod operands;
mod stepping;

pub use beginning::begin_expression;
pub use stepping::step_value;
