//! Calls as expressions, and what hooks do.
#![tactic(auto)]

mod arguments;
mod callees;
mod closing;
mod hooks;
mod invoking;
mod keys;
mod leaves;
mod notes;
mod openers;
mod targets;
mod telling;
mod updating;
mod values;
mod waiting;

pub use arguments::{start_arguments, step_argument};
pub use callees::{
    step_callee, step_callee_dot_base, step_callee_index_base, step_callee_index_key,
};
pub use closing::{step_compute_pending, step_method_pending};
pub use invoking::invoke;
pub use keys::step_key;
pub use telling::resume_emit;
pub use updating::step_update_operand_primitive;
