//! Functions called: those of the script, and those that are bound.
#![tactic(auto)]

mod bound;
mod results;
mod script;

pub use bound::call_bound;
pub use results::{step_body, step_constructed};
pub use script::{begin_script, step_instance_prototype};
