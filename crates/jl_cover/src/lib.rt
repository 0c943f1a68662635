//! Coverage: the functions that a run never entered, and the conditions that were never true or never false.
#![tactic(auto)]

mod cover;
mod kinds;
pub mod laws;
mod missed;
mod totals;

pub use cover::Cover;
pub use jl_op::NoMemory;
pub use kinds::covered_kinds;
pub use missed::{Gap, Missed, missed_text};
pub use totals::Totals;
