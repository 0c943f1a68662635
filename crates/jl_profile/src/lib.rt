//! The object profile: where a run makes objects, and which of them it never uses.
#![tactic(auto)]

mod births;
mod kinds;
pub mod laws;
mod profile;
mod rows;
mod total;

pub use births::{Births, Way, births_text};
pub use jl_op::NoMemory;
pub use kinds::profiled_kinds;
pub use profile::Profile;
pub use total::{Total, sums};
