//! The builtins of strings (15.5).
#![tactic(auto)]

mod casing;
mod codes;
mod constructing;
mod cutting;
mod joining;
mod methods;
mod places;
mod positions;
mod splitting;
mod starting;
mod texts;

pub use methods::start_method;
pub use starting::{resume, start};
