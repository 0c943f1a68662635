//! The builtins of the global object, of numbers, booleans, errors and Math (15.1, 15.6, 15.7, 15.8, 15.11).
#![tactic(auto)]

mod booleans;
mod errors;
mod globals;
mod math;
mod numbers;
mod parsing;
mod printing;
mod several;
mod starting;

pub use errors::resume_error;
pub use globals::resume_global;
pub use starting::{
    resume_number, start_boolean, start_error, start_global, start_math, start_number,
};
