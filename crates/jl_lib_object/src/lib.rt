//! The builtins of objects and functions (15.2, 15.3).
#![tactic(auto)]

mod binding;
mod calling;
mod defining;
mod describing;
mod descriptors;
mod function_text;
mod integrity;
mod objects;
mod own_names;
mod own_tests;
mod resuming;
mod starting;
mod waiting;

pub use resuming::{resume_function, resume_object};
pub use starting::{start_function, start_object};
