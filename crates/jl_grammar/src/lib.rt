//! The grammar of scripts (clauses 11 to 14): its tables, and what a list of tokens reads as.
#![tactic(auto)]

pub mod laws;
mod operators;
mod terminal;
mod word;

pub use operators::{assign_op, binary_op, level};
pub use terminal::{Terminal, terminal_of};
pub use word::{Word, has_spelling, is_reserved, reserved_word};
