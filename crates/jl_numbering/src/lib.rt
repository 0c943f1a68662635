//! Numbers the functions of a program.
#![tactic(auto)]

mod numbers;

pub use numbers::number;
