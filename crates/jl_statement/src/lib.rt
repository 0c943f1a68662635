//! Statements: what they begin with, and how they go on.
#![tactic(auto)]

mod beginning;
mod choices;
mod completions;
mod executing;
mod for_in;
mod heads;
mod jumps;
mod loops;
mod stepping;
mod stored;
mod switches;
mod tries;
mod variables;
mod visits;

pub use beginning::begin_statement;
pub use executing::begin_statements;
pub use stepping::{step_completion, step_statement};
