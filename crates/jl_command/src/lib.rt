//! The words of the command line, and the command that they ask for.
#![tactic(auto)]

mod command;
mod command_names;
mod numbers;
mod rule_names;
mod words;

pub use command::Command;
pub use words::{WordsRefusal, parse_words};
