//! The parser (clauses 11 to 14): the program that a list of tokens is, or a place that shows why there is none.
#![tactic(auto)]

mod clauses;
mod depth;
mod expressions;
mod functions;
mod loops;
mod nodes;
mod operators;
mod part;
mod primary;
mod refusal;
mod statement_nodes;
mod statements;
mod terminals;
mod tokens;
mod whole;

pub use refusal::ParseRefusal;
pub use whole::parse;
