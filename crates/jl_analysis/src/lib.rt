//! Checkers: what each keeps of the operations that it is told of, by its rule, and a crowd of boxed ones.
#![tactic(auto)]

mod analysis;
mod checker;
mod crowd;
mod findings;
mod kinds_needed;
pub mod laws;
mod names;
mod rule;
mod rule_set;
mod tally;
pub mod values;

pub use analysis::Analysis;
pub use checker::Checker;
pub use crowd::{Crowd, CrowdRefusal};
pub use findings::Findings;
pub use jl_text::NoMemory;
pub use kinds_needed::needs;
pub use names::{RULE_COUNT, rule_name, rule_named};
pub use rule::Rule;
pub use rule_set::RuleSet;
pub use tally::Tally;
