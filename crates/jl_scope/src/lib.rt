//! What is wrong with a program that was read: early errors (clause 16), names that scripts here don't have, and the
//! name of the hooks. And what a body declares and mentions (10.5, 10.6).
#![tactic(auto)]

mod checking;
mod found;
mod heads;
mod hoisting;
mod keys;
pub mod laws;
mod mentions;
mod name_set;
mod names;
mod offers;
mod refusal;
mod rules;
mod scope;
mod walk;

pub use checking::check;
pub use hoisting::{is_strict, vars};
pub use mentions::mentions_arguments;
pub use name_set::NameSet;
pub use refusal::ScopeRefusal;
pub use rules::EarlyRule;
