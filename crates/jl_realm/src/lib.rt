//! What a run begins with: the functions of the script, what the program declares, and the objects that are there.
#![tactic(auto)]

mod builtins;
mod declaring;
mod function_walk;
mod initial;
mod steps;

pub use declaring::declare_program;
pub use function_walk::functions;
pub use initial::initial_store;
