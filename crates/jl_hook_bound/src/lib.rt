//! Hooks emit no more operations than a run takes steps: definitions and laws.
#![tactic(auto)]

pub mod laws;
