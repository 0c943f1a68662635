//! Runs of scripts as they look from their hooks: definitions, and the laws that they don't depend on ids.
#![tactic(auto)]

pub mod laws;
