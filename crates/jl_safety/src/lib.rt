//! No run of an accepted script, or of its woven one, ends by the fault Misuse: definitions and laws.
#![tactic(auto)]

pub mod laws;
