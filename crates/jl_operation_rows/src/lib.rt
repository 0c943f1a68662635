//! Each operation of a run has a row of its kind in the map of its program: definitions and laws.
#![tactic(auto)]

pub mod laws;
