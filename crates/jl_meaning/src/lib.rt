//! What scripts mean. The definitions of the language stand in `specs/`; here are laws about them.
#![tactic(auto)]

pub mod laws;
