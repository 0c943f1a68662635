//! What parts of a program do, as trees of effects; their runs, and laws about these.
#![tactic(auto)]

pub mod laws;
