//! A script of as many functions as asked for, each called once: what `soak` lints.
#![tactic(auto)]

mod script;

pub use script::script_from;
