//! The woven script: each operation of a chosen kind is a call of a hook, which does the same and tells of it. Here are
//! the definitions, and the law that it does what the script does.
#![tactic(auto)]

pub mod laws;
