//! That the woven script reads back from its canonical text: it is well formed, not much higher than the script, and
//! breaks no rule.
#![tactic(auto)]

pub mod laws;
