//! Scripts whose runs are computed from the definitions of the language, and compared with what the standard, or
//! another engine, says. Everything is in proofs/: a wrong definition is refused there.
#![tactic(auto)]
