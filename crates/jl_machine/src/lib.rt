//! The machine that runs scripts: its loop.
#![tactic(auto)]

mod advancing;
mod algorithms;
mod builtins;
mod calls;
mod ending;
mod handing;
pub mod laws;
mod running;
mod starting;
mod telling;

pub use ending::Run;
pub use running::run;
