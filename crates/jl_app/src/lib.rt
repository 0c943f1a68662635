//! The commands of jlint: a script in, its answer out.
#![tactic(auto)]

mod accept;
mod answer;
mod check;
mod comparison;
mod cover;
mod execute;
mod form;
mod instrument;
pub mod laws;
mod lint;
mod listing;
mod objects;
mod position;
mod print;
mod read_back;
mod recording;
mod refusal;
mod replay;
mod report;
mod run;
mod source;
mod srcmap;
mod status;
mod top;
mod trace;
mod tracer;
mod unmap;
mod woven_run;

pub use answer::Answer;
pub use comparison::{RunAndLint, run_and_lint};
pub use status::Status;
pub use top::{answer_to, jlint, most_read, too_long};
