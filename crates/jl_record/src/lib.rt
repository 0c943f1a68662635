//! Stored runs: their text, recording a run as its text, reading the text, and showing a stored run to checkers.
#![tactic(auto)]

mod bounded;
mod cuts;
mod decimals;
mod fact;
mod facts;
pub mod laws;
mod line_facts;
mod named;
mod operations;
mod quoted;
mod read;
mod record;
mod recorder;
mod refusal;
mod replays;
mod signs;
mod value_lists;
mod values;
mod written;
mod written_lines;

pub use jl_op::NoMemory;
pub use read::read_record;
pub use record::{ReadRecordRefusal, Record};
pub use recorder::Recorder;
pub use refusal::RecordRefusal;
pub use replays::replay;
