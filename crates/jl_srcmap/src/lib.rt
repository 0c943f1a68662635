//! Source maps (revision 3): which places of a rewritten script come from which places of the script.
#![tactic(auto)]

mod hooks;
pub mod laws;
mod quantity;
mod read;
mod refusal;
mod running;
mod segment;
mod source_map;
mod write;

pub use hooks::origins;
pub use jl_text::NoMemory;
pub use read::read_mappings;
pub use refusal::MapRefusal;
pub use segment::{Origin, Segment, segment_text};
pub use source_map::{read_json, write_json};
pub use write::write_mappings;
