//! The outside of a program: sources of bytes, sinks of bytes, and a shelf for a text.
//!
//! A source or a sink may tell its bytes, and counts its faults. Contracts over the traits hold for
//! those that tell, as the ones over memory, and for those that do not, as std's readers and writers.
#![tactic(auto)]

mod adapters;
mod memory;
mod shelf;
mod traits;
mod whole;

pub use adapters::{InSource, OutSink};
pub use memory::{MemSink, MemSource};
pub use shelf::{Same, Swapped};
pub use traits::{Failed, Shelf, Sink, Source};
pub use whole::{ReadRefusal, WriteFault, read_all, write_all};
