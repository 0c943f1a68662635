//! The functions of arrays (15.4).
#![tactic(auto)]

mod appending;
mod arguments;
mod arrays;
mod copying;
mod deleting;
mod frames;
mod joining;
mod lengths;
mod moving;
mod ordering;
mod places;
mod putting;
mod resuming;
mod resuming_calls;
mod reversing;
mod searching;
mod shifting;
mod slicing;
mod sorting;
mod splicing;
mod starting;
mod strings;
mod tasks;
mod walk_lengths;
mod walking;

pub use resuming::resume;
pub use resuming_calls::resume_call;
pub use starting::start;
