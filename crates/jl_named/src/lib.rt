//! Items under names, in the order in which they were added.
#![tactic(auto)]

mod named_list;

pub use named_list::{Named, NamedList};
