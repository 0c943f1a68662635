//! The objects of a running script (8.6): their classes, prototypes, inner parts and own properties.
#![tactic(auto)]

mod absent;
mod array;
mod change_header;
mod define;
mod define_array;
mod describe;
mod find;
mod header;
mod heap;
mod inner;
pub mod laws;
mod lengths;
mod new_object;
mod property;
mod put;
mod revise;
mod shorten;

pub use array::is_length_name;
pub use heap::Heap;
pub use inner::Inner;
pub use property::{Change, Defined, Prop};
