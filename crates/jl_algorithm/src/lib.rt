//! The algorithms of the standard that may call functions: what they ask of the machine.
#![tactic(auto)]

mod defining;
mod deleting;
mod errors;
mod getting;
mod hooks;
mod leaf;
mod lengths;
mod names;
mod primitive;
mod putting;

pub use defining::define_own_property;
pub use deleting::delete;
pub use errors::throw_native;
pub use getting::get;
pub use hooks::is_hooks;
pub use leaf::leaf_value;
pub use lengths::{is_count, step_length_count, step_length_number};
pub use names::{
    delete_name, get_name, get_value, put_name, put_value, step_type_of, type_of_name,
};
pub use primitive::{step_method, step_method_result, to_primitive};
pub use putting::{plain_change, put, value_change};
