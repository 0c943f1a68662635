//! What builtins share: arguments, integers, indices and elements (clause 15).
#![tactic(auto)]

mod arguments;
mod elements;
mod filling;
mod integers;
mod lists;
mod turns;
mod waiting;

pub use arguments::{argument, need_function, need_object};
pub use elements::{delete_index, get_index, has_index, put_index, put_length};
pub use filling::{add_index, fault_of, fill_array};
pub use integers::{
    clamp, index_or_none, integer_of, length_of, number_of_primitive, relative_index,
};
pub use lists::{continuation_of, copy_of, value_from, with_units, with_values};
pub use turns::{give_text, go_on, unsupported};
pub use waiting::{wait_for_number, wait_for_string};
