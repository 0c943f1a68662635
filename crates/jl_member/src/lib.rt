//! Names and members as expressions: read, under `typeof`, deleted, assigned and updated.
#![tactic(auto)]

mod assigned_members;
mod assigned_names;
mod deleted_members;
mod members;
mod nexts;
mod put_members;
mod read_members;
mod read_names;
mod updated_members;
mod updated_names;

pub use assigned_members::{
    assign_by_key, assign_member, step_assign_dot_base, step_assign_index_base,
    step_assign_index_key, step_compute_member, step_compute_member_operand,
};
pub use assigned_names::{
    assign_name, compute_name, step_compute_name, step_compute_name_operand, step_write_name,
};
pub use deleted_members::{
    delete_by_key, delete_member, step_delete_dot_base, step_delete_index_base,
    step_delete_index_key, step_delete_value,
};
pub use members::{member_name, quick_key};
pub use put_members::{put_member, step_put_member};
pub use read_members::{
    get_by_key, get_member, read_member, step_dot_base, step_index_base, step_index_key,
};
pub use read_names::{delete_name, read_name, typeof_name};
pub use updated_members::{
    step_update_dot_base, step_update_index_base, step_update_index_key, step_update_member,
    step_update_member_primitive, update_by_key, update_member,
};
pub use updated_names::{step_update_name, step_update_name_primitive, update_name};
