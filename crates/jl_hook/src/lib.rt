//! Calls of hooks: which calls look like one, and what they ask for.
#![tactic(auto)]

mod hook_calls;
mod hook_names;
mod signs;

pub use hook_calls::{
    HookCall, OpenerCall, form_of, form_of_member, hook_call, opener_call, takes_arguments,
};
pub use hook_names::{CalleeForm, HookShape, OpenerShape, PlainHook, WordedHook};
