//! The values of a running script (clause 8), and how a statement and a run may end.
#![tactic(auto)]

mod builtin;
mod builtin_groups;
mod builtin_table;
mod ending;
mod error_kind;
mod index;
pub mod laws;
mod object;
mod same;
mod text;
mod value;

pub use builtin::{Builtin, Holder};
pub use builtin_groups::{
    ArrayBuiltin, BooleanBuiltin, ErrorBuiltin, FunctionBuiltin, GlobalBuiltin,
    LeftOutStringMethod, MathBuiltin, NumberBuiltin, ObjectBuiltin, StringBuiltin, StringMethod,
};
pub use ending::{Completion, Fault, Outcome};
pub use error_kind::ErrorKind;
pub use index::array_index;
pub use jl_text::NoMemory;
pub use object::{Class, ObjId};
pub use same::same_value;
pub use value::{Seen, Value, is_nothing, is_object, is_undefined, share, share_optional};
