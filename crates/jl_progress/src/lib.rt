//! What builtins keep while they wait for a value (clause 15).
#![tactic(auto)]

mod array;
mod array_call;
mod error;
mod function;
mod global;
mod number;
mod object;
mod progress;
mod string;

pub use array::{
    AfterCopying, AfterMoving, AfterPutting, ArrayProgress, Copying, Joining, LengthFunction,
    Moving, Reading, Reversing, Splicing,
};
pub use array_call::{ArrayCallProgress, Direction, LengthFor, Task, Walk, WalkFor};
pub use error::ErrorProgress;
pub use function::FunctionProgress;
pub use global::{GlobalProgress, NumberTest};
pub use number::{Extreme, NumberFunction, NumberProgress};
pub use object::{DescriptorField, DescriptorUse, Integrity, NamedChange, ObjectProgress, OwnTest};
pub use progress::Progress;
pub use string::{Cut, Search, StringProgress, UnitForm};
