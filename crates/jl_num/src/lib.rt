//! The numbers of a script: NaN, and the whole numbers of at most 2^53 - 1 in size, with their arithmetic, their bits,
//! their order and their text.
#![tactic(auto)]

mod arithmetic;
mod bits;
pub mod laws;
mod num;
mod order;
mod power;
mod text;

pub use arithmetic::{add, div, mul, neg, rem, sub};
pub use bits::{and, not, or, sar, shl, shr, to_int32, to_uint16, to_uint32, xor};
pub use num::{LARGEST_SIZE, Num, NumberOutside};
pub use order::compare;
pub use power::pow;
pub use text::digits;
