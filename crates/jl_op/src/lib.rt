//! The operations of a run: their kinds, their map, their lines in a trace, and who is told of them.
#![tactic(auto)]

mod callee;
mod found;
mod kind;
mod kind_set;
pub mod laws;
mod line;
mod map;
mod observer;
mod op;
mod sign;
mod trace;

pub use callee::Callee;
pub use found::Found;
pub use jl_text::NoMemory;
pub use kind::OpKind;
pub use kind_set::KindSet;
pub use map::{OpMap, map_text};
pub use observer::{Nobody, Observer};
pub use op::{Op, OpId};
pub use sign::{UnKind, binary_sign, unary_kind, update_kind};
pub use trace::op_text;
