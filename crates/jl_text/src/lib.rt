//! Lists, texts of UTF-16 units, their encodings, and places in a source.
#![tactic(auto)]

mod encoding;
mod ends;
pub mod laws;
mod lines;
mod list;
mod period;
mod quoting;
mod search;
mod span;
mod spelling;
mod text;
mod words;

pub use encoding::{Utf8Fault, from_utf8, to_utf8};
pub use lines::Lines;
pub use list::List;
pub use quoting::quote;
pub use span::Span;
pub use spelling::is_spelled;
pub use std::alloc::AllocError as NoMemory;
pub use text::{MOST_UNITS, Text, TextFault};
pub use words::{ascii, word};
