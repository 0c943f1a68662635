//! What values convert to, and how they compare (clause 9, 11.4.3, 11.8.5, 11.9), as far as no object is converted.
#![tactic(auto)]

mod comparisons;
mod conversions;
mod decimal;
pub mod laws;
mod numerals;
mod spaces;

pub use comparisons::{primitive_equal, primitive_less, strict_equal};
pub use conversions::{primitive_to_num, primitive_to_text, to_boolean, type_name};
pub use numerals::text_to_num;
pub use spaces::{without_end, without_front};
