//! The rules on the use of objects and functions, 11 to 20, and their checkers.
//!
//! By number: 11 shadow-write, 12 mixed-new, 13 object-prototype-write, 14 odd-prototype, 15 late-prototype,
//! 16 for-in-array, 17 extra-arguments, 18 wrapper-made, 19 no-radix, 20 global-this.
#![tactic(auto)]

mod extra_arguments;
mod for_in_array;
mod global_this;
mod late_prototype;
mod mixed_new;
mod no_radix;
mod object_prototype_write;
mod odd_prototype;
mod prototype;
mod shadow_write;
mod wrapper_made;

pub use extra_arguments::{ExtraArguments, PassesExtraArguments};
pub use for_in_array::{ForInArray, VisitsArray};
pub use global_this::{GlobalThis, WritesGlobalThis};
pub use late_prototype::{LatePrototype, SetsPrototypeLate};
pub use mixed_new::{MixedNew, MixesNew};
pub use no_radix::{LacksRadix, NoRadix};
pub use object_prototype_write::{ObjectPrototypeWrite, WritesObjectPrototype};
pub use odd_prototype::{OddPrototype, SetsOddPrototype};
pub use shadow_write::{ShadowWrite, ShadowsByWrite};
pub use wrapper_made::{MakesWrapper, WrapperMade};
