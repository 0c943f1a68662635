//! The store of a run, its objects and environments, and the algorithms of the standard that call no function.
#![tactic(auto)]

mod answer;
mod arguments;
mod bindings;
mod changes;
mod declarations;
mod defining;
mod environments;
mod errors;
mod found;
mod functions;
mod globals;
mod inner;
mod names;
mod objects;
mod paths;
mod properties;
mod prototypes;
mod putting;
mod store;
mod words;

pub use answer::{AlgorithmFault, Answer, Finished};
pub use declarations::Declared;
pub use environments::Bound;
pub use errors::NotDefined;
pub use found::{Found, Property, can_put};
pub use inner::{has_call, has_construct, script_number};
pub use names::Reference;
pub use paths::last_part;
pub use store::Store;
pub use words::{count, index_name};
