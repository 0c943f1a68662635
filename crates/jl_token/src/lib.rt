//! The tokens of a script (clause 7).
#![tactic(auto)]

pub mod laws;
mod printed;
mod punct;
mod token;

pub use printed::spelling;
pub use punct::Punct;
pub use token::{BadKind, Comment, Token, TokenKind};
