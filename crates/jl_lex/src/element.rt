//! What stands at a place of a text.
ghost use Rattle.std.specs.Prelude.{◌≡◌};
ghost use Rattle.jl_lex.specs.declared.element.Stop.TheVariants.{NoMemory};

use jl_token::{BadKind, TokenKind};
use std::alloc::{AllocError, AllocFailed};

/// An input element (7): a comment that goes to the end of its line, one between `/*` and `*/` by whether it holds a
/// line terminator, a token by its kind.
#[derive(Drop)]
pub enum Element {
    White,
    LineEnd,
    LineComment,
    BlockComment(bool),
    Word(TokenKind),
}

/// Why there is none.
#[derive(Drop)]
pub enum Stop {
    /// The element can't be formed.
    Bad(BadKind),
    /// No memory was left.
    NoMemory,
}

impl From<AllocError> for Stop {
    ghost from_gives = { λ _ e. e ≡ NoMemory };

    fn from(_error: AllocError) -> Stop {
        Stop::NoMemory
    }
}

impl<T: Drop> From<AllocFailed<T>> for Stop {
    ghost from_gives = { λ _ e. e ≡ NoMemory };

    fn from(_error: AllocFailed<T>) -> Stop {
        Stop::NoMemory
    }
}
