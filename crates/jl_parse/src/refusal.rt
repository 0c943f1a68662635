ghost use Rattle.std.specs.Prelude.{◌≡◌};
ghost use Rattle.jl_parse.specs.declared.refusal.Stop.TheVariants.{NoMemory};

use std::alloc::{AllocError, AllocFailed};
use thiserror::Error;

/// Why no program is read.
#[derive(Debug, Drop, Error)]
pub enum ParseRefusal {
    /// The tokens are no program within the limit: no more can be read at this unit of the source, where a token begins
    /// or the last one ends.
    #[error("no program can be read on at unit {at}")]
    Unreadable { at: u32 },
    /// No memory was left.
    #[error("out of memory")]
    NoMemory,
}

impl From<AllocError> for ParseRefusal {
    ghost use Rattle.jl_parse.specs.declared.refusal.ParseRefusal.TheVariants as ParseRefusal;

    ghost from_gives = { λ _ e. e ≡ ParseRefusal.NoMemory };

    fn from(_error: AllocError) -> ParseRefusal {
        ParseRefusal::NoMemory
    }
}

/// Why a part is not read.
#[derive(Debug, Drop)]
pub enum Stop {
    /// Nothing can be read at the token with this index.
    At(usize),
    /// No memory was left.
    NoMemory,
}

impl From<AllocError> for Stop {
    ghost from_gives = { λ _ e. e ≡ NoMemory };

    fn from(_error: AllocError) -> Stop {
        Stop::NoMemory
    }
}

impl<T: Drop> From<AllocFailed<T>> for Stop {
    ghost from_gives = { λ _ e. e ≡ NoMemory };

    fn from(_error: AllocFailed<T>) -> Stop {
        Stop::NoMemory
    }
}

/// What was read, and the place after it.
pub type Read<T> = Result<(T, usize), Stop>;
