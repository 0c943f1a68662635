ghost use Rattle.std.specs.Prelude.{◌≡◌};
ghost use Rattle.jl_record.specs.declared.refusal.RecordRefusal.TheVariants.{NoMemory};

use std::alloc::{AllocError, AllocFailed};

/// Why a run was not recorded.
#[derive(Debug, Drop)]
pub enum RecordRefusal {
    /// The text of the run is longer than the limit.
    TooLong,
    /// No memory was left.
    NoMemory,
}

impl From<AllocError> for RecordRefusal {
    ghost from_gives = { λ _ e. e ≡ NoMemory };

    fn from(_error: AllocError) -> RecordRefusal {
        RecordRefusal::NoMemory
    }
}

impl<T: Drop> From<AllocFailed<T>> for RecordRefusal {
    ghost from_gives = { λ _ e. e ≡ NoMemory };

    fn from(_error: AllocFailed<T>) -> RecordRefusal {
        RecordRefusal::NoMemory
    }
}
