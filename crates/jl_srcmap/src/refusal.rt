use std::alloc::{AllocError, AllocFailed};
use thiserror::Error;

/// Why a source map gives no segments.
#[derive(Debug, Drop, Error)]
pub enum MapRefusal {
    /// The bytes are no JSON.
    #[error("no JSON")]
    MapJson,
    /// The JSON is no source map of revision 3 with one mappings text.
    #[error("no source map")]
    MapShape,
    /// A piece of the mappings text is no segment: the first such piece begins at this byte of the text.
    #[error("no segment at byte {at} of the mappings")]
    BadSegment { at: usize },
    /// No memory was left.
    #[error("out of memory")]
    NoMemory,
}

impl From<AllocError> for MapRefusal {
    ghost use Rattle.std.specs.Prelude.{◌≡◌};
    ghost use Rattle.jl_srcmap.specs.declared.refusal.MapRefusal.TheVariants.{NoMemory};

    ghost from_gives = { λ _ e. e ≡ NoMemory };

    fn from(_error: AllocError) -> MapRefusal {
        MapRefusal::NoMemory
    }
}

impl<T: Drop> From<AllocFailed<T>> for MapRefusal {
    ghost use Rattle.std.specs.Prelude.{◌≡◌};
    ghost use Rattle.jl_srcmap.specs.declared.refusal.MapRefusal.TheVariants.{NoMemory};

    ghost from_gives = { λ _ e. e ≡ NoMemory };

    fn from(_error: AllocFailed<T>) -> MapRefusal {
        MapRefusal::NoMemory
    }
}
