ghost use Rattle.std.specs.Prelude.{◌≡◌};
ghost use Rattle.jl_record.specs.declared.record.ReadRecordRefusal.TheVariants.{NoMemory};

use jl_op::{Op, OpId, OpKind};
use jl_report::Off;
use std::alloc::{AllocError, AllocFailed};

/// A stored run: the rows of its map with the lines and columns of their places, what was switched off, and its
/// operations.
#[derive(Drop)]
pub struct Record {
    pub rows: Vec<(OpKind, u32, u32)>,
    pub off: Off,
    pub ops: Vec<(OpId, Op)>,
}

/// Why units were not read as a stored run.
#[derive(Debug, Drop)]
pub enum ReadRecordRefusal {
    /// They are the text of none. The line is the first that, with all before it, begins no text of one; where there is
    /// none, the text ends too early, and it is one more than the number of LFs.
    BadRecord { line: u64 },
    /// No memory was left.
    NoMemory,
}

impl From<AllocError> for ReadRecordRefusal {
    ghost from_gives = { λ _ e. e ≡ NoMemory };

    fn from(_error: AllocError) -> ReadRecordRefusal {
        ReadRecordRefusal::NoMemory
    }
}

impl<T: Drop> From<AllocFailed<T>> for ReadRecordRefusal {
    ghost from_gives = { λ _ e. e ≡ NoMemory };

    fn from(_error: AllocFailed<T>) -> ReadRecordRefusal {
        ReadRecordRefusal::NoMemory
    }
}
