ghost use Rattle.std.specs.Prelude.{◌≡◌, ◌+◌, ◌^◌, ◌<◌, ◌≤◌, length, take, IfOk, IfErr, IfSome, OnOk, OnErr, IsErrOf};
ghost use Rattle.std.specs.Prelude.{vec_len};
ghost use Rattle.jl_port.specs.declared.whole.ReadRefusal.TheVariants.{ReadFault, NoMemory};
ghost use Rattle.jl_port.specs.Bytes.{Takes, TakesCount, TakesAtMost, Grows, IsAtEnd};
ghost use Rattle.jl_port.specs.Count.{HasRisen};

use super::traits::{Failed, Sink, Source};
use std::alloc::{AllocError, AllocFailed, Global};
use thiserror::Error;

/// How many bytes one read of `read_all` asks for, at most.
const CHUNK: usize = 4096;

/// Why not all bytes of a source were given.
#[derive(Clone, Copy, PartialEq, Eq, Debug, Error)]
pub enum ReadRefusal {
    /// There are more bytes than the limit.
    #[error("more bytes than the limit")]
    TooLong,
    /// A read failed.
    #[error("a read failed")]
    ReadFault,
    /// No memory was left.
    #[error("out of memory")]
    NoMemory,
}

impl From<Failed> for ReadRefusal {
    ghost from_gives = { λ _ e. e ≡ ReadFault };

    fn from(_error: Failed) -> ReadRefusal {
        ReadRefusal::ReadFault
    }
}

impl From<AllocError> for ReadRefusal {
    ghost from_gives = { λ _ e. e ≡ NoMemory };

    fn from(_error: AllocError) -> ReadRefusal {
        ReadRefusal::NoMemory
    }
}

impl<T: Drop> From<AllocFailed<T>> for ReadRefusal {
    ghost from_gives = { λ _ e. e ≡ NoMemory };

    fn from(_error: AllocFailed<T>) -> ReadRefusal {
        ReadRefusal::NoMemory
    }
}

/// A write failed after this many of the bytes were written.
#[derive(Clone, Copy, PartialEq, Eq, Debug, Error)]
#[error("a write failed after {written} bytes")]
pub struct WriteFault {
    pub written: usize,
}

/// All bytes of the source up to the end of its input, if there are at most `limit`.
///
/// It is `TooLong` where `limit` + 1 bytes were read, and `ReadFault` only where a fault of the source
/// came in this call and at most `limit` bytes were read before. A read asks for 4,096 bytes, or for
/// as many as `limit` + 1 still lacks where these are fewer, and there are at most `limit` + 1 reads. Whatever the
/// answer, the source has lost what was read from it.
pub fn read_all<S: Source>(
    alloc: Global,
    source: &mut S,
    limit: usize,
) -> Result<Vec<u8>, ReadRefusal>
    requires { limit < 2 ^ 63 }
    ensures all { IfOk result (λ bytes. Takes (S.left source.old) (S.left source.new) bytes.items) }
    ensures end { OnOk result (IsAtEnd (S.left source.new)) }
    ensures within { IfOk result (λ bytes. vec_len bytes ≤ limit) }

    ensures long { IsErrOf result ReadRefusal.TooLong
        → TakesCount (S.left source.old) (S.left source.new) (limit + 1) }
    ensures fault { IsErrOf result ReadRefusal.ReadFault
        → HasRisen (S.faults source.old) (S.faults source.new) }
    ensures fault_within { IsErrOf result ReadRefusal.ReadFault
        → TakesAtMost (S.left source.old) (S.left source.new) limit }

    // Where the source tells its bytes, they are what it held, or it held too many.
    ensures told { IfOk result (λ bytes. IfSome (S.left source.old) (λ held. bytes.items ≡ held)) }
    ensures told_long { IsErrOf result ReadRefusal.TooLong
        → IfSome (S.left source.old) (λ held. limit < length held) }

    ensures lost { TakesAtMost (S.left source.old) (S.left source.new) (limit + 1) }
    ensures never_falls { S.faults source.old ≤ S.faults source.new }
    ensures reads { S.calls source.new ≤ S.calls source.old + (limit + 1) }
{
    let mut bytes = Vec::new(alloc);
    let mut buffer = [0; CHUNK];
    while bytes.len() <= limit {
        let size = CHUNK.min(limit + 1 - bytes.len());
        let n = source.read(&mut buffer[..size])?;
        if n == 0 {
            return Ok(bytes);
        }
        bytes.extend_from_slice(&buffer[..n])?;
    }
    Err(ReadRefusal::TooLong)
}

/// Writes all the bytes. It takes no memory.
///
/// It fails only where a fault of the sink came in this call. Then it says how many bytes were
/// written, which are the front of `bytes`.
pub fn write_all<K: Sink>(sink: &mut K, bytes: &[u8]) -> Result<(), WriteFault>
    ensures all { OnOk result (Grows (K.written sink.old) (K.written sink.new) bytes.now) }

    ensures fault { OnErr result (HasRisen (K.faults sink.old) (K.faults sink.new)) }
    ensures proper { IfErr result (λ f. f.written < length bytes.now) }
    ensures front { IfErr result (λ f.
        Grows (K.written sink.old) (K.written sink.new) (take f.written bytes.now)) }

    ensures never_falls { K.faults sink.old ≤ K.faults sink.new }
    ensures writes { K.calls sink.new ≤ K.calls sink.old + length bytes.now }
{
    let mut count = 0;
    while count < bytes.len() {
        match sink.write(&bytes[count..]) {
            Ok(n) => count += n,
            Err(Failed) => return Err(WriteFault { written: count }),
        }
    }
    Ok(())
}
