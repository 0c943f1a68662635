ghost use Rattle.std.specs.Prelude.{◌≡◌, ◌<◌, ◌≤◌, length, IfOk, OnErr, is_ok, if◌then◌else◌};
ghost use Rattle.jl_port.specs.Count.{HasRisen, one_more};

use super::traits::{Failed, Sink, Source};
use std::io::{Read, Write};
use std::marker::Model;

/// A reader of std as a source. It tells nothing of its bytes. Contracts see it as the count of its
/// errors, which stands still at 2^64 - 1.
#[derive(Drop)]
pub struct InSource<R> {
    reader: R,
    errors: u64,
}

impl<R> Model for InSource<R> {
    ghost use Rattle.std.specs.Prelude.{ℕ};

    ghost Value = { ℕ };

    ghost view = { λ s. s.errors };
}

impl<R: Read> InSource<R> {
    /// A source that reads from this reader.
    pub fn new(reader: R) -> InSource<R>
        ensures { result ≡ 0 }
    {
        InSource { reader, errors: 0 }
    }
}

impl<R: Read> Source for InSource<R> {
    ghost use Rattle.std.specs.Prelude.{None};

    ghost left = { λ _. None };

    ghost faults = { λ errors. errors };

    /// One read of the reader. Each `Err` of it is a fault.
    fn read(&mut self, buf: &mut [u8]) -> Result<usize, Failed>
        ensures counted { self.new ≡ (if is_ok result then self.old else one_more self.old) }

        ensures fits { IfOk result (λ n. n ≤ length buf.new) }
        ensures failed { OnErr result (HasRisen self.old self.new) }
        ensures never_falls { self.old ≤ self.new }
    {
        match self.reader.read(buf) {
            Ok(n) => Ok(n),
            Err(_) => {
                self.errors = self.errors.saturating_add(1);
                Err(Failed)
            }
        }
    }
}

/// A writer of std as a sink. It tells nothing of its bytes. Contracts see it as the count of its
/// errors, which stands still at 2^64 - 1.
#[derive(Drop)]
pub struct OutSink<W> {
    writer: W,
    errors: u64,
}

impl<W> Model for OutSink<W> {
    ghost use Rattle.std.specs.Prelude.{ℕ};

    ghost Value = { ℕ };

    ghost view = { λ s. s.errors };
}

impl<W: Write> OutSink<W> {
    /// A sink that writes to this writer.
    pub fn new(writer: W) -> OutSink<W>
        ensures { result ≡ 0 }
    {
        OutSink { writer, errors: 0 }
    }
}

impl<W: Write> Sink for OutSink<W> {
    ghost use Rattle.std.specs.Prelude.{None};

    ghost written = { λ _. None };

    ghost faults = { λ errors. errors };

    /// One write to the writer. Each `Err` of it is a fault, and so is a write that takes nothing of
    /// bytes that are not empty.
    fn write(&mut self, bytes: &[u8]) -> Result<usize, Failed>
        ensures counted { self.new ≡ (if is_ok result then self.old else one_more self.old) }

        ensures fits { IfOk result (λ n. n ≤ length bytes.now) }
        ensures some { IfOk result (λ n. 0 < length bytes.now → 0 < n) }
        ensures failed { OnErr result (HasRisen self.old self.new) }
        ensures never_falls { self.old ≤ self.new }
    {
        match self.writer.write(bytes) {
            Ok(n) if n > 0 || bytes.is_empty() => Ok(n),
            _ => {
                self.errors = self.errors.saturating_add(1);
                Err(Failed)
            }
        }
    }
}
