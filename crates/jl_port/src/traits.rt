ghost use Rattle.std.specs.Prelude.{◌≡◌, ℕ, ◌+◌, ◌<◌, ◌≤◌, List, Option, length, take, IfOk, OnErr};
ghost use Rattle.jl_port.specs.Bytes.{Takes, Grows, IsAtEnd};
ghost use Rattle.jl_port.specs.Count.{HasRisen};

use thiserror::Error;

/// A read or a write that failed. The count of faults of its source or sink has risen.
#[derive(Clone, Copy, PartialEq, Eq, Debug, Error)]
#[error("a read or a write failed")]
pub struct Failed;

/// What bytes are read from.
pub trait Source {
    // The bytes still to come, where the source tells them.
    ghost left: { Self → Option (List ℕ) };

    // How many faults there were. It never falls.
    ghost faults: { Self → ℕ };

    // How many reads there were, where the source counts them.
    ghost calls: { Self → ℕ } = { λ _. 0 };

    /// Reads bytes into the front of `buf`, and gives how many. No byte into a buffer that has room
    /// means the end of the input.
    fn read(&mut self, buf: &mut [u8]) -> Result<usize, Failed>
        ensures fits { IfOk result (λ n. n ≤ length buf.new) }
        ensures bytes { IfOk result (λ n. Takes (left self.old) (left self.new) (take n buf.new)) }
        ensures end { IfOk result (λ n. n ≡ 0 → 0 < length buf.new → IsAtEnd (left self.new)) }

        ensures failed { OnErr result (HasRisen (faults self.old) (faults self.new)) }
        ensures kept { OnErr result (left self.new ≡ left self.old) }

        ensures never_falls { faults self.old ≤ faults self.new }
        ensures one_call { calls self.new ≤ calls self.old + 1 };
}

/// What bytes are written to.
pub trait Sink {
    // The bytes that were written, where the sink tells them.
    ghost written: { Self → Option (List ℕ) };

    // How many faults there were. It never falls.
    ghost faults: { Self → ℕ };

    // How many writes there were, where the sink counts them.
    ghost calls: { Self → ℕ } = { λ _. 0 };

    /// Writes bytes of the front of `bytes`, and gives how many: at least one, if there is one.
    fn write(&mut self, bytes: &[u8]) -> Result<usize, Failed>
        ensures fits { IfOk result (λ n. n ≤ length bytes.now) }
        ensures some { IfOk result (λ n. 0 < length bytes.now → 0 < n) }
        ensures bytes { IfOk result (λ n. Grows (written self.old) (written self.new) (take n bytes.now)) }

        ensures failed { OnErr result (HasRisen (faults self.old) (faults self.new)) }
        ensures kept { OnErr result (written self.new ≡ written self.old) }

        ensures never_falls { faults self.old ≤ faults self.new }
        ensures one_call { calls self.new ≤ calls self.old + 1 };
}

/// What keeps a text, in UTF-16 units, and lends one.
pub trait Shelf {
    // The text that it was handed last.
    ghost handed: { Self → List ℕ };

    // The text that it lends.
    ghost lent: { Self → List ℕ };

    /// Hands the shelf a text, in UTF-16 units.
    fn put(&mut self, text: Vec<u16>)
        ensures { handed self.new ≡ text.items };

    /// The text that the shelf lends, in UTF-16 units.
    fn lend(&self) -> &[u16]
        ensures { result.now ≡ lent self.now };
}
