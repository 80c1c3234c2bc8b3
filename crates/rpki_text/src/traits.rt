//! What is read from and written to.

ghost use Rattle.std.specs.Prelude.{◌≡◌, ◌<◌, ℕ, List, Option, length, take, IfOk, OnOk, OnErr};
ghost use Rattle.std.specs.Io.{ReadsAtMost, WritesAtMost};
ghost use Rattle.std.specs.Io.KnownBytes.{Consumes, Appends, IsAtEnd};
ghost use Rattle.rpki_common.specs.Causes.{HasCause};

/// A source or a sink failed in a call, and its count of faults rose.
#[derive(Clone, Copy, Debug, PartialEq, Eq)]
pub struct Failed;

/// Where octets come from, in pieces of any length. Two values that no code holds give a source its
/// meaning: `rest` and `faults`.
pub trait Source {
    /// The octets still to come, where the source tells them.
    ghost rest: { Self → Option (List ℕ) };

    /// How often the source has failed. The count may stop at 2^64 - 1.
    ghost faults: { Self → ℕ };

    /// Reads the next octets into the front of `into`, and answers how many there were; what stands
    /// behind them is left open. For an `into` that isn't empty, 0 is the end of input. After
    /// `Failed` nothing was taken. The count of faults rises where the answer is `Failed`, and
    /// stands still where it isn't.
    fn read(&mut self, into: &mut [u8]) -> Result<usize, Failed>
        ensures bound { ReadsAtMost result into.new }
        ensures next { IfOk result (λ k.
            Consumes (rest self.old) (rest self.new) (take k into.new)) }
        ensures end { IfOk result (λ k. k ≡ 0 → 0 < length into.new → IsAtEnd (rest self.new)) }
        ensures failed { OnErr result (rest self.new ≡ rest self.old) }
        ensures cause { HasCause (faults self.old) (faults self.new) result }
        ensures kept { OnOk result (faults self.new ≡ faults self.old) };
}

/// Where octets go to, in pieces of any length. Two values that no code holds give a sink its
/// meaning: `written` and `faults`.
pub trait Sink {
    /// The octets written so far, where the sink tells them.
    ghost written: { Self → Option (List ℕ) };

    /// How often the sink has failed. The count may stop at 2^64 - 1.
    ghost faults: { Self → ℕ };

    /// Writes octets from the front of `from`, and answers how many it took: for a `from` that
    /// isn't empty, 1 at least. After `Failed` nothing was taken. The count of faults rises where
    /// the answer is `Failed`, and stands still where it isn't.
    fn write(&mut self, from: &[u8]) -> Result<usize, Failed>
        ensures bound { WritesAtMost result from.now }
        ensures some { IfOk result (λ k. 0 < length from.now → 0 < k) }
        ensures next { IfOk result (λ k.
            Appends (written self.old) (written self.new) (take k from.now)) }
        ensures failed { OnErr result (written self.new ≡ written self.old) }
        ensures cause { HasCause (faults self.old) (faults self.new) result }
        ensures kept { OnOk result (faults self.new ≡ faults self.old) };
}
