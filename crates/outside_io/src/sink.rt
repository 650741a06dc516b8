//! Where bytes go.
ghost use Rattle.std.specs.Prelude.{ℕ, ◌<◌, ◌≤◌, List, Option, length, IfOk, OnErr};
ghost use Rattle.std.specs.Io.KnownBytes.{WriteAppends};
ghost use Rattle.fault_count.specs.Rose.{Rose};

use super::source::Failed;

/// Where bytes go.
pub trait Sink {
    // The bytes that were written, in order, where they are told.
    ghost written: { Self → Option (List ℕ) };

    // How many faults there were so far, as far as they were counted.
    ghost faults: { Self → ℕ };

    /// Writes bytes from the front of `bytes`, and answers how many: at least 1.
    fn write(&mut self, bytes: &[u8]) -> Result<usize, Failed>
        requires { 0 < length bytes.now }
        ensures some { IfOk result (λ n. 0 < n) }
        ensures bound { IfOk result (λ n. n ≤ length bytes.now) }

        // Told bytes grow by those that were written, and stay where the write failed.
        ensures bytes { WriteAppends (written self.old) (written self.new) result bytes.now }
        ensures counts { faults self.old ≤ faults self.new }
        ensures failed { OnErr result (Rose (faults self.old) (faults self.new)) };
}
