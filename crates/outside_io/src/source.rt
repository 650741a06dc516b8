//! What bytes come from.
ghost use Rattle.std.specs.Prelude.{ℕ, ◌<◌, ◌≤◌, List, Option, length, OnErr};
ghost use Rattle.std.specs.Io.{ReadsAtMost};
ghost use Rattle.std.specs.Io.KnownBytes.{ReadConsumes};
ghost use Rattle.fault_count.specs.Rose.{Rose};

/// A call on the outside that failed. What it is seen as is as before the call, and its count of
/// faults rose.
#[derive(Clone, Copy, Debug, PartialEq, Eq)]
pub struct Failed;

/// Where bytes come from.
pub trait Source {
    // The bytes that are left, in order, where they are told.
    ghost left: { Self → Option (List ℕ) };

    // How many faults there were so far, as far as they were counted.
    ghost faults: { Self → ℕ };

    /// Reads the next bytes into the front of `into`, and answers how many they are: at least 1
    /// where there are more, and 0 at the end of the input.
    fn read(&mut self, into: &mut [u8]) -> Result<usize, Failed>
        requires { 0 < length into.old }

        // The answer is at most the length of `into`.
        ensures bound { ReadsAtMost result into.new }

        // Told bytes lose those that were given, and 0 comes exactly where none is left. Where the
        // read failed they stay.
        ensures bytes { ReadConsumes (left self.old) (left self.new) result into.new }
        ensures counts { faults self.old ≤ faults self.new }
        ensures failed { OnErr result (Rose (faults self.old) (faults self.new)) };
}
