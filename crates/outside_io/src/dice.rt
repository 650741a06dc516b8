//! What random bytes come from.
ghost use Rattle.std.specs.Prelude.{ℕ, ◌≤◌, List, Option, OnErr};
ghost use Rattle.fault_count.specs.Rose.{Rose};
ghost use Rattle.outside_io.specs.Draws.{Draws, Left};

use super::source::Failed;

/// Where random bytes come from.
pub trait Dice {
    // The words that draws from now on give, where they are told.
    ghost left: { Self → Option (Left (List ℕ)) };

    // How many faults there were so far, as far as they were counted.
    ghost faults: { Self → ℕ };

    /// Draws sixteen bytes.
    fn sixteen(&mut self) -> Result<[u8; 16], Failed>
        // A draw gives the next of the told words and takes it off. Where it failed they stay.
        ensures drawn { Draws (left self.old) (left self.new) result }
        ensures counts { faults self.old ≤ faults self.new }
        ensures failed { OnErr result (Rose (faults self.old) (faults self.new)) };
}
