//! What moments come from.
ghost use Rattle.std.specs.Prelude.{ℕ, ◌≤◌, Option, OnErr};
ghost use Rattle.fault_count.specs.Rose.{Rose};
ghost use Rattle.outside_io.specs.Draws.{Draws, Left};

use super::source::Failed;

/// Where moments come from: numbers of seconds.
pub trait Tick {
    // The moments that ticks from now on give, where they are told.
    ghost left: { Self → Option (Left ℕ) };

    // How many faults there were so far, as far as they were counted.
    ghost faults: { Self → ℕ };

    /// Waits for the next moment, and gives it.
    fn tick(&mut self) -> Result<u64, Failed>
        // A tick gives the next of the told moments and takes it off. Where it failed they stay.
        ensures drawn { Draws (left self.old) (left self.new) result }
        ensures counts { faults self.old ≤ faults self.new }
        ensures failed { OnErr result (Rose (faults self.old) (faults self.new)) };
}
