//! The machine's random source as dice.
ghost use Rattle.std.specs.Prelude.{◌≡◌, ℕ, ◌+◌, ◌≤◌, None, List, Option, min, OnErr, OnOk};
ghost use Rattle.fault_count.specs.Rose.{Rose};
ghost use Rattle.outside_io.specs.Draws.{Draws, Left};

use super::dice::Dice;
use super::limits::MOST_COUNTED;
use super::source::Failed;
use fault_count::count_fault;
use std::random::RandomSource;

/// Dice over the machine's random source (`getentropy`), which tell no words. Each `Err` of the source is a fault and is counted;
/// the count stays at 2^64 - 1.
#[derive(Drop)]
pub struct SystemDice<R> {
    source: R,
    faults: u64,
}

impl<R: RandomSource> SystemDice<R> {
    /// Dice over `source`, as the runtime that `main` is given, with no fault so far.
    pub fn new(source: R) -> SystemDice<R>
        ensures { ⟦<SystemDice<R> as Dice>⟧.faults result ≡ 0 }
    {
        SystemDice { source, faults: 0 }
    }
}

impl<R: RandomSource> Dice for SystemDice<R> {
    ghost left = { λ d. None };

    ghost faults = { λ d. d.faults };

    fn sixteen(&mut self) -> Result<[u8; 16], Failed>
        ensures drawn { Draws {A = List ℕ} None None result }
        ensures counts { self.old.faults ≤ self.new.faults }
        ensures failed { OnErr result (Rose self.old.faults self.new.faults) }

        // Just a call that failed is counted.
        ensures fault { OnErr result (self.new.faults ≡ min (self.old.faults + 1) MOST_COUNTED) }
        ensures no_fault { OnOk result (self.new.faults ≡ self.old.faults) }
    {
        let mut word = [0; 16];
        match self.source.fill_bytes(word.as_mut_slice()) {
            Ok(()) => Ok(word),
            Err(_) => {
                count_fault(&mut self.faults);
                Err(Failed)
            }
        }
    }
}
