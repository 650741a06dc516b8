//! A tick in memory.
ghost use Rattle.std.specs.Prelude.{◌≡◌, ◌↔◌, ◌⊎◌, ◌+◌, ◌≤◌, ◌∷◌, Some, [], min, IfOk, OnOk, OnErr, IsErr};
ghost use Rattle.fault_count.specs.Rose.{Rose};
ghost use Rattle.outside_io.specs.Calls.{IsToFail, after_call};
ghost use Rattle.outside_io.specs.Draws.{Draws, listed};

use super::calls::FailingCalls;
use super::limits::MOST_COUNTED;
use super::source::Failed;
use super::tick::Tick;
use fault_count::count_fault;
use std::alloc::{AllocError, Global};
use std::marker::Model;

/// A tick in memory, which tells the moments that it has left and gives them in order. The calls whose numbers it was given fail,
/// and so does each call once no moment is left.
#[derive(Drop)]
pub struct MemTick {
    moments: Vec<u64>,
    next: usize,
    calls: FailingCalls,
    faults: u64,
}

impl Model for MemTick {
    ghost use Rattle.std.specs.Prelude.{◌≤◌, drop, vec_len};
    ghost use Rattle.outside_io.specs.Draws.{MemMoments};

    ghost Value = { MemMoments };

    ghost view = { λ t. record { moments = drop t.next t.moments.items; calls = t.calls; faults = t.faults } };

    ghost invariant = { λ t. t.next ≤ vec_len t.moments };
}

impl MemTick {
    /// A tick that gives these moments, whose calls with these numbers, counted from 0, fail. It takes memory for the numbers, and
    /// copies no moment.
    pub fn new(alloc: Global, moments: Vec<u64>, calls: &[u64]) -> Result<MemTick, AllocError>
        ensures moments { IfOk result (λ tick. tick.moments ≡ moments.items) }
        ensures calls { IfOk result (λ tick. (tick.calls.failing ≡ calls.now) × (tick.calls.made ≡ 0)) }
        ensures faults { IfOk result (λ tick. tick.faults ≡ 0) }
    {
        let calls = FailingCalls::new(alloc, calls)?;
        Ok(MemTick {
            moments,
            next: 0,
            calls,
            faults: 0,
        })
    }
}

impl Tick for MemTick {
    ghost left = { λ t. Some (listed t.moments) };

    ghost faults = { λ t. t.faults };

    fn tick(&mut self) -> Result<u64, Failed>
        ensures drawn { Draws (Some (listed self.old.moments)) (Some (listed self.new.moments)) result }
        ensures counts { self.old.faults ≤ self.new.faults }
        ensures failed { OnErr result (Rose self.old.faults self.new.faults) }

        // Just the calls that are to fail do, and those where no moment is left.
        ensures fails { IsErr result ↔ (IsToFail self.old.calls ⊎ (self.old.moments ≡ [])) }
        ensures called { self.new.calls ≡ after_call self.old.calls }
        ensures fault { OnErr result (self.new.faults ≡ min (self.old.faults + 1) MOST_COUNTED) }
        ensures no_fault { OnOk result (self.new.faults ≡ self.old.faults) }

        // A tick gives the first of the moments.
        ensures first { IfOk result (λ moment. self.old.moments ≡ moment ∷ self.new.moments) }
        ensures kept { OnErr result (self.new.moments ≡ self.old.moments) }
    {
        let fails = self.calls.call();
        if fails || self.next == self.moments.len() {
            count_fault(&mut self.faults);
            return Err(Failed);
        }
        let moment = self.moments[self.next];
        self.next += 1;
        Ok(moment)
    }
}
