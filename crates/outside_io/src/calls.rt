//! Which calls of an object in memory are to fail.
ghost use Rattle.std.specs.Prelude.{◌≡◌, ◌↔◌, ℕ, IfOk, IsTrue};
ghost use Rattle.outside_io.specs.Calls.{IsToFail, after_call};

use std::alloc::{AllocError, Global};
use std::marker::Model;

/// The calls that are to fail, by their numbers from 0, and how many calls were made.
#[derive(Drop)]
pub struct FailingCalls {
    failing: Vec<u64>,
    made: u64,
}

impl Model for FailingCalls {
    ghost use Rattle.outside_io.specs.Calls.{Calls};

    ghost Value = { Calls };

    ghost view = { λ c. record { failing = c.failing.items; made = c.made } };
}

impl FailingCalls {
    /// No call was made, and those with these numbers are to fail.
    pub fn new(alloc: Global, failing: &[u64]) -> Result<FailingCalls, AllocError>
        ensures { IfOk result (λ calls. (calls.failing ≡ failing.now) × (calls.made ≡ 0)) }
    {
        let failing = Vec::from_slice(alloc, failing)?;
        Ok(FailingCalls { failing, made: 0 })
    }

    /// Counts a call, and answers whether it is to fail.
    pub fn call(&mut self) -> bool
        ensures fails { IsTrue result ↔ IsToFail self.old }
        ensures counted { self.new ≡ after_call self.old }
    {
        let fails = self.failing.contains(&self.made);
        self.made = self.made.saturating_add(1);
        fails
    }
}
