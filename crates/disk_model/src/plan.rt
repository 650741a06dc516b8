//! Which calls of a disk in memory fail.
ghost use Rattle.std.specs.Prelude.{◌≡◌, ℕ, Option, IfOk};
ghost use Rattle.disk_model.specs.Plan.{fate_of, fate_at, fate_in, after_call};

use std::alloc::{AllocError, Global};
use std::marker::Model;

/// What becomes of a call.
#[derive(Clone, Copy, Debug, PartialEq, Eq)]
pub enum Fate {
    Made,
    /// It fails, and what it does is done in part.
    Torn,
    /// The disk has stopped, and nothing is done.
    Stopped,
}

/// The numbers of the calls that are to fail, counted from 0, and the number of the call at which
/// the disk stops.
#[derive(Drop)]
pub struct CallPlan {
    failing: Vec<u64>,
    stop: Option<u64>,
    made: u64,
}

impl Model for CallPlan {
    ghost use Rattle.disk_model.specs.Plan.{Plan};

    ghost Value = { Plan };

    ghost view = { λ p. record { failing = p.failing.items; stop = p.stop; made = p.made } };
}

impl CallPlan {
    pub fn new(alloc: Global, calls: &[u64], stop: Option<u64>) -> Result<CallPlan, AllocError>
        ensures calls { IfOk result (λ plan. plan.failing ≡ calls.now) }
        ensures stop { IfOk result (λ plan. plan.stop ≡ stop) }
        ensures made { IfOk result (λ plan. plan.made ≡ 0) }
    {
        let failing = Vec::from_slice(alloc, calls)?;
        Ok(CallPlan {
            failing,
            stop,
            made: 0,
        })
    }

    /// What becomes of the next call.
    pub fn next(&mut self) -> Fate
        ensures fate { result ≡ fate_of self.old }
        ensures made { self.new ≡ after_call self.old }
    {
        let number = self.made;
        self.made = number.saturating_add(1);
        fate_at(&self.failing, self.stop, number)
    }
}

// What becomes of the call of this number.
fn fate_at(failing: &[u64], stop: Option<u64>, number: u64) -> Fate
    ensures { result ≡ fate_at failing.now stop number }
{
    match stop {
        Some(stop) if number > stop => Fate::Stopped,
        Some(stop) if number == stop => Fate::Torn,
        _ => fate_in(failing, number),
    }
}

fn fate_in(failing: &[u64], number: u64) -> Fate
    ensures { result ≡ fate_in failing.now number }
{
    if failing.contains(&number) {
        Fate::Torn
    } else {
        Fate::Made
    }
}
