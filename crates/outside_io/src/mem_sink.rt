//! A sink in memory.
ghost use Rattle.std.specs.Prelude.{◌≡◌, ◌↔◌, ℕ, ◌+◌, ◌<◌, ◌≤◌, Some, List, [], ◌++◌, length, min, IfOk, OnOk, OnErr, IsErr};
ghost use Rattle.std.specs.Io.KnownBytes.{WriteAppends};
ghost use Rattle.fault_count.specs.Rose.{Rose};
ghost use Rattle.outside_io.specs.Calls.{IsToFail, after_call};

use super::calls::FailingCalls;
use super::limits::MOST_COUNTED;
use super::sink::Sink;
use super::source::Failed;
use fault_count::count_fault;
use std::alloc::{AllocError, Global};
use std::marker::Model;

/// A sink in memory, which tells what was written to it. It takes the whole piece at each call that
/// doesn't fail. The calls whose numbers it was given fail, and so does one for whose piece there
/// is no memory; both are counted as faults.
#[derive(Drop)]
pub struct MemSink {
    bytes: Vec<u8>,
    calls: FailingCalls,
    faults: u64,
}

impl Model for MemSink {
    ghost use Rattle.outside_io.specs.MemOutput.{MemOutput};

    ghost Value = { MemOutput };

    ghost view = { λ s. record { bytes = s.bytes.items; calls = s.calls; faults = s.faults } };
}

impl MemSink {
    /// A sink with nothing written to it, whose calls with these numbers, counted from 0, fail.
    pub fn new(alloc: Global, calls: &[u64]) -> Result<MemSink, AllocError>
        ensures bytes { IfOk result (λ sink. sink.bytes ≡ []) }
        ensures calls { IfOk result (λ sink. (sink.calls.failing ≡ calls.now) × (sink.calls.made ≡ 0)) }
        ensures faults { IfOk result (λ sink. sink.faults ≡ 0) }
    {
        let calls = FailingCalls::new(alloc, calls)?;
        Ok(MemSink {
            bytes: Vec::new(alloc),
            calls,
            faults: 0,
        })
    }

    /// All that was written.
    pub fn bytes(&self) -> &[u8]
        ensures { result.now ≡ self.now.bytes }
    {
        self.bytes.as_slice()
    }
}

impl Sink for MemSink {
    ghost written = { λ s. Some s.bytes };

    ghost faults = { λ s. s.faults };

    fn write(&mut self, bytes: &[u8]) -> Result<usize, Failed>
        requires { 0 < length bytes.now }
        ensures some { IfOk result (λ n. 0 < n) }
        ensures bound { IfOk result (λ n. n ≤ length bytes.now) }
        ensures bytes { WriteAppends (Some self.old.bytes) (Some self.new.bytes) result bytes.now }
        ensures counts { self.old.faults ≤ self.new.faults }
        ensures failed { OnErr result (Rose self.old.faults self.new.faults) }

        // The calls that are to fail do.
        ensures fails { IsToFail self.old.calls → IsErr result }
        ensures called { self.new.calls ≡ after_call self.old.calls }
        ensures fault { OnErr result (self.new.faults ≡ min (self.old.faults + 1) MOST_COUNTED) }
        ensures no_fault { OnOk result (self.new.faults ≡ self.old.faults) }

        // The others take the whole piece.
        ensures whole { IfOk result (λ n. n ≡ length bytes.now) }
        ensures appended { OnOk result (self.new.bytes ≡ self.old.bytes ++ bytes.now) }
        ensures kept { OnErr result (self.new.bytes ≡ self.old.bytes) }
    {
        if self.calls.call() || self.bytes.extend_from_slice(bytes).is_err() {
            count_fault(&mut self.faults);
            return Err(Failed);
        }
        Ok(bytes.len())
    }
}
