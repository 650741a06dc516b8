//! A writer of std as a sink.
ghost use Rattle.std.specs.Prelude.{◌≡◌, ◌+◌, ◌<◌, ◌≤◌, length, min, IfOk, OnErr, OnOk};
ghost use Rattle.std.specs.Io.KnownBytes.{WriteAppends};
ghost use Rattle.fault_count.specs.Rose.{Rose};

use super::limits::MOST_COUNTED;
use super::sink::Sink;
use super::source::Failed;
use fault_count::count_fault;
use std::io::Write;

/// A sink over a writer of std. It tells what the writer tells. Each `Err` of the writer is a
/// fault, and so is a write that takes nothing; both are counted, and the count stays at
/// 2^64 - 1. Nothing is flushed: give it a writer that keeps nothing back.
#[derive(Drop)]
pub struct StdSink<T> {
    inner: T,
    faults: u64,
}

impl<T: Write> StdSink<T> {
    /// A sink over `inner`, with no fault so far.
    pub fn new(inner: T) -> StdSink<T>
        ensures written { ⟦<StdSink<T> as Sink>⟧.written result ≡ T.contents inner }
        ensures faults { ⟦<StdSink<T> as Sink>⟧.faults result ≡ 0 }
    {
        StdSink { inner, faults: 0 }
    }

    /// The writer, with what was written to it.
    pub fn into_inner(self) -> T
        ensures { T.contents result ≡ ⟦<StdSink<T> as Sink>⟧.written self }
    {
        let StdSink { inner, faults: _ } = self;
        inner
    }
}

impl<T: Write> Sink for StdSink<T> {
    ghost written = { λ s. T.contents s.inner };

    ghost faults = { λ s. s.faults };

    fn write(&mut self, bytes: &[u8]) -> Result<usize, Failed>
        requires { 0 < length bytes.now }
        ensures some { IfOk result (λ n. 0 < n) }
        ensures bound { IfOk result (λ n. n ≤ length bytes.now) }
        ensures bytes { WriteAppends (T.contents self.old.inner) (T.contents self.new.inner) result bytes.now }
        ensures counts { self.old.faults ≤ self.new.faults }
        ensures failed { OnErr result (Rose self.old.faults self.new.faults) }

        // Just a call that failed is counted.
        ensures fault { OnErr result (self.new.faults ≡ min (self.old.faults + 1) MOST_COUNTED) }
        ensures no_fault { OnOk result (self.new.faults ≡ self.old.faults) }
    {
        match self.inner.write(bytes) {
            Ok(count) if count > 0 => Ok(count),
            _ => {
                count_fault(&mut self.faults);
                Err(Failed)
            }
        }
    }
}
