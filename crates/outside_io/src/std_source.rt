//! A reader of std as a source.
ghost use Rattle.std.specs.Prelude.{◌≡◌, ◌+◌, ◌<◌, ◌≤◌, length, min, OnErr, OnOk};
ghost use Rattle.std.specs.Io.{ReadsAtMost};
ghost use Rattle.std.specs.Io.KnownBytes.{ReadConsumes};
ghost use Rattle.fault_count.specs.Rose.{Rose};

use super::limits::MOST_COUNTED;
use super::source::{Failed, Source};
use fault_count::count_fault;
use std::io::Read;

/// A source over a reader of std. It tells what the reader tells. Each `Err` of the reader is a
/// fault, an interrupted read too, and is counted; the count stays at 2^64 - 1.
#[derive(Drop)]
pub struct StdSource<T> {
    inner: T,
    faults: u64,
}

impl<T: Read> StdSource<T> {
    /// A source over `inner`, with no fault so far.
    pub fn new(inner: T) -> StdSource<T>
        ensures left { ⟦<StdSource<T> as Source>⟧.left result ≡ T.remaining inner }
        ensures faults { ⟦<StdSource<T> as Source>⟧.faults result ≡ 0 }
    {
        StdSource { inner, faults: 0 }
    }

    /// The reader, as far as it was read.
    pub fn into_inner(self) -> T
        ensures { T.remaining result ≡ ⟦<StdSource<T> as Source>⟧.left self }
    {
        let StdSource { inner, faults: _ } = self;
        inner
    }
}

impl<T: Read> Source for StdSource<T> {
    ghost left = { λ s. T.remaining s.inner };

    ghost faults = { λ s. s.faults };

    fn read(&mut self, into: &mut [u8]) -> Result<usize, Failed>
        requires { 0 < length into.old }
        ensures bound { ReadsAtMost result into.new }
        ensures bytes { ReadConsumes (T.remaining self.old.inner) (T.remaining self.new.inner) result into.new }
        ensures counts { self.old.faults ≤ self.new.faults }
        ensures failed { OnErr result (Rose self.old.faults self.new.faults) }

        // Just a call that failed is counted.
        ensures fault { OnErr result (self.new.faults ≡ min (self.old.faults + 1) MOST_COUNTED) }
        ensures no_fault { OnOk result (self.new.faults ≡ self.old.faults) }
    {
        match self.inner.read(into) {
            Ok(count) => Ok(count),
            Err(_) => {
                count_fault(&mut self.faults);
                Err(Failed)
            }
        }
    }
}
