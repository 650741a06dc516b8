//! A source in memory.
ghost use Rattle.std.specs.Prelude.{◌≡◌, ◌↔◌, ℕ, ◌+◌, ◌<◌, ◌≤◌, Some, List, length, map, min, IfOk, OnOk, OnErr, IsErr};
ghost use Rattle.std.specs.List.{concat};
ghost use Rattle.std.specs.Io.{ReadsAtMost};
ghost use Rattle.std.specs.Io.KnownBytes.{ReadConsumes};
ghost use Rattle.fault_count.specs.Rose.{Rose};
ghost use Rattle.outside_io.specs.Calls.{IsToFail, after_call};
ghost use Rattle.outside_io.specs.MemInput.{HasNoEmpty, after_taking, first_piece};

use super::calls::FailingCalls;
use super::limits::MOST_COUNTED;
use super::pieces::Pieces;
use super::source::{Failed, Source};
use fault_count::count_fault;
use std::alloc::{AllocError, Global};
use std::marker::Model;

/// A source in memory, which tells what it has left. It gives its pieces in order: a read gives of
/// the first one what fits. The calls whose numbers it was given fail.
#[derive(Drop)]
pub struct MemSource {
    pieces: Pieces,
    calls: FailingCalls,
    faults: u64,
}

impl Model for MemSource {
    ghost use Rattle.outside_io.specs.MemInput.{MemInput};

    ghost Value = { MemInput };

    ghost view = { λ s. record { pieces = s.pieces; calls = s.calls; faults = s.faults } };
}

impl MemSource {
    /// A source of these pieces, whose calls with these numbers, counted from 0, fail. It takes
    /// memory for the numbers, and copies no piece.
    pub fn new(alloc: Global, pieces: Vec<Vec<u8>>, calls: &[u64]) -> Result<MemSource, AllocError>
        requires { HasNoEmpty (map (λ piece. piece.items) pieces.items) }
        ensures pieces { IfOk result (λ source. source.pieces ≡ map (λ piece. piece.items) pieces.items) }
        ensures calls { IfOk result (λ source. (source.calls.failing ≡ calls.now) × (source.calls.made ≡ 0)) }
        ensures faults { IfOk result (λ source. source.faults ≡ 0) }
    {
        let calls = FailingCalls::new(alloc, calls)?;
        Ok(MemSource {
            pieces: Pieces::new(pieces),
            calls,
            faults: 0,
        })
    }
}

impl Source for MemSource {
    ghost left = { λ s. Some (concat s.pieces) };

    ghost faults = { λ s. s.faults };

    fn read(&mut self, into: &mut [u8]) -> Result<usize, Failed>
        requires { 0 < length into.old }
        ensures bound { ReadsAtMost result into.new }
        ensures bytes { ReadConsumes (Some (concat self.old.pieces)) (Some (concat self.new.pieces)) result into.new }
        ensures counts { self.old.faults ≤ self.new.faults }
        ensures failed { OnErr result (Rose self.old.faults self.new.faults) }

        // Exactly the calls that are to fail do.
        ensures fails { IsErr result ↔ IsToFail self.old.calls }
        ensures called { self.new.calls ≡ after_call self.old.calls }
        ensures fault { OnErr result (self.new.faults ≡ min (self.old.faults + 1) MOST_COUNTED) }
        ensures no_fault { OnOk result (self.new.faults ≡ self.old.faults) }

        // A read gives of the first piece what fits.
        ensures count { IfOk result (λ n. n ≡ min (length (first_piece self.old.pieces)) (length into.old)) }
        ensures pieces { IfOk result (λ n. self.new.pieces ≡ after_taking n self.old.pieces) }
        ensures kept { OnErr result (self.new.pieces ≡ self.old.pieces) }
    {
        if self.calls.call() {
            count_fault(&mut self.faults);
            return Err(Failed);
        }
        Ok(self.pieces.take(into))
    }
}
