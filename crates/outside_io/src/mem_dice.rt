//! Dice in memory.
ghost use Rattle.std.specs.Prelude.{◌≡◌, ◌↔◌, ◌⊎◌, ◌+◌, ◌≤◌, ◌∷◌, Some, [], min, IfOk, OnOk, OnErr, IsErr};
ghost use Rattle.fault_count.specs.Rose.{Rose};
ghost use Rattle.outside_io.specs.Calls.{IsToFail, after_call};
ghost use Rattle.outside_io.specs.Draws.{Draws, listed};

use super::calls::FailingCalls;
use super::dice::Dice;
use super::limits::MOST_COUNTED;
use super::source::Failed;
use fault_count::count_fault;
use std::alloc::{AllocError, Global};
use std::marker::Model;

/// Dice in memory, which tell the words that they have left and give them in order. The calls whose numbers they were given fail,
/// and so does each call once no word is left.
#[derive(Drop)]
pub struct MemDice {
    words: Vec<[u8; 16]>,
    next: usize,
    calls: FailingCalls,
    faults: u64,
}

impl Model for MemDice {
    ghost use Rattle.std.specs.Prelude.{◌≤◌, drop, vec_len};
    ghost use Rattle.outside_io.specs.Draws.{MemWords};

    ghost Value = { MemWords };

    ghost view = { λ d. record { words = drop d.next d.words.items; calls = d.calls; faults = d.faults } };

    ghost invariant = { λ d. d.next ≤ vec_len d.words };
}

impl MemDice {
    /// Dice that give these words, whose calls with these numbers, counted from 0, fail. It takes memory for the numbers, and
    /// copies no word.
    pub fn new(alloc: Global, words: Vec<[u8; 16]>, calls: &[u64]) -> Result<MemDice, AllocError>
        ensures words { IfOk result (λ dice. dice.words ≡ words.items) }
        ensures calls { IfOk result (λ dice. (dice.calls.failing ≡ calls.now) × (dice.calls.made ≡ 0)) }
        ensures faults { IfOk result (λ dice. dice.faults ≡ 0) }
    {
        let calls = FailingCalls::new(alloc, calls)?;
        Ok(MemDice {
            words,
            next: 0,
            calls,
            faults: 0,
        })
    }
}

impl Dice for MemDice {
    ghost left = { λ d. Some (listed d.words) };

    ghost faults = { λ d. d.faults };

    fn sixteen(&mut self) -> Result<[u8; 16], Failed>
        ensures drawn { Draws (Some (listed self.old.words)) (Some (listed self.new.words)) result }
        ensures counts { self.old.faults ≤ self.new.faults }
        ensures failed { OnErr result (Rose self.old.faults self.new.faults) }

        // Just the calls that are to fail do, and those where no word is left.
        ensures fails { IsErr result ↔ (IsToFail self.old.calls ⊎ (self.old.words ≡ [])) }
        ensures called { self.new.calls ≡ after_call self.old.calls }
        ensures fault { OnErr result (self.new.faults ≡ min (self.old.faults + 1) MOST_COUNTED) }
        ensures no_fault { OnOk result (self.new.faults ≡ self.old.faults) }

        // A draw gives the first of the words.
        ensures first { IfOk result (λ word. self.old.words ≡ word ∷ self.new.words) }
        ensures kept { OnErr result (self.new.words ≡ self.old.words) }
    {
        let fails = self.calls.call();
        if fails || self.next == self.words.len() {
            count_fault(&mut self.faults);
            return Err(Failed);
        }
        let word = self.words[self.next];
        self.next += 1;
        Ok(word)
    }
}
