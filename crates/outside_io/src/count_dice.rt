//! Dice that count.
ghost use Rattle.std.specs.Prelude.{◌≡◌, ◌+◌, ◌≤◌, ◌%◌, ◌^◌, Some, Ok, OnErr};
ghost use Rattle.std.specs.Int.{to_be_bytes};
ghost use Rattle.fault_count.specs.Rose.{Rose};
ghost use Rattle.outside_io.specs.Draws.{Draws, counted_words};
ghost use mir.Syntax.{w128};

use super::dice::Dice;
use super::source::Failed;
use std::marker::Model;

/// Dice that count: they give 0, 1, 2 and so on, each as sixteen big-endian bytes, and never fail. Behind 2^128 - 1 they begin
/// again with 0. Contracts see them as the number that the next draw gives.
#[derive(Debug, Drop)]
pub struct CountDice {
    next: u128,
}

impl Model for CountDice {
    ghost use Rattle.std.specs.Prelude.{ℕ, ◌<◌, ◌^◌};

    ghost Value = { ℕ };

    ghost view = { λ d. d.next };

    ghost invariant = { λ d. d.next < 2 ^ 128 };
}

impl CountDice {
    /// Dice that give 0 next.
    pub fn new() -> CountDice
        ensures { result ≡ 0 }
    {
        CountDice { next: 0 }
    }
}

impl Dice for CountDice {
    ghost left = { λ d. Some (counted_words d) };

    ghost faults = { λ d. 0 };

    fn sixteen(&mut self) -> Result<[u8; 16], Failed>
        ensures drawn { Draws (Some (counted_words self.old)) (Some (counted_words self.new)) result }
        ensures counts { 0 ≤ 0 }
        ensures failed { OnErr result (Rose 0 0) }

        // It never fails.
        ensures value { result ≡ Ok (to_be_bytes w128 self.old) }
        ensures next { self.new ≡ (self.old + 1) % 2 ^ 128 }
    {
        let word = self.next.to_be_bytes();
        self.next = self.next.wrapping_add(1);
        Ok(word)
    }
}
