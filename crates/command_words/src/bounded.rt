//! Numbers within bounds.
ghost use Rattle.std.specs.Prelude.{◌≡◌, ◌↔◌, ◌≤◌, ℕ, Some, decimal};

use line_words::read_number;
use std::marker::Model;

/// A number from `LEAST` to `MOST`. Contracts see it as a number.
#[derive(Debug, Drop)]
pub struct Bounded<const LEAST: u64, const MOST: u64> {
    number: u64,
}

/// The number that a client gives a line of its own: at least 1.
pub type ClientNumber = Bounded<1, 18_446_744_073_709_551_615>;
/// How many entries of a side a session lists.
pub type EntryLimit = Bounded<1, 65_536>;
/// How many bytes a file may have that a session carries.
pub type SizeLimit = Bounded<1, 16_777_216>;
/// How many bytes an edit fills a file with.
pub type FillLength = Bounded<0, 268_435_456>;
/// How many turns a line asks for.
pub type StepCount = Bounded<1, 1_000_000>;
/// How many bytes a line writes to a stream.
pub type StreamFillLength = Bounded<1, 1_048_576>;
/// How many bytes a line reads of a stream at most.
pub type ReadMost = Bounded<1, 65_536>;
/// A port of an endpoint.
pub type Port = Bounded<1, 65_535>;

impl<const LEAST: u64, const MOST: u64> Model for Bounded<LEAST, MOST> {
    ghost use Rattle.std.specs.Prelude.{ℕ, ◌≤◌};

    ghost Value = { ℕ };

    ghost view = { λ b. b.number };

    ghost invariant = { λ b. (LEAST ≤ b.number) × (b.number ≤ MOST) };
}

impl<const LEAST: u64, const MOST: u64> Bounded<LEAST, MOST> {
    /// The number, if it is within the bounds.
    pub fn of(number: u64) -> Option<Bounded<LEAST, MOST>>
        ensures { (n : ℕ) → (result ≡ Some n) ↔ ((n ≡ number) × (LEAST ≤ n) × (n ≤ MOST)) }
    {
        if LEAST <= number && number <= MOST {
            Some(Bounded { number })
        } else {
            None
        }
    }

    /// The number that a word writes in decimal, if it is within the bounds: without a sign, and without a zero before other digits.
    ///
    /// It takes no memory. Cost: the length of the word.
    pub fn read(word: &[u8]) -> Option<Bounded<LEAST, MOST>>
        ensures { (n : ℕ) → (result ≡ Some n) ↔ ((LEAST ≤ n) × (n ≤ MOST) × (word.now ≡ decimal n)) }
    {
        let number = read_number(word, MOST)?;
        Bounded::of(number)
    }

    /// The number.
    pub fn get(&self) -> u64
        ensures value { result ≡ self.now }
        ensures range { (LEAST ≤ self.now) × (self.now ≤ MOST) }
    {
        self.number
    }

    /// The same number. It takes no memory.
    pub fn copy(&self) -> Bounded<LEAST, MOST>
        ensures { result ≡ self.now }
    {
        Bounded {
            number: self.number,
        }
    }
}
