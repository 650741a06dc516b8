//! The ignore patterns of a session.
ghost use Rattle.std.specs.Prelude.{◌≡◌, ◌++◌, ◌∷◌, [], cond, IfOk, OnErr, length, nat_lt};
ghost use Rattle.request_text.specs.Patterns.{ArePatterns};
ghost use Rattle.request_text.specs.declared.patterns.TheConstants.{MAX_PATTERNS};

use command_words::PatternText;
use std::alloc::{AllocError, Global};
use std::marker::Model;

/// How many ignore patterns a session may have.
pub const MAX_PATTERNS: usize = 256;

/// The texts of a session's ignore patterns: at most 256, in order. Contracts see a list of texts.
#[derive(Debug, Drop)]
pub struct Patterns {
    patterns: Vec<PatternText>,
}

impl Model for Patterns {
    ghost use Rattle.std.specs.Prelude.{ℕ, List};
    ghost use Rattle.std.specs.Coded.{coded_ℕ, coded_list};
    ghost use Rattle.request_text.specs.Patterns.{ArePatterns};

    ghost Value = { List (List ℕ) };

    ghost coded = { coded_list (coded_list coded_ℕ) };

    ghost view = { λ p. p.patterns.items };

    ghost invariant = { λ p. ArePatterns p.patterns.items };
}

impl Patterns {
    /// No patterns. It takes no memory.
    pub fn new(alloc: Global) -> Patterns
        ensures { result ≡ [] }
    {
        Patterns {
            patterns: Vec::new(alloc),
        }
    }

    /// Takes a pattern in behind the others, if there are fewer than 256, and says whether it did.
    pub fn push(&mut self, pattern: PatternText) -> Result<bool, AllocError>
        ensures taken { IfOk result (λ taken. taken ≡ nat_lt (length self.old) MAX_PATTERNS) }
        ensures patterns { IfOk result (λ taken. self.new ≡ cond taken (self.old ++ pattern ∷ []) self.old) }
        ensures err { OnErr result (self.new ≡ self.old) }
    {
        if !has_room(self.patterns.as_slice()) {
            return Ok(false);
        }
        self.patterns.push(pattern)?;
        Ok(true)
    }

    /// The patterns, in order. It takes no memory.
    pub fn as_slice(&self) -> &[PatternText]
        ensures value { result.now ≡ self.now }
        ensures patterns { ArePatterns self.now }
    {
        self.patterns.as_slice()
    }

    /// Equal patterns. Cost: their lengths.
    pub fn copy(&self, alloc: Global) -> Result<Patterns, AllocError>
        ensures { IfOk result (λ patterns. patterns ≡ self.now) }
    {
        let patterns = copied(alloc, self.patterns.as_slice())?;
        Ok(Patterns { patterns })
    }
}

// Whether there is room for one more pattern.
fn has_room(patterns: &[PatternText]) -> bool
    ensures { result ≡ nat_lt (length patterns.now) MAX_PATTERNS }
{
    patterns.len() < MAX_PATTERNS
}

// Copies of these patterns.
fn copied(alloc: Global, patterns: &[PatternText]) -> Result<Vec<PatternText>, AllocError>
    ensures { IfOk result (λ copies. copies.items ≡ patterns.now) }
{
    let mut copies = Vec::new(alloc);
    for pattern in patterns {
        copies.push(pattern.copy(alloc)?)?;
    }
    Ok(copies)
}
