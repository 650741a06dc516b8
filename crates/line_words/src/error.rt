//! Why a word was not read.
ghost use Rattle.std.specs.Prelude.{◌≡◌};

use std::alloc::AllocError;
use thiserror::Error;

/// A word that isn't spelt as one: the byte of the line at which it begins.
#[derive(Clone, Copy, Debug, PartialEq, Eq)]
pub struct BadWord {
    pub place: usize,
}

/// Why the next word of a line was not read.
#[derive(Clone, Copy, Debug, PartialEq, Eq, Error)]
pub enum WordError {
    /// It isn't spelt as a word.
    #[error("not a word, at byte {place}", place = .0.place)]
    Bad(BadWord),
    /// There was no memory.
    #[error("out of memory")]
    Memory,
}

impl From<AllocError> for WordError {
    ghost use Rattle.line_words.specs.declared.error.WordError.TheVariants.{Memory};

    ghost from_gives = { λ _ e. e ≡ Memory };

    fn from(_error: AllocError) -> WordError {
        WordError::Memory
    }
}
