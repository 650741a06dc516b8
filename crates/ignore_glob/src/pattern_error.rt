//! Why a text is no pattern.
ghost use Rattle.std.specs.Prelude.{◌≡◌};
ghost use Rattle.ignore_glob.specs.Faults.{counted};
ghost use Rattle.ignore_glob.specs.declared.pattern_error.PatternError.TheVariants.{Bad};

use crate::limits::MAX_PLACE;
use std::alloc::AllocError;
use thiserror::Error;

/// Where a text goes wrong: the byte at which its first offence begins. A place past 2^32 - 1 ([`MAX_PLACE`]) is given as that.
#[derive(Clone, Copy, Debug, PartialEq, Eq)]
pub struct BadPattern {
    pub place: u32,
}

/// Why a pattern was not read.
#[derive(Clone, Copy, Debug, PartialEq, Eq, Error)]
pub enum PatternError {
    /// The text is no pattern.
    #[error("not a pattern, at byte {place}", place = .0.place)]
    Bad(BadPattern),
    /// There was no memory.
    #[error("out of memory")]
    Memory,
}

impl PatternError {
    /// The text goes wrong at this byte.
    pub(crate) fn at(place: usize) -> PatternError
        ensures { result ≡ Bad (record { place = counted place }) }
    {
        PatternError::Bad(BadPattern {
            place: u32::try_from(place).unwrap_or(MAX_PLACE),
        })
    }
}

impl From<AllocError> for PatternError {
    ghost use Rattle.ignore_glob.specs.declared.pattern_error.PatternError.TheVariants.{Memory};

    ghost from_gives = { λ _ e. e ≡ Memory };

    fn from(_error: AllocError) -> PatternError {
        PatternError::Memory
    }
}
