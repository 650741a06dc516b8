//! Why a list of texts is no list of patterns.
ghost use Rattle.std.specs.Prelude.{◌≡◌};

use std::alloc::{AllocError, AllocFailed};
use thiserror::Error;

/// The first text that is no pattern, counted from 0 among the texts that were handed in, and the byte at
/// which its first offence begins. A place past 2^32 - 1 is given as that.
#[derive(Clone, Copy, Debug, PartialEq, Eq)]
pub struct BadRule {
    pub index: u32,
    pub place: u32,
}

/// Why rules were not read.
#[derive(Clone, Copy, Debug, PartialEq, Eq, Error)]
pub enum RuleError {
    /// A text is no pattern.
    #[error("pattern {index} is bad at byte {place}", index = .0.index, place = .0.place)]
    Bad(BadRule),
    /// There was no memory.
    #[error("out of memory")]
    Memory,
}

impl From<AllocError> for RuleError {
    ghost use Rattle.ignore_rules.specs.declared.rule_error.RuleError.TheVariants.{Memory};

    ghost from_gives = { λ _ e. e ≡ Memory };

    fn from(_error: AllocError) -> RuleError {
        RuleError::Memory
    }
}

impl<T: Drop> From<AllocFailed<T>> for RuleError {
    ghost use Rattle.ignore_rules.specs.declared.rule_error.RuleError.TheVariants.{Memory};

    ghost from_gives = { λ _ e. e ≡ Memory };

    fn from(_error: AllocFailed<T>) -> RuleError {
        RuleError::Memory
    }
}
