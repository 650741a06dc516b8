//! Why a text was not read.
ghost use Rattle.std.specs.Prelude.{◌≡◌};

use std::alloc::AllocError;
use thiserror::Error;

/// Where a text breaks the rules of names: a byte offset into the text.
#[derive(Clone, Copy, Debug, PartialEq, Eq)]
pub struct BadPath {
    pub place: u32,
}

/// Why a name or a path was not read.
#[derive(Clone, Copy, Debug, PartialEq, Eq, Error)]
pub enum PathError {
    /// The text breaks the rules.
    #[error("a name that is not allowed, at byte {place}", place = .0.place)]
    Bad(BadPath),
    /// There was no memory.
    #[error("out of memory")]
    Memory,
}

impl From<AllocError> for PathError {
    ghost use Rattle.sync_path.specs.declared.path_error.PathError.TheVariants.{Memory};

    ghost from_gives = { λ _ e. e ≡ Memory };

    fn from(_error: AllocError) -> PathError {
        PathError::Memory
    }
}
