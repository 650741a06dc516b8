//! Why a text was not read as an atom.
ghost use Rattle.std.specs.Prelude.{◌≡◌};

use std::alloc::AllocError;
use thiserror::Error;

/// Where a line is no atom: the first byte of the first word that no atom goes on with, or the line's length where
/// it ends early.
#[derive(Clone, Copy, Debug, PartialEq, Eq)]
pub struct BadAtom {
    pub place: usize,
}

/// Why a text was not read as an atom.
#[derive(Clone, Copy, Debug, PartialEq, Eq, Error)]
pub enum AtomError {
    /// The text spells no atom.
    #[error("not an atom, at byte {place}", place = .0.place)]
    Bad(BadAtom),
    /// There was no memory.
    #[error("out of memory")]
    Memory,
}

impl From<AllocError> for AtomError {
    ghost use Rattle.entry_tree.specs.declared.atom_error.AtomError.TheVariants.{Memory};

    ghost from_gives = { λ _ e. e ≡ Memory };

    fn from(_error: AllocError) -> AtomError {
        AtomError::Memory
    }
}
