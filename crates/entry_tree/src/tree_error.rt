//! Why nothing was set in a tree.
ghost use Rattle.std.specs.Prelude.{◌≡◌};

use std::alloc::AllocError;
use thiserror::Error;

/// Why nothing was set at a path of a tree.
#[derive(Clone, Copy, Debug, PartialEq, Eq, Error)]
pub enum TreeError {
    /// The tree holds nothing at the path's parent.
    #[error("nothing at the parent of the path")]
    NoParent,
    /// The tree holds something at the path's parent that is no folder.
    #[error("no folder at the parent of the path")]
    NotDir,
    /// There was no memory.
    #[error("out of memory")]
    Memory,
}

impl From<AllocError> for TreeError {
    ghost use Rattle.entry_tree.specs.declared.tree_error.TreeError.TheVariants.{Memory};

    ghost from_gives = { λ _ e. e ≡ Memory };

    fn from(_error: AllocError) -> TreeError {
        TreeError::Memory
    }
}
