//! Why an edit was not done.
ghost use Rattle.std.specs.Prelude.{◌≡◌};

use entry_tree::Atom;
use std::alloc::AllocError;
use sync_path::Path;
use thiserror::Error;

/// Why an edit was not done. Nothing is changed. The numbers are those before the edit.
#[derive(Debug, Drop, Error)]
pub enum EditError {
    /// The log has this size, `MAX_LOG_SIZE`.
    #[error("the log is full")]
    LogFull(u64),
    /// Something else is needed at the path than what was found there.
    #[error("something else is needed there")]
    EditRefused {
        /// The parent of the edit's path, or the path itself.
        path: Path,
        /// What stands there.
        found: Option<Atom>,
    },
    /// So many bytes are held, and those of the edit would be more than `MAX_BYTES_HELD` with them.
    #[error("the bytes are full")]
    BytesFull(u64),
    /// There was no memory.
    #[error("out of memory")]
    Memory,
}

impl From<AllocError> for EditError {
    ghost use Rattle.roots_api.specs.declared.edit_error.EditError.TheVariants.{Memory};

    ghost from_gives = { λ _ e. e ≡ Memory };

    fn from(_error: AllocError) -> EditError {
        EditError::Memory
    }
}
