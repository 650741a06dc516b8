//! Paths at which nothing was changed, since the mode doesn't say which side is right.
ghost use Rattle.std.specs.Prelude.{◌≡◌, IfOk};

use crate::copies::{Copied, copied_items};
use sqlite_items::Items;
use std::alloc::{AllocError, Global};
use sync_path::Path;

/// Why a path is a conflict.
#[derive(Clone, Copy, Debug, PartialEq, Eq)]
pub enum Reason {
    /// Both sides have changed what the ancestor holds at or below the path.
    Both,
    /// One side holds something there that the session leaves alone, and the other side something that it tracks.
    Blocked,
}

/// A path at and below which a session changes nothing, and the paths there, in path order, at which each side differs from the ancestor.
#[derive(Debug, Drop)]
pub struct Conflict {
    /// Where the conflict is.
    pub at: Path,
    /// Why it is one.
    pub reason: Reason,
    /// The paths at and below it at which alpha differs from the ancestor.
    pub alpha: Items<Path>,
    /// The paths at and below it at which beta differs from the ancestor.
    pub beta: Items<Path>,
}

impl Conflict {
    /// An equal conflict. Cost: the paths that it lists.
    pub fn copy(&self, alloc: Global) -> Result<Conflict, AllocError>
        ensures { IfOk result (λ conflict. conflict ≡ self.now) }
    {
        Ok(Conflict {
            at: self.at.copy(alloc)?,
            reason: self.reason,
            alpha: copied_items(alloc, self.alpha.as_slice())?,
            beta: copied_items(alloc, self.beta.as_slice())?,
        })
    }
}

impl Copied for Conflict {
    fn copied(&self, alloc: Global) -> Result<Conflict, AllocError> {
        self.copy(alloc)
    }
}
