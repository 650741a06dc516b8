//! What couldn't be seen or done in a cycle.
ghost use Rattle.std.specs.Prelude.{◌≡◌, IfOk, OnErr};
ghost use Rattle.entry_tree.specs.Tree.{Names};

use crate::copies::Copied;
use entry_tree::{Digest, Side};
use std::alloc::{AllocError, Global};
use sync_path::Path;

/// Why something at a path was not seen or not done.
#[derive(Debug, Drop)]
pub enum Cause {
    /// The file changed while it was read.
    Changed,
    /// The file has more bytes than a session carries.
    TooLarge,
    /// The root failed.
    Failed,
    /// Something else stands there than the scan saw.
    Differs,
    /// The folder has names.
    NotEmpty,
    /// The folder that is to hold it isn't there.
    NoParent,
    /// The root keeps no links.
    NoLink,
    /// The root keeps no executable bits.
    NoExec,
    /// The bytes that were staged are not those that were wanted.
    DigestDiffers {
        /// The digest that was wanted.
        wanted: Digest,
        /// The digest of what was staged.
        got: Digest,
    },
    /// The file was not staged.
    NotStaged,
    /// There was no memory.
    NoMemory,
    /// It rests on what failed at this path.
    Skipped(Path),
}

/// A path at which something was not seen or not done, on one side.
#[derive(Debug, Drop)]
pub struct Problem {
    /// The side.
    pub side: Side,
    /// The path.
    pub path: Path,
    /// Why.
    pub cause: Cause,
}

impl Cause {
    /// An equal cause. Only one that names a path takes memory.
    pub fn copy(&self, alloc: Global) -> Result<Cause, AllocError>
        ensures value { IfOk result (λ cause. cause ≡ self.now) }
        ensures memory { OnErr result ((path : Names) × (self.now ≡ Cause.Skipped path)) }
    {
        match self {
            Cause::Changed => Ok(Cause::Changed),
            Cause::TooLarge => Ok(Cause::TooLarge),
            Cause::Failed => Ok(Cause::Failed),
            Cause::Differs => Ok(Cause::Differs),
            Cause::NotEmpty => Ok(Cause::NotEmpty),
            Cause::NoParent => Ok(Cause::NoParent),
            Cause::NoLink => Ok(Cause::NoLink),
            Cause::NoExec => Ok(Cause::NoExec),
            Cause::DigestDiffers { wanted, got } => Ok(Cause::DigestDiffers {
                wanted: *wanted,
                got: *got,
            }),
            Cause::NotStaged => Ok(Cause::NotStaged),
            Cause::NoMemory => Ok(Cause::NoMemory),
            Cause::Skipped(path) => match path.copy(alloc) {
                Ok(path) => Ok(Cause::Skipped(path)),
                Err(error) => Err(error),
            },
        }
    }
}

impl Problem {
    /// An equal problem.
    pub fn copy(&self, alloc: Global) -> Result<Problem, AllocError>
        ensures { IfOk result (λ problem. problem ≡ self.now) }
    {
        Ok(Problem {
            side: self.side,
            path: self.path.copy(alloc)?,
            cause: self.cause.copy(alloc)?,
        })
    }
}

impl Copied for Problem {
    fn copied(&self, alloc: Global) -> Result<Problem, AllocError> {
        self.copy(alloc)
    }
}
