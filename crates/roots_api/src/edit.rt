//! What an editor changes.
ghost use Rattle.std.specs.Prelude.{◌≡◌, IfOk, length};
ghost use Rattle.roots_api.specs.Asked.{IsMade};
ghost use Rattle.roots_api.specs.Told.{put_by};

use crate::content::Content;
use entry_tree::Text;
use std::alloc::{AllocError, Global};
use sync_path::Path;

/// An editor's change of a root.
#[derive(Debug, Drop)]
pub enum Edit {
    /// Writes a file that isn't executable, in place of a file, a link or something else.
    Put { path: Path, bytes: Content },
    /// Makes a link, in place of a file, a link or something else.
    Link { path: Path, text: Text },
    /// Makes a folder where nothing stands.
    Dir { path: Path },
    /// Makes something that is never tracked, in place of a file, a link or something else.
    Other { path: Path },
    /// Sets or clears a file's executable bit.
    SetExec { path: Path, on: bool },
    /// Takes away all at and below the path.
    Del { path: Path },
}

impl Edit {
    /// An equal change. Cost: the lengths of paths, texts and bytes.
    pub fn copy(&self, alloc: Global) -> Result<Edit, AllocError>
        ensures { IfOk result (λ edit. edit ≡ self.now) }
    {
        match self {
            Edit::Put { path, bytes } => {
                let path = path.copy(alloc)?;
                let bytes = bytes.copy(alloc)?;
                Ok(Edit::Put { path, bytes })
            }
            Edit::Link { path, text } => {
                let path = path.copy(alloc)?;
                let text = text.copy(alloc)?;
                Ok(Edit::Link { path, text })
            }
            Edit::Dir { path } => {
                let path = path.copy(alloc)?;
                Ok(Edit::Dir { path })
            }
            Edit::Other { path } => {
                let path = path.copy(alloc)?;
                Ok(Edit::Other { path })
            }
            Edit::SetExec { path, on } => Ok(Edit::SetExec {
                path: path.copy(alloc)?,
                on: *on,
            }),
            Edit::Del { path } => {
                let path = path.copy(alloc)?;
                Ok(Edit::Del { path })
            }
        }
    }

    /// How many bytes the change adds to the content ledger. It takes no memory.
    pub fn put_len(&self) -> usize
        ensures { result ≡ length (put_by self.now) }
    {
        match self {
            Edit::Put { bytes, .. } => bytes.len(),
            _ => 0,
        }
    }

    /// Each change that there is can be made: its path is one, and so is its text. It does nothing.
    pub fn can_be_made(&self)
        ensures { IsMade self.now }
    {
        match self {
            Edit::Put { path, .. } => {
                let _ = path.names();
            }
            Edit::Link { path, text } => {
                let _ = path.names();
                let _ = text.as_str();
            }
            Edit::Dir { path } => {
                let _ = path.names();
            }
            Edit::Other { path } => {
                let _ = path.names();
            }
            Edit::SetExec { path, .. } => {
                let _ = path.names();
            }
            Edit::Del { path } => {
                let _ = path.names();
            }
        }
    }
}
