//! What a root answers.
ghost use Rattle.std.specs.Prelude.{◌≡◌, IfOk};
ghost use Rattle.roots_api.specs.Answers.{is_done, is_dropped, is_failed, is_full};
ghost use Rattle.roots_api.specs.Logs.{rows_in, spanned};

use crate::content::Content;
use crate::event::Span;
use crate::found::copy_found;
use crate::rows::Rows;
use entry_tree::{Digest, Entry, Stamp};
use std::alloc::{AllocError, Global};

/// How full a root's log is.
#[derive(Clone, Copy, Debug, PartialEq, Eq)]
pub struct Room {
    /// The size of the log.
    pub log: u64,
    /// The number of bytes held.
    pub bytes: u64,
}

/// What a root answers to an operation. The bytes of a piece are of the type `B`: a log keeps only where they are.
///
/// What was found is what stood at the path, and of `NoParent` what stood at the path's parent.
#[derive(Debug, Drop)]
pub enum Answer<B = Content> {
    /// The names in the folder, with their entries.
    Listed(Rows),
    /// No folder stands there.
    Held(Option<Entry>),
    /// The bytes from the offset on.
    Piece {
        bytes: B,
        /// Whether they reach the end of the file.
        last: bool,
    },
    /// The file with the stamp doesn't stand there.
    Changed(Option<Entry>),
    /// The file has so many bytes, more than `MAX_FETCH`.
    TooLarge(u64),
    /// Nothing is staged.
    Cleared,
    /// A staged file is begun.
    Opened,
    /// The staged file is kept.
    Kept,
    /// No staged file is begun, or no bytes of the digest are kept.
    NotStaged,
    /// The staged file has another digest, and is dropped.
    DigestDiffers {
        /// The digest that was asked for.
        wanted: Digest,
        /// The digest of the staged bytes.
        got: Digest,
    },
    /// It is done. A file that was placed has this stamp.
    Done(Option<Stamp>),
    /// No folder stands at the path's parent.
    NoParent(Option<Entry>),
    /// Something else stands there than was expected.
    Differs(Option<Entry>),
    /// The root keeps no links.
    NoLink,
    /// The root keeps no executable bits, and one was to be set.
    NoExec,
    /// The folder has names.
    NotEmpty,
    /// There is no room; nothing is done.
    Full(Room),
    /// The root failed; nothing is done.
    Failed,
}

impl Answer {
    /// An equal answer. Cost: the rows, the bytes of a piece, or the length of a link's text.
    pub fn copy(&self, alloc: Global) -> Result<Answer, AllocError>
        ensures { IfOk result (λ answer. answer ≡ self.now) }
    {
        match self {
            Answer::Listed(rows) => Ok(Answer::Listed(rows.copy(alloc)?)),
            Answer::Held(found) => Ok(Answer::Held(copy_found(alloc, found.as_ref())?)),
            Answer::Piece { bytes, last } => Ok(Answer::Piece {
                bytes: bytes.copy(alloc)?,
                last: *last,
            }),
            Answer::Changed(found) => Ok(Answer::Changed(copy_found(alloc, found.as_ref())?)),
            Answer::TooLarge(bytes) => Ok(Answer::TooLarge(*bytes)),
            Answer::Cleared => Ok(Answer::Cleared),
            Answer::Opened => Ok(Answer::Opened),
            Answer::Kept => Ok(Answer::Kept),
            Answer::NotStaged => Ok(Answer::NotStaged),
            Answer::DigestDiffers { wanted, got } => Ok(Answer::DigestDiffers {
                wanted: *wanted,
                got: *got,
            }),
            Answer::Done(stamp) => Ok(Answer::Done(*stamp)),
            Answer::NoParent(found) => Ok(Answer::NoParent(copy_found(alloc, found.as_ref())?)),
            Answer::Differs(found) => Ok(Answer::Differs(copy_found(alloc, found.as_ref())?)),
            Answer::NoLink => Ok(Answer::NoLink),
            Answer::NoExec => Ok(Answer::NoExec),
            Answer::NotEmpty => Ok(Answer::NotEmpty),
            Answer::Full(room) => Ok(Answer::Full(*room)),
            Answer::Failed => Ok(Answer::Failed),
        }
    }

    /// The answer with where the bytes of a piece are, in place of the bytes; the piece begins at the offset. Cost: the rows,
    /// or the length of a link's text.
    pub fn spanned(&self, alloc: Global, offset: u64) -> Result<Answer<Span>, AllocError>
        ensures { IfOk result (λ logged. logged ≡ spanned offset self.now) }
    {
        match self {
            Answer::Listed(rows) => Ok(Answer::Listed(rows.copy(alloc)?)),
            Answer::Held(found) => Ok(Answer::Held(copy_found(alloc, found.as_ref())?)),
            Answer::Piece { bytes, last } => Ok(Answer::Piece {
                bytes: Span {
                    offset,
                    length: bytes.len() as u64,
                },
                last: *last,
            }),
            Answer::Changed(found) => Ok(Answer::Changed(copy_found(alloc, found.as_ref())?)),
            Answer::TooLarge(bytes) => Ok(Answer::TooLarge(*bytes)),
            Answer::Cleared => Ok(Answer::Cleared),
            Answer::Opened => Ok(Answer::Opened),
            Answer::Kept => Ok(Answer::Kept),
            Answer::NotStaged => Ok(Answer::NotStaged),
            Answer::DigestDiffers { wanted, got } => Ok(Answer::DigestDiffers {
                wanted: *wanted,
                got: *got,
            }),
            Answer::Done(stamp) => Ok(Answer::Done(*stamp)),
            Answer::NoParent(found) => Ok(Answer::NoParent(copy_found(alloc, found.as_ref())?)),
            Answer::Differs(found) => Ok(Answer::Differs(copy_found(alloc, found.as_ref())?)),
            Answer::NoLink => Ok(Answer::NoLink),
            Answer::NoExec => Ok(Answer::NoExec),
            Answer::NotEmpty => Ok(Answer::NotEmpty),
            Answer::Full(room) => Ok(Answer::Full(*room)),
            Answer::Failed => Ok(Answer::Failed),
        }
    }

    /// Whether it tells that the operation was done. It takes no memory.
    pub fn is_done(&self) -> bool
        ensures { result ≡ is_done self.now }
    {
        match self {
            Answer::Cleared => true,
            Answer::Opened => true,
            Answer::Kept => true,
            Answer::Done(_) => true,
            _ => false,
        }
    }

    /// Whether it tells that the unfinished file was dropped. It takes no memory.
    pub fn is_dropped(&self) -> bool
        ensures { result ≡ is_dropped self.now }
    {
        match self {
            Answer::DigestDiffers { .. } => true,
            _ => false,
        }
    }

    /// Whether it is Full. It takes no memory.
    pub fn is_full(&self) -> bool
        ensures { result ≡ is_full self.now }
    {
        match self {
            Answer::Full(_) => true,
            _ => false,
        }
    }

    /// Whether it is Failed. It takes no memory.
    pub fn is_failed(&self) -> bool
        ensures { result ≡ is_failed self.now }
    {
        match self {
            Answer::Failed => true,
            _ => false,
        }
    }

    /// How many rows it lists. It takes no memory.
    pub fn rows_in(&self) -> usize
        ensures { result ≡ rows_in self.now }
    {
        match self {
            Answer::Listed(rows) => rows.len(),
            _ => 0,
        }
    }
}
