//! What a session asks of a root.
ghost use Rattle.std.specs.Prelude.{◌≡◌, IsTrue, IfOk, OnErr, length};
ghost use Rattle.roots_api.specs.Asked.{IsAsked, IsEntry, IsReplaced};
ghost use Rattle.roots_api.specs.Copying.{has_path_or_bytes};
ghost use Rattle.roots_api.specs.Logs.{appended_by, offset_of};
ghost use Rattle.roots_api.specs.Steps.{is_changing};

use crate::content::Content;
use crate::file_entry::FileEntry;
use crate::leaf::Leaf;
use crate::tracked::Tracked;
use entry_tree::{Digest, Entry, Stamp, Text};
use std::alloc::{AllocError, Global};
use sync_path::Path;

/// An operation that a session asks of a root. `Place`, `MakeDir`, `MakeLink`, `Remove` and `SetExec` change the tree; they
/// are done only where the entry that they expect stands at the path, with its stamp and executable bit.
#[derive(Debug, Drop)]
pub enum Op {
    /// The names in a folder, with their entries.
    List {
        path: Path,
    },
    /// A piece of a file, from a byte of it on.
    Fetch {
        path: Path,
        /// The content that is asked for.
        stamp: Stamp,
        /// The first byte that is asked for.
        offset: u64,
    },
    /// Drops all that the session has staged.
    StageClear,
    /// Begins a new staged file, and drops one that isn't finished.
    StageOpen,
    /// Adds bytes to the staged file.
    StageAppend {
        bytes: Content,
    },
    /// Keeps the staged file under its digest.
    StageKeep {
        digest: Digest,
    },
    /// Makes a file of kept bytes, which stay kept.
    Place {
        path: Path,
        /// The digest of the kept bytes.
        digest: Digest,
        /// Whether the file is executable.
        exec: bool,
        /// What is replaced, if anything.
        expected: Option<Leaf>,
    },
    /// Makes a folder where nothing stands.
    MakeDir {
        path: Path,
    },
    /// Makes a link.
    MakeLink {
        path: Path,
        text: Text,
        /// What is replaced, if anything.
        expected: Option<Leaf>,
    },
    /// Takes away a file, a link or a folder without names.
    Remove {
        path: Path,
        /// What is taken away.
        expected: Tracked,
    },
    /// Sets or clears the executable bit of a file, and leaves its stamp.
    SetExec {
        path: Path,
        /// The file that is there.
        expected: FileEntry,
        /// The bit that it gets.
        on: bool,
    },
}

impl Op {
    /// An equal operation. Only one with a path or bytes takes memory. Cost: the lengths of paths, texts and bytes.
    pub fn copy(&self, alloc: Global) -> Result<Op, AllocError>
        ensures value { IfOk result (λ op. op ≡ self.now) }
        ensures memory { OnErr result (IsTrue (has_path_or_bytes self.now)) }
    {
        match self {
            Op::List { path } => Ok(Op::List {
                path: path.copy(alloc)?,
            }),
            Op::Fetch {
                path,
                stamp,
                offset,
            } => copy_fetch(alloc, path, *stamp, *offset),
            Op::StageClear => Ok(Op::StageClear),
            Op::StageOpen => Ok(Op::StageOpen),
            Op::StageAppend { bytes } => Ok(Op::StageAppend {
                bytes: bytes.copy(alloc)?,
            }),
            Op::StageKeep { digest } => Ok(Op::StageKeep { digest: *digest }),
            Op::Place {
                path,
                digest,
                exec,
                expected,
            } => copy_place(alloc, path, *digest, *exec, expected),
            Op::MakeDir { path } => Ok(Op::MakeDir {
                path: path.copy(alloc)?,
            }),
            Op::MakeLink {
                path,
                text,
                expected,
            } => copy_make_link(alloc, path, text, expected),
            Op::Remove { path, expected } => Ok(Op::Remove {
                path: path.copy(alloc)?,
                expected: expected.copy(alloc)?,
            }),
            Op::SetExec { path, expected, on } => Ok(Op::SetExec {
                path: path.copy(alloc)?,
                expected: expected.copy(),
                on: *on,
            }),
        }
    }

    /// Whether it is one of the five that change the tree. It takes no memory.
    pub fn is_changing(&self) -> bool
        ensures { result ≡ is_changing self.now }
    {
        match self {
            Op::Place { .. } => true,
            Op::MakeDir { .. } => true,
            Op::MakeLink { .. } => true,
            Op::Remove { .. } => true,
            Op::SetExec { .. } => true,
            _ => false,
        }
    }

    /// The byte from which on it fetches; 0 of another operation. It takes no memory.
    pub fn offset(&self) -> u64
        ensures { result ≡ offset_of self.now }
    {
        match self {
            Op::Fetch { offset, .. } => *offset,
            _ => 0,
        }
    }

    /// How many bytes it appends to a staged file. It takes no memory.
    pub fn appended_len(&self) -> usize
        ensures { result ≡ length (appended_by self.now) }
    {
        match self {
            Op::StageAppend { bytes } => bytes.len(),
            _ => 0,
        }
    }

    /// Each operation that there is can be asked: its fields keep what `IsAsked` says. It does nothing.
    pub fn can_be_asked(&self)
        ensures { IsAsked self.now }
    {
        match self {
            Op::List { path } => {
                let _ = path.names();
            }
            Op::Fetch { path, .. } => {
                let _ = path.names();
            }
            Op::StageClear => {}
            Op::StageOpen => {}
            Op::StageAppend { .. } => {}
            Op::StageKeep { digest } => {
                let _ = digest.as_bytes();
            }
            Op::Place {
                path,
                digest,
                expected,
                ..
            } => {
                let _ = path.names();
                let _ = digest.as_bytes();
                can_be_replaced(expected);
            }
            Op::MakeDir { path } => {
                let _ = path.names();
            }
            Op::MakeLink {
                path,
                text,
                expected,
            } => {
                let _ = path.names();
                let _ = text.as_str();
                can_be_replaced(expected);
            }
            Op::Remove { path, expected } => {
                let _ = path.names();
                can_be(expected.entry());
            }
            Op::SetExec { path, expected, .. } => {
                let _ = path.names();
                let _ = expected.entry();
            }
        }
    }
}

// What the type of an entry keeps. It does nothing.
fn can_be(entry: &Entry)
    ensures { IsEntry entry.now }
{
    if let Entry::Link(text) = entry {
        let _ = text.as_str();
    }
}

// What the type of an expected leaf keeps. It does nothing.
fn can_be_replaced(expected: &Option<Leaf>)
    ensures { IsReplaced expected.now }
{
    if let Some(leaf) = expected {
        can_be(leaf.entry());
    }
}

// The fetch of these, with a copy of the path.
fn copy_fetch(alloc: Global, path: &Path, stamp: Stamp, offset: u64) -> Result<Op, AllocError>
    ensures { IfOk result (λ op. op ≡ Op.Fetch path.now stamp offset) }
{
    let path = path.copy(alloc)?;
    Ok(Op::Fetch {
        path,
        stamp,
        offset,
    })
}

// The placing of these, with copies of the path and of what is expected.
fn copy_place(
    alloc: Global,
    path: &Path,
    digest: Digest,
    exec: bool,
    expected: &Option<Leaf>,
) -> Result<Op, AllocError>
    ensures { IfOk result (λ op. op ≡ Op.Place path.now digest exec expected.now) }
{
    let path = path.copy(alloc)?;
    let expected = copy_expected(alloc, expected)?;
    Ok(Op::Place {
        path,
        digest,
        exec,
        expected,
    })
}

// The making of the link, with copies of these.
fn copy_make_link(
    alloc: Global,
    path: &Path,
    text: &Text,
    expected: &Option<Leaf>,
) -> Result<Op, AllocError>
    ensures { IfOk result (λ op. op ≡ Op.MakeLink path.now text.now expected.now) }
{
    let path = path.copy(alloc)?;
    let text = text.copy(alloc)?;
    let expected = copy_expected(alloc, expected)?;
    Ok(Op::MakeLink {
        path,
        text,
        expected,
    })
}

// An equal expectation.
fn copy_expected(alloc: Global, expected: &Option<Leaf>) -> Result<Option<Leaf>, AllocError>
    ensures { IfOk result (λ copy. copy ≡ expected.now) }
{
    match expected {
        None => Ok(None),
        Some(leaf) => match leaf.copy(alloc) {
            Ok(leaf) => Ok(Some(leaf)),
            Err(error) => Err(error),
        },
    }
}
