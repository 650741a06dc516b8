//! What a session sees at a path.
ghost use Rattle.std.specs.Prelude.{◌≡◌, IsTrue, IfOk, OnErr};
ghost use Rattle.entry_tree.specs.Atom.{is_dir, is_link, is_tracked, same_atom};

use crate::digest::Digest;
use crate::node::Node;
use crate::problem_kind::ProblemKind;
use crate::text::Text;
use std::alloc::{AllocError, Global};

/// What a session sees at a path. Folders, files and links are tracked.
#[derive(Debug, Drop, PartialEq, Eq)]
pub enum Atom {
    /// A folder.
    Dir,
    /// A file, by the digest of its content. The bit is true exactly where the file is executable.
    File(Digest, bool),
    /// A symbolic link, by its text.
    Link(Text),
    /// Something that the session leaves alone: an ignored path, or neither a folder, a plain file nor a link.
    Untracked,
    /// A file whose content was not seen.
    Problem(ProblemKind),
}

impl Atom {
    /// An equal atom. Only a link takes memory. Cost: the length of a link's text.
    pub fn copy(&self, alloc: Global) -> Result<Atom, AllocError>
        ensures value { IfOk result (λ atom. atom ≡ self.now) }
        ensures memory { OnErr result (IsTrue (is_link self.now)) }
    {
        match self {
            Atom::Dir => Ok(Atom::Dir),
            Atom::File(digest, executable) => Ok(Atom::File(*digest, *executable)),
            Atom::Link(text) => match text.copy(alloc) {
                Ok(text) => Ok(Atom::Link(text)),
                Err(error) => Err(error),
            },
            Atom::Untracked => Ok(Atom::Untracked),
            Atom::Problem(kind) => Ok(Atom::Problem(*kind)),
        }
    }

    /// Whether this is a folder.
    pub fn is_dir(&self) -> bool
        ensures { result ≡ is_dir self.now }
    {
        match self {
            Atom::Dir => true,
            Atom::File(_, _) => false,
            Atom::Link(_) => false,
            Atom::Untracked => false,
            Atom::Problem(_) => false,
        }
    }

    /// Whether this is a folder, a file or a link, which sessions carry.
    pub fn is_tracked(&self) -> bool
        ensures { result ≡ is_tracked self.now }
    {
        match self {
            Atom::Dir => true,
            Atom::File(_, _) => true,
            Atom::Link(_) => true,
            Atom::Untracked => false,
            Atom::Problem(_) => false,
        }
    }

    /// Whether the two are the same, as `==` tells: two files have one digest and one bit. Cost: the length of the texts of two links.
    pub fn is_same(&self, other: &Atom) -> bool
        ensures { result ≡ same_atom self.now other.now }
    {
        self == other
    }
}

impl Node for Atom {
    ghost use Rattle.entry_tree.specs.Atom.{is_dir, is_link};

    ghost is_folder = { is_dir };

    ghost takes_memory = { is_link };

    fn is_dir(&self) -> bool {
        Atom::is_dir(self)
    }

    fn copy(&self, alloc: Global) -> Result<Atom, AllocError> {
        Atom::copy(self, alloc)
    }
}
