//! What a root holds at a path.
ghost use Rattle.std.specs.Prelude.{◌≡◌};
ghost use Rattle.entry_tree.specs.Entry.{is_tracked};

use crate::node::Node;
use crate::text::Text;
use std::alloc::{AllocError, Global};

/// Names one content of a file in a root: a root gives another stamp to another content. The executable bit has no part in it.
#[derive(Clone, Copy, Debug, PartialEq, Eq)]
pub struct Stamp(pub u128);

/// What a root holds at a path.
#[derive(Debug, Drop, PartialEq, Eq)]
pub enum Entry {
    /// A folder.
    Dir,
    /// A file, by the stamp of its content. The bit is true exactly where the file is executable.
    File(Stamp, bool),
    /// A symbolic link, by its text.
    Link(Text),
    /// Something else, which is never tracked.
    Other,
}

impl Entry {
    /// Whether this is a folder, a file or a link, which sessions carry.
    pub fn is_tracked(&self) -> bool
        ensures { result ≡ is_tracked self.now }
    {
        match self {
            Entry::Dir => true,
            Entry::File(_, _) => true,
            Entry::Link(_) => true,
            Entry::Other => false,
        }
    }
}

impl Node for Entry {
    ghost use Rattle.entry_tree.specs.Entry.{is_dir, is_link};

    ghost is_folder = { is_dir };

    ghost takes_memory = { is_link };

    fn is_dir(&self) -> bool {
        match self {
            Entry::Dir => true,
            Entry::File(_, _) => false,
            Entry::Link(_) => false,
            Entry::Other => false,
        }
    }

    fn copy(&self, alloc: Global) -> Result<Entry, AllocError> {
        match self {
            Entry::Dir => Ok(Entry::Dir),
            Entry::File(stamp, executable) => Ok(Entry::File(*stamp, *executable)),
            Entry::Link(text) => match text.copy(alloc) {
                Ok(text) => Ok(Entry::Link(text)),
                Err(error) => Err(error),
            },
            Entry::Other => Ok(Entry::Other),
        }
    }
}
