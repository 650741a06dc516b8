//! What a file or a link replaces.
ghost use Rattle.std.specs.Prelude.{◌≡◌, cond, Some, None, IsTrue, IfOk, OnErr};
ghost use Rattle.entry_tree.specs.Entry.{is_link};
ghost use Rattle.roots_api.specs.Expected.{is_leaf};

use entry_tree::{Entry, Node};
use std::alloc::{AllocError, Global};
use std::marker::Model;

/// An entry that is a file or a link, which alone can be replaced. Contracts see the entry.
#[derive(Debug, Drop)]
pub struct Leaf {
    entry: Entry,
}

impl Model for Leaf {
    ghost use Rattle.std.specs.Prelude.{IsTrue};
    ghost use Rattle.entry_tree.specs.declared.entry.Entry.{Entry};
    ghost use Rattle.roots_api.specs.Expected.{is_leaf};

    ghost Value = { Entry };

    ghost view = { λ l. l.entry };

    ghost invariant = { λ l. IsTrue (is_leaf l.entry) };
}

impl Leaf {
    /// The entry as a leaf; none where it is neither a file nor a link. It takes no memory.
    pub fn of(entry: Entry) -> Option<Leaf>
        ensures { result ≡ cond (is_leaf entry) (Some entry) None }
    {
        if is_leaf(&entry) {
            Some(Leaf { entry })
        } else {
            None
        }
    }

    /// The entry. It takes no memory.
    pub fn entry(&self) -> &Entry
        ensures value { result.now ≡ self.now }
        ensures leaf { IsTrue (is_leaf self.now) }
    {
        &self.entry
    }

    /// An equal leaf. Only a link takes memory. Cost: the length of a link's text.
    pub fn copy(&self, alloc: Global) -> Result<Leaf, AllocError>
        ensures value { IfOk result (λ leaf. leaf ≡ self.now) }
        ensures memory { OnErr result (IsTrue (is_link self.now)) }
    {
        let entry = self.entry.copy(alloc)?;
        Ok(Leaf { entry })
    }
}

// Whether an entry is a file or a link.
fn is_leaf(entry: &Entry) -> bool
    ensures { result ≡ is_leaf entry.now }
{
    match entry {
        Entry::Dir => false,
        Entry::File(_, _) => true,
        Entry::Link(_) => true,
        Entry::Other => false,
    }
}
