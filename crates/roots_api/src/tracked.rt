//! What is taken away.
ghost use Rattle.std.specs.Prelude.{◌≡◌, cond, Some, None, IsTrue, IfOk, OnErr};
ghost use Rattle.entry_tree.specs.Entry.{is_link, is_tracked};

use entry_tree::{Entry, Node};
use std::alloc::{AllocError, Global};
use std::marker::Model;

/// An entry that is a folder, a file or a link, which a session may take away. Contracts see the entry.
#[derive(Debug, Drop)]
pub struct Tracked {
    entry: Entry,
}

impl Model for Tracked {
    ghost use Rattle.std.specs.Prelude.{IsTrue};
    ghost use Rattle.entry_tree.specs.declared.entry.Entry.{Entry};
    ghost use Rattle.entry_tree.specs.Entry.{is_tracked};

    ghost Value = { Entry };

    ghost view = { λ t. t.entry };

    ghost invariant = { λ t. IsTrue (is_tracked t.entry) };
}

impl Tracked {
    /// The entry as a tracked one; none where it is something else. It takes no memory.
    pub fn of(entry: Entry) -> Option<Tracked>
        ensures { result ≡ cond (is_tracked entry) (Some entry) None }
    {
        if entry.is_tracked() {
            Some(Tracked { entry })
        } else {
            None
        }
    }

    /// The entry. It takes no memory.
    pub fn entry(&self) -> &Entry
        ensures value { result.now ≡ self.now }
        ensures tracked { IsTrue (is_tracked self.now) }
    {
        &self.entry
    }

    /// An equal one. Only a link takes memory. Cost: the length of a link's text.
    pub fn copy(&self, alloc: Global) -> Result<Tracked, AllocError>
        ensures value { IfOk result (λ tracked. tracked ≡ self.now) }
        ensures memory { OnErr result (IsTrue (is_link self.now)) }
    {
        let entry = self.entry.copy(alloc)?;
        Ok(Tracked { entry })
    }
}
