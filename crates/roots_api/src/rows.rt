//! What stands directly in a folder.
ghost use Rattle.std.specs.Prelude.{◌≡◌, ◌==◌, ◌++◌, ◌∷◌, [], length, IfOk, OnOk, OnErr};

use entry_tree::{Entry, Node};
use std::alloc::{AllocError, Global};
use std::marker::Model;
use sync_path::Name;

/// What stands directly in a folder: names with their entries, in the order of the names. Contracts see the list of pairs.
#[derive(Debug, Drop)]
pub struct Rows {
    rows: Vec<(Name, Entry)>,
}

impl Model for Rows {
    ghost use Rattle.std.specs.Prelude.{ℕ, List};
    ghost use Rattle.entry_tree.specs.declared.entry.Entry.{Entry};

    ghost Value = { List (List ℕ × Entry) };

    ghost view = { λ r. r.rows.items };
}

impl Rows {
    /// No rows. It takes no memory.
    pub fn new(alloc: Global) -> Rows
        ensures { result ≡ [] }
    {
        Rows {
            rows: Vec::new(alloc),
        }
    }

    /// The rows in order. It takes no memory.
    pub fn as_slice(&self) -> &[(Name, Entry)]
        ensures { result.now ≡ self.now }
    {
        self.rows.as_slice()
    }

    /// How many rows there are. It takes no memory.
    pub fn len(&self) -> usize
        ensures { result ≡ length self.now }
    {
        self.rows.len()
    }

    /// Whether there are none. It takes no memory.
    pub fn is_empty(&self) -> bool
        ensures { result ≡ (length self.now == 0) }
    {
        self.rows.is_empty()
    }

    /// Adds a row at the end. After an `Err` nothing is changed.
    pub fn push(&mut self, name: Name, entry: Entry) -> Result<(), AllocError>
        ensures ok { OnOk result (self.new ≡ self.old ++ (name, entry) ∷ []) }
        ensures err { OnErr result (self.new ≡ self.old) }
    {
        self.rows.push((name, entry))?;
        Ok(())
    }

    /// Equal rows. Cost: their number, and the lengths of names and links.
    pub fn copy(&self, alloc: Global) -> Result<Rows, AllocError>
        ensures { IfOk result (λ rows. rows ≡ self.now) }
    {
        let mut rows = Rows::new(alloc);
        for (name, entry) in self.rows.iter() {
            let name = name.copy(alloc)?;
            let entry = entry.copy(alloc)?;
            rows.push(name, entry)?;
        }
        Ok(rows)
    }
}
