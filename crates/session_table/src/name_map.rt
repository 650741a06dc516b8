//! The names of live sessions of one kind.
ghost use Rattle.std.specs.Prelude.{◌≡◌, ◌<◌, ◌≤◌, ◌++◌, ◌∷◌, [], ℕ, List, None, OnOk, bytes_eq, cond, string_bytes};
ghost use Rattle.std.specs.Map.{lookup};
ghost use Rattle.std.specs.Option.{option_copied};

use indexmap::IndexMap;
use std::alloc::{AllocError, Global};
use std::marker::Model;

/// The names of live sessions of one kind, with their identifiers. Contracts see a list of pairs, and how many more it may take
/// without memory.
#[derive(Drop)]
pub(crate) struct NameMap {
    ids: IndexMap<String, u128>,
}

impl Model for NameMap {
    ghost use Rattle.indexmap.specs.IndexMap.{spare};
    ghost use Rattle.session_table.specs.States.{named_entries, NamesState};

    ghost Value = { NamesState };

    ghost view = { λ n. record { names = named_entries n.ids.entries; room = spare n.ids } };
}

impl NameMap {
    /// No names. It takes no memory.
    pub(crate) fn new(alloc: Global) -> NameMap
        ensures { result.names ≡ [] }
    {
        NameMap {
            ids: IndexMap::new(alloc),
        }
    }

    /// The identifier of the session that has the name.
    pub(crate) fn get(&self, name: &str) -> Option<u128>
        ensures { result ≡ lookup (bytes_eq name.now) self.now.names }
    {
        find_id(&self.ids, name)
    }

    /// Makes room for one more name.
    pub(crate) fn reserve(&mut self) -> Result<(), AllocError>
        ensures names { self.new.names ≡ self.old.names }
        ensures ok { OnOk result (0 < self.new.room) }
    {
        self.ids.reserve(1)
    }

    /// Adds a name that no session has. It takes no memory.
    pub(crate) fn insert(&mut self, name: String, id: u128)
        requires room { 0 < self.old.room }
        requires fresh { lookup (bytes_eq (string_bytes name)) self.old.names ≡ None }
        ensures { self.new.names ≡ self.old.names ++ (string_bytes name, id) ∷ [] }
    {
        match self.ids.insert(name, id) {
            Ok(_) => {}
            Err(_) => unreachable!(),
        }
    }

    /// Takes a name away. It takes no memory.
    pub(crate) fn remove(&mut self, name: &str)
        ensures names { (q : List ℕ) → lookup (bytes_eq q) self.new.names ≡ cond (bytes_eq q name.now) None (lookup (bytes_eq q) self.old.names) }
        ensures room { self.old.room ≤ self.new.room }
    {
        self.ids.swap_remove(name);
    }
}

// The identifier at a name.
fn find_id(ids: &IndexMap<String, u128>, name: &str) -> Option<u128>
    ensures { result ≡ lookup (λ k. bytes_eq name.now (string_bytes k)) ids.now.entries }
{
    ids.get(name).copied()
}
