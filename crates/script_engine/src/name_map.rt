//! Maps by the names of files.
ghost use Rattle.std.specs.Prelude.{◌≡◌, ◌<◌, ◌^◌, ◌↔◌, IsTrue, OnOk, OnErr};
ghost use Rattle.std.specs.FinMap as map;
ghost use Rattle.std.specs.Option.{option_copied};

use std::alloc::{AllocError, Global};
use std::collections::BTreeMap;
use std::collections::btree_map::Iter;
use std::marker::Model;
use sync_path::Name;

/// A map from names. Contracts see a finite map from the names' bytes, in their order.
///
/// A look-up and an insertion cost O(log n) comparisons of names.
#[derive(Drop)]
pub struct NameMap<V> {
    tree: BTreeMap<Name, V>,
}

impl<V> Model for NameMap<V> {
    ghost use Rattle.std.specs.FinMap as map;
    ghost use Rattle.std.specs.Coded.{coded_ℕ, coded_list};
    ghost use Rattle.std.specs.Ordering.{nat_cmp};
    ghost use Rattle.std.specs.Cmp.Lexicographic.{slice_cmp};

    ghost Value = { map.FinMap (slice_cmp nat_cmp) V };

    ghost coded = { map.code (coded_list coded_ℕ) V.code };

    ghost view = { λ m. map.from_entries m.tree.entries };
}

impl<V> NameMap<V> {
    /// A map with no names. It takes no memory.
    pub fn new(alloc: Global) -> NameMap<V>
        ensures { result ≡ map.empty }
    {
        NameMap {
            tree: BTreeMap::new(alloc),
        }
    }

    /// What the map has at the name. It takes no memory.
    pub fn get(&self, name: &Name) -> Option<&V>
        ensures { option_copied result ≡ map.get self.now name.now }
    {
        self.tree.get(name)
    }

    /// How many names the map has. It takes no memory.
    pub fn len(&self) -> usize
        ensures count { result ≡ map.len self.now }
        ensures small { result < 2 ^ 63 }
    {
        self.tree.len()
    }

    /// Whether the map has no names. It takes no memory.
    pub fn is_empty(&self) -> bool
        ensures { IsTrue result ↔ (map.len self.now ≡ 0) }
    {
        self.len() == 0
    }

    /// Goes over the names and what the map has there, in the order of the names' bytes. It takes
    /// no memory.
    pub fn iter(&self) -> Iter<'_, Name, V>
        ensures rest { result ≡ map.entries self.now }
        ensures small { map.len self.now < 2 ^ 63 }
    {
        self.tree.iter()
    }
}

impl<V: Drop> NameMap<V> {
    /// Puts the value at the name, in place of what was there. It takes memory for a new name, and
    /// where there is none the map stays as it was.
    pub fn insert(&mut self, name: Name, value: V) -> Result<(), AllocError>
        ensures ok { OnOk result (self.new ≡ map.insert self.old name value) }
        ensures err { OnErr result (self.new ≡ self.old) }
    {
        self.tree.insert(name, value)?;
        Ok(())
    }
}
