//! Subtrees: the entries of a tree at and below one path.
ghost use Rattle.std.specs.Prelude.{◌≡◌, ◌↔◌, IsTrue, IfOk};
ghost use Rattle.std.specs.FinMap as map;
ghost use Rattle.std.specs.Option.{option_copied};

use crate::atom::Atom;
use crate::node::Node;
use std::alloc::{AllocError, Global};
use std::marker::Model;
use sync_path::Path;

/// What a tree holds at and below one path, each entry by its whole path from the root. [`TreeOf::subtree`] makes it.
///
/// Contracts see a finite map from paths, in path order, as they see a tree; but the folders above the path aren't in it.
/// It takes the room of its entries and no more.
///
/// [`TreeOf::subtree`]: crate::TreeOf::subtree
#[derive(Drop)]
pub struct SubtreeOf<T: Node> {
    entries: Vec<(Path, T)>,
}

/// A subtree of atoms.
pub type Subtree = SubtreeOf<Atom>;

impl<T: Node> Model for SubtreeOf<T> {
    ghost use Rattle.std.specs.FinMap as map;
    ghost use Rattle.std.specs.Coded.{coded_ℕ, coded_list};
    ghost use Rattle.std.specs.List.Sorted.{IsStrictlySortedBy};
    ghost use Rattle.std.specs.Map.{keys_of};
    ghost use Rattle.sync_path.specs.Path.{path_cmp};

    ghost Value = { map.FinMap path_cmp T };

    ghost coded = { map.code (coded_list (coded_list coded_ℕ)) T.code };

    ghost view = { λ s. map.from_entries s.entries.items };

    ghost invariant = { λ s. IsStrictlySortedBy path_cmp (keys_of s.entries.items) };
}

impl<T: Node> SubtreeOf<T> {
    ghost use Rattle.std.specs.List.Sorted.{IsStrictlySortedBy};
    ghost use Rattle.std.specs.Map.{keys_of};
    ghost use Rattle.sync_path.specs.Path.{path_cmp};

    /// A subtree that holds nothing. It takes no memory.
    pub fn new(alloc: Global) -> SubtreeOf<T>
        ensures { result ≡ map.empty }
    {
        SubtreeOf {
            entries: Vec::new(alloc),
        }
    }

    // The subtree of these entries.
    pub(crate) fn from_entries(entries: Vec<(Path, T)>) -> SubtreeOf<T>
        requires { IsStrictlySortedBy path_cmp (keys_of entries.items) }
        ensures { result ≡ map.from_entries entries.items }
    {
        SubtreeOf { entries }
    }

    /// What it holds at the path. It takes no memory. Cost: O(log n) comparisons of paths.
    pub fn get(&self, path: &Path) -> Option<&T>
        ensures { option_copied result ≡ map.get self.now path.now }
    {
        let entries = self.entries.as_slice();
        match entries.binary_search_by(|entry| entry.0.compare(path)) {
            Ok(place) => Some(&entries[place].1),
            Err(_) => None,
        }
    }

    /// All entries, in path order. It takes no memory.
    pub fn entries(&self) -> &[(Path, T)]
        ensures { result.now ≡ map.entries self.now }
    {
        self.entries.as_slice()
    }

    /// How many entries it has. It takes no memory.
    pub fn len(&self) -> usize
        ensures { result ≡ map.len self.now }
    {
        self.entries().len()
    }

    /// Whether it holds nothing. It takes no memory.
    pub fn is_empty(&self) -> bool
        ensures { IsTrue result ↔ (map.len self.now ≡ 0) }
    {
        self.len() == 0
    }

    /// An equal subtree. Cost: the lengths of its paths and nodes.
    pub fn copy(&self, alloc: Global) -> Result<SubtreeOf<T>, AllocError>
        ensures { IfOk result (λ copy. copy ≡ self.now) }
    {
        let entries = copies(alloc, self.entries.as_slice())?;
        Ok(SubtreeOf { entries })
    }
}

// Copies of these entries, in the room that they take.
fn copies<T: Node>(alloc: Global, entries: &[(Path, T)]) -> Result<Vec<(Path, T)>, AllocError>
    ensures { IfOk result (λ copies. copies.items ≡ entries.now) }
{
    let mut copies = Vec::with_capacity(alloc, entries.len())?;
    for (path, node) in entries {
        let path = path.copy(alloc)?;
        let node = node.copy(alloc)?;
        copies.push((path, node))?;
    }
    Ok(copies)
}
