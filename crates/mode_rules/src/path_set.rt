//! Sets of paths.
ghost use Rattle.std.specs.Prelude.{◌≡◌, ◌||◌, IfOk, OnOk};
ghost use Rattle.std.specs.FinMap as trees;
ghost use Rattle.std.specs.FinSet as set;

use entry_tree::Tree;
use sqlite_items::Items;
use std::alloc::{AllocError, Global};
use std::collections::BTreeMap;
use std::collections::btree_map::Iter;
use std::marker::Model;
use sync_path::Path;

/// A set of paths.
#[derive(Drop)]
pub(crate) struct PathSet {
    paths: BTreeMap<Path, ()>,
}

impl Model for PathSet {
    ghost use Rattle.std.specs.FinMap as trees;
    ghost use Rattle.std.specs.FinSet as set;
    ghost use Rattle.std.specs.Coded.{coded_ℕ, coded_list};
    ghost use Rattle.sync_path.specs.Path.{path_cmp};

    ghost Value = { set.FinSet path_cmp };

    ghost coded = { set.code (coded_list (coded_list coded_ℕ)) };

    ghost view = { λ s. trees.from_entries s.paths.entries };
}

impl PathSet {
    /// A set of no paths. It takes no memory.
    pub(crate) fn new(alloc: Global) -> PathSet
        ensures { result ≡ trees.empty }
    {
        PathSet {
            paths: BTreeMap::new(alloc),
        }
    }

    /// Adds the path.
    pub(crate) fn insert(&mut self, path: Path) -> Result<(), AllocError>
        ensures ok { OnOk result (self.new ≡ trees.insert self.old path tt) }
    {
        self.paths.insert(path, ())?;
        Ok(())
    }

    /// Adds each path at which the tree holds something.
    pub(crate) fn add_paths(&mut self, alloc: Global, tree: &Tree) -> Result<(), AllocError>
        ensures added { OnOk result ((q : _) → trees.contains_key self.new q ≡ (trees.contains_key self.old q || trees.contains_key tree.now q)) }
    {
        'entries: for (path, _) in tree.iter() {
            self.insert(path.copy(alloc)?)?;
        }
        Ok(())
    }

    /// Goes over the paths, in path order. It takes no memory.
    pub(crate) fn iter(&self) -> Iter<'_, Path, ()>
        ensures { result ≡ trees.entries self.now }
    {
        self.paths.iter()
    }

    /// The paths, in path order.
    pub(crate) fn items(&self, alloc: Global) -> Result<Items<Path>, AllocError>
        ensures { IfOk result (λ paths. paths ≡ trees.keys self.now) }
    {
        let mut paths = Items::new(alloc);
        'keys: for (path, _) in self.iter() {
            paths.push(path.copy(alloc)?)?;
        }
        Ok(paths)
    }
}
