//! Trees.
ghost use Rattle.std.specs.Prelude.{◌≡◌, ◌↔◌, ◌<◌, ◌^◌, IsTrue, IfOk, OnOk, OnErr, Ok, Err, None, Some};
ghost use Rattle.std.specs.FinMap as map;
ghost use Rattle.std.specs.Option.{option_copied};
ghost use Rattle.entry_tree.specs.Tree.{IsClosed, set_at, without_under, at_parent, refusal, entries_under, entries_below, has_below, children_below};
ghost use Rattle.entry_tree.specs.declared.tree_error.TreeError.TheVariants.{NoParent, NotDir};

use crate::atom::Atom;
use crate::child::{Child, children_in};
use crate::node::Node;
use crate::prune::{take_below, take_under};
use crate::put::{put, replace};
use crate::tree_error::TreeError;
use crate::walk::Under;
use std::alloc::{AllocError, Global};
use std::collections::BTreeMap;
use std::collections::btree_map::Iter;
use std::marker::Model;
use std::ops::Bound;
use sync_path::Path;

mod copying;

/// What stands at each path below a root: a map from paths, *closed under parents*, so that the parent of each
/// path in it holds a folder.
///
/// Contracts see a finite map from paths, in path order. Walks are in path order too.
#[derive(Drop)]
pub struct TreeOf<T: Node> {
    entries: BTreeMap<Path, T>,
}

/// A tree of atoms: what a session sees of a side, or took from both.
pub type Tree = TreeOf<Atom>;

impl<T: Node> Model for TreeOf<T> {
    ghost use Rattle.std.specs.FinMap as map;
    ghost use Rattle.std.specs.Coded.{coded_ℕ, coded_list};
    ghost use Rattle.sync_path.specs.Path.{path_cmp};

    ghost Value = { map.FinMap path_cmp T };

    ghost coded = { map.code (coded_list (coded_list coded_ℕ)) T.code };

    ghost use Rattle.entry_tree.specs.Tree.{IsClosed};

    ghost view = { λ t. map.from_entries t.entries.entries };

    ghost invariant = { λ t. IsClosed T.is_folder (map.from_entries t.entries.entries) };
}

impl<T: Node> TreeOf<T> {
    /// A tree that holds nothing. It takes no memory.
    pub fn new(alloc: Global) -> TreeOf<T>
        ensures { result ≡ map.empty }
    {
        TreeOf {
            entries: BTreeMap::new(alloc),
        }
    }

    /// What the tree holds at the path. It takes no memory. Cost: O(log n) comparisons of paths.
    pub fn get(&self, path: &Path) -> Option<&T>
        ensures value { option_copied result ≡ map.get self.now path.now }
        ensures closed { IsClosed T.is_folder self.now }
    {
        self.entries.get(path)
    }

    /// How many paths the tree holds something at. It takes no memory.
    pub fn len(&self) -> usize
        ensures count { result ≡ map.len self.now }
        ensures small { result < 2 ^ 63 }
    {
        self.entries.len()
    }

    /// Whether the tree holds nothing. It takes no memory.
    pub fn is_empty(&self) -> bool
        ensures { IsTrue result ↔ (map.len self.now ≡ 0) }
    {
        self.len() == 0
    }

    /// Puts the node at the path, in place of what was there. Where it is no folder, all below the path is
    /// taken away.
    ///
    /// It is refused where the path's parent holds nothing or no folder; the root has no parent. After an
    /// `Err` the tree is as it was. Where the tree holds something at the path already, it needs no memory, and
    /// can't fail.
    ///
    /// Cost: O(log n) comparisons of paths, and as many for each entry that is taken away (as at `remove_under`).
    pub fn set(&mut self, alloc: Global, path: &Path, node: T) -> Result<(), TreeError>
        ensures ok { OnOk result (self.new ≡ set_at T.is_folder self.old path.now node) }
        ensures allowed { OnOk result (refusal T.is_folder (at_parent self.old path.now) ≡ None) }
        ensures no_parent { result ≡ Err NoParent → refusal T.is_folder (at_parent self.old path.now) ≡ Some NoParent }
        ensures not_dir { result ≡ Err NotDir → refusal T.is_folder (at_parent self.old path.now) ≡ Some NotDir }
        ensures in_place { IsTrue (map.contains_key self.old path.now) → result ≡ Ok tt }
        ensures err { OnErr result (self.new ≡ self.old) }
    {
        let is_dir = node.is_dir();
        match replace(&mut self.entries, path, node) {
            Ok(()) => {
                if !is_dir {
                    take_below(&mut self.entries, alloc, path);
                }
                Ok(())
            }
            Err(node) => self.set_new(alloc, path, node),
        }
    }

    /// Takes away all at and below the path. It needs no memory.
    ///
    /// Cost: O(log n) comparisons of paths, and as many for each entry that is taken away. It keeps one path aside,
    /// which grows to the longest of them; where there is no memory for that, it makes one pass over the tree.
    pub fn remove_under(&mut self, path: &Path)
        ensures { self.new ≡ without_under self.old path.now }
    {
        take_under(&mut self.entries, path);
    }

    /// Goes over all entries, in path order. It takes no memory. Cost: O(n) for the whole walk.
    pub fn iter(&self) -> Iter<'_, Path, T>
        ensures rest { result ≡ map.entries self.now }
        ensures small { map.len self.now < 2 ^ 63 }
        ensures closed { IsClosed T.is_folder self.now }
    {
        self.entries.iter()
    }

    /// Goes over the entries at and below the path, in path order. It takes no memory.
    ///
    /// Cost: O(log n) comparisons of paths, and O(1) for each entry.
    pub fn under<'a>(&'a self, path: &'a Path) -> Under<'a, T>
        ensures rest { result ≡ entries_under self.now path.now }
        ensures closed { IsClosed T.is_folder self.now }
    {
        Under::new(&self.entries, Bound::Included(path), path)
    }

    /// Goes over the entries below the path, in path order. It takes no memory. Cost: as that of `under`.
    pub fn below<'a>(&'a self, path: &'a Path) -> Under<'a, T>
        ensures rest { result ≡ entries_below self.now path.now }
        ensures closed { IsClosed T.is_folder self.now }
    {
        Under::new(&self.entries, Bound::Excluded(path), path)
    }

    /// Whether anything stands below the path. It takes no memory. Cost: O(log n) comparisons of paths.
    pub fn has_below(&self, path: &Path) -> bool
        ensures { result ≡ has_below self.now path.now }
    {
        self.below(path).next().is_some()
    }

    /// What stands directly below the path, in the order of the names' bytes.
    ///
    /// Cost: O(log n) comparisons of paths for each child, whatever stands below it. (A folder whose name has 255
    /// bytes is gone over, entry by entry.)
    pub fn children<'a>(
        &'a self,
        alloc: Global,
        path: &'a Path,
    ) -> Result<Vec<Child<'a, T>>, AllocError>
        ensures { IfOk result (λ children. children.items ≡ children_below self.now path.now) }
    {
        children_in(&self.entries, alloc, path)
    }

    // `set` of a path at which the tree holds nothing.
    fn set_new(&mut self, alloc: Global, path: &Path, node: T) -> Result<(), TreeError>
        requires { map.get self.old path.now ≡ None }
        ensures ok { OnOk result (self.new ≡ set_at T.is_folder self.old path.now node) }
        ensures allowed { OnOk result (refusal T.is_folder (at_parent self.old path.now) ≡ None) }
        ensures no_parent { result ≡ Err NoParent → refusal T.is_folder (at_parent self.old path.now) ≡ Some NoParent }
        ensures not_dir { result ≡ Err NotDir → refusal T.is_folder (at_parent self.old path.now) ≡ Some NotDir }
        ensures err { OnErr result (self.new ≡ self.old) }
    {
        self.check_parent(alloc, path)?;
        if put(&mut self.entries, alloc, path, node).is_err() {
            return Err(TreeError::Memory);
        }
        Ok(())
    }

    // Whether something may stand at the path, by what stands at its parent.
    fn check_parent(&self, alloc: Global, path: &Path) -> Result<(), TreeError>
        ensures allowed { OnOk result (refusal T.is_folder (at_parent self.now path.now) ≡ None) }
        ensures no_parent { result ≡ Err NoParent → refusal T.is_folder (at_parent self.now path.now) ≡ Some NoParent }
        ensures not_dir { result ≡ Err NotDir → refusal T.is_folder (at_parent self.now path.now) ≡ Some NotDir }
    {
        let Some(parent) = path.parent(alloc)? else {
            return Ok(());
        };
        match self.get(&parent) {
            None => Err(TreeError::NoParent),
            Some(node) if node.is_dir() => Ok(()),
            Some(_) => Err(TreeError::NotDir),
        }
    }
}
