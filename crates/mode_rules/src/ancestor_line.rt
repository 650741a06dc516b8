//! Lines by which the ancestor follows what both sides hold.
ghost use Rattle.std.specs.Prelude.{◌≡◌, ℕ, List, OnOk, OnErr, Ok, Err, Some, None};
ghost use Rattle.entry_tree.specs.declared.tree_error.TreeError.TheVariants.{NoParent, NotDir};
ghost use Rattle.mode_rules.specs.AncestorFold.{with_line};
ghost use Rattle.mode_rules.specs.declared.ancestor_line.AncestorLine.TheVariants.{Drop};

use entry_tree::{Atom, Tree, TreeError};
use std::alloc::Global;
use sync_path::Path;

/// A line by which the ancestor comes to hold what both sides hold.
#[derive(Debug, Drop)]
pub enum AncestorLine {
    /// The ancestor holds the atom at the path and, where it is no folder, nothing below.
    Set(Path, Atom),
    /// The ancestor holds nothing at and below the path.
    Drop(Path),
}

impl AncestorLine {
    /// Takes the line up into the tree. A `Set` is refused where the path's parent isn't a folder. A `Drop` is never refused, and
    /// takes no memory.
    ///
    /// After an `Err` the tree is as it was. Cost: as that of `Tree::set` and `Tree::remove_under`.
    pub fn apply(&self, alloc: Global, tree: &mut Tree) -> Result<(), TreeError>
        ensures ok { OnOk result (with_line tree.old self.now ≡ Some tree.new) }
        ensures no_parent { result ≡ Err NoParent → with_line tree.old self.now ≡ None }
        ensures not_dir { result ≡ Err NotDir → with_line tree.old self.now ≡ None }
        ensures err { OnErr result (tree.new ≡ tree.old) }
        ensures drops { (path : List (List ℕ)) → self.now ≡ Drop path → result ≡ Ok tt }
    {
        match self {
            AncestorLine::Set(path, atom) => {
                let atom = atom.copy(alloc)?;
                tree.set(alloc, path, atom)
            }
            AncestorLine::Drop(path) => {
                tree.remove_under(path);
                Ok(())
            }
        }
    }
}
