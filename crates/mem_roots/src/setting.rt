//! Setting where nothing speaks against it.
ghost use Rattle.std.specs.Prelude.{◌≡◌, None, IsTrue, OnOk, OnErr};
ghost use Rattle.std.specs.FinMap as map;
ghost use Rattle.entry_tree.specs.Tree.{set_at, at_parent, refusal};

use entry_tree::{Node, TreeError, TreeOf};
use std::alloc::{AllocError, Global};
use sync_path::Path;

/// Puts the node at the path, whose parent is a folder, or which is the root. After an `Err` the tree is as it was.
pub(crate) fn set_allowed<T: Node>(
    tree: &mut TreeOf<T>,
    alloc: Global,
    path: &Path,
    node: T,
) -> Result<(), AllocError>
    requires { refusal T.is_folder (at_parent tree.old path.now) ≡ None }
    ensures ok { OnOk result (tree.new ≡ set_at T.is_folder tree.old path.now node) }
    ensures err { OnErr result (tree.new ≡ tree.old) }
{
    match tree.set(alloc, path, node) {
        Ok(()) => Ok(()),
        Err(TreeError::Memory) => Err(AllocError),
        Err(TreeError::NoParent) => unreachable!(),
        Err(TreeError::NotDir) => unreachable!(),
    }
}

/// Puts the node in place of the one at the path. It takes no memory.
pub(crate) fn replace<T: Node>(tree: &mut TreeOf<T>, alloc: Global, path: &Path, node: T)
    requires { IsTrue (map.contains_key tree.old path.now) }
    ensures { tree.new ≡ set_at T.is_folder tree.old path.now node }
{
    match tree.set(alloc, path, node) {
        Ok(()) => {}
        Err(_) => unreachable!(),
    }
}
