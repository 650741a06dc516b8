//! Copies of trees.
ghost use Rattle.std.specs.Prelude.{◌≡◌, IfOk, OnOk};
ghost use Rattle.std.specs.FinMap as map;
ghost use Rattle.sync_path.specs.Path.{path_cmp};
ghost use Rattle.entry_tree.specs.Copying.{put_all};
ghost use Rattle.entry_tree.specs.Subtree.{subtree};

use crate::node::Node;
use crate::subtree::SubtreeOf;
use crate::tree::TreeOf;
use crate::walk::Under;
use std::alloc::{AllocError, Global};
use std::collections::BTreeMap;
use sync_path::Path;

impl<T: Node> TreeOf<T> {
    /// An equal tree. Cost: O(n log n) comparisons of paths, and the lengths of paths and nodes.
    pub fn copy(&self, alloc: Global) -> Result<TreeOf<T>, AllocError>
        ensures { IfOk result (λ tree. tree ≡ self.now) }
    {
        let root = Path::root(alloc);
        let mut entries = BTreeMap::new(alloc);
        copy_into(&mut entries, alloc, self.under(&root))?;
        Ok(TreeOf { entries })
    }

    /// What the tree holds at and below the path, copied. Cost: O(log n) comparisons of paths, and the lengths of the paths and nodes copied.
    pub fn subtree(&self, alloc: Global, path: &Path) -> Result<SubtreeOf<T>, AllocError>
        ensures { IfOk result (λ copy. copy ≡ subtree self.now path.now) }
    {
        let entries = copies_under(alloc, self.under(path))?;
        Ok(SubtreeOf::from_entries(entries))
    }
}

// Copies of all that the walk has left, in the room that they take.
fn copies_under<T: Node>(alloc: Global, walk: Under<'_, T>) -> Result<Vec<(Path, T)>, AllocError>
    ensures { IfOk result (λ copies. copies.items ≡ walk.entry) }
{
    let mut copies = Vec::new(alloc);
    for (path, node) in walk {
        let path = path.copy(alloc)?;
        let node = node.copy(alloc)?;
        copies.push((path, node))?;
    }
    copies.shrink_to_fit();
    Ok(copies)
}

// Puts copies of all that the walk has left into the map.
fn copy_into<T: Node>(
    into: &mut BTreeMap<Path, T>,
    alloc: Global,
    walk: Under<'_, T>,
) -> Result<(), AllocError>
    ensures { OnOk result (map.from_entries {R = path_cmp} into.new.entries ≡ put_all (map.from_entries into.old.entries) walk.entry) }
{
    for (path, node) in walk {
        let key = path.copy(alloc)?;
        let value = node.copy(alloc)?;
        into.insert(key, value)?;
    }
    Ok(())
}
