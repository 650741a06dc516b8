//! The names directly below a path of a tree.
ghost use Rattle.std.specs.Prelude.{◌≡◌, IfOk};
ghost use Rattle.entry_tree.specs.Tree.{name_below, names_below};

use crate::node::Node;
use crate::tree::TreeOf;
use std::alloc::{AllocError, Global};
use sync_path::{Name, Path};

impl<T: Node> TreeOf<T> {
    /// The names directly below the path, in the order of their bytes. Cost: as that of `children`.
    pub fn names(&self, alloc: Global, path: &Path) -> Result<Vec<Name>, AllocError>
        ensures { IfOk result (λ names. names.items ≡ names_below self.now path.now) }
    {
        let mut names = Vec::new(alloc);
        for child in self.children(alloc, path)? {
            names.push(child.name)?;
        }
        Ok(names)
    }
}

// The name by which a path stands directly below another, if it does.
pub(crate) fn child_name(
    alloc: Global,
    below: &Path,
    path: &Path,
) -> Result<Option<Name>, AllocError>
    ensures { IfOk result (λ name. name ≡ name_below below.now path.now) }
{
    if below.depth() != path.depth() + 1 {
        return Ok(None);
    }
    if !below.is_under(path) {
        return Ok(None);
    }
    below.copy_last_name(alloc)
}
