//! What stands at a path and at its parent.
ghost use Rattle.std.specs.Prelude.{◌≡◌, cond, Some, None, IfOk};
ghost use Rattle.std.specs.FinMap as map;
ghost use Rattle.std.specs.Option.{option_copied};
ghost use Rattle.entry_tree.specs.Entry.{is_dir};
ghost use Rattle.entry_tree.specs.Tree.{holds_folder};
ghost use Rattle.roots_api.specs.Expected.{holds_file};
ghost use Rattle.roots_api.specs.States.{missing_parent};

use entry_tree::{Entry, Node, TreeOf};
use roots_api::copy_found;
use std::alloc::{AllocError, Global};
use sync_path::Path;

/// Whether a folder was found.
pub(crate) fn is_folder(found: Option<&Entry>) -> bool
    ensures { result ≡ holds_folder is_dir (option_copied found.entry) }
{
    match found {
        None => false,
        Some(entry) => entry.is_dir(),
    }
}

/// Whether a file was found.
pub(crate) fn is_file(found: Option<&Entry>) -> bool
    ensures { result ≡ holds_file (option_copied found.entry) }
{
    match found {
        Some(Entry::File(_, _)) => true,
        _ => false,
    }
}

/// The parent of the path with what stands there, where that is no folder. Cost: O(log n) comparisons of paths, and an
/// allocation.
pub(crate) fn missing_parent(
    alloc: Global,
    tree: &TreeOf<Entry>,
    path: &Path,
) -> Result<Option<(Path, Option<Entry>)>, AllocError>
    ensures { IfOk result (λ missing. missing ≡ missing_parent tree.now path.now) }
{
    match path.parent(alloc)? {
        None => Ok(None),
        Some(parent) => unless_folder(alloc, tree, parent),
    }
}

// The path with what stands there, where that is no folder.
fn unless_folder(
    alloc: Global,
    tree: &TreeOf<Entry>,
    path: Path,
) -> Result<Option<(Path, Option<Entry>)>, AllocError>
    ensures { IfOk result (λ missing. missing ≡ cond (holds_folder is_dir (map.get tree.now path)) None (Some (path, map.get tree.now path))) }
{
    let found = tree.get(&path);
    if is_folder(found) {
        return Ok(None);
    }
    let found = copy_found(alloc, found)?;
    Ok(Some((path, found)))
}
