//! The paths that a decision goes over.
ghost use Rattle.std.specs.Prelude.{◌≡◌, IfOk};
ghost use Rattle.mode_rules.specs.Trees.{paths_of};

use crate::path_set::PathSet;
use entry_tree::Tree;
use sqlite_items::Items;
use std::alloc::{AllocError, Global};
use sync_path::Path;

/// Each path at which one of the trees holds something, in path order.
pub(crate) fn paths_of(
    alloc: Global,
    ancestor: &Tree,
    alpha: &Tree,
    beta: &Tree,
) -> Result<Items<Path>, AllocError>
    ensures { IfOk result (λ paths. paths ≡ paths_of (record { ancestor = ancestor.now; alpha = alpha.now; beta = beta.now })) }
{
    let mut set = PathSet::new(alloc);
    set.add_paths(alloc, ancestor)?;
    set.add_paths(alloc, alpha)?;
    set.add_paths(alloc, beta)?;
    set.items(alloc)
}
