//! The paths that are decided.
ghost use Rattle.std.specs.Prelude.{◌≡◌, ◌&&◌, IfOk};
ghost use Rattle.std.specs.FinMap as trees;
ghost use Rattle.std.specs.List.{filter};
ghost use Rattle.std.specs.Option.{option_copied};
ghost use Rattle.mode_rules.specs.Trees.{holds_folder, is_in_folders};

use entry_tree::{Atom, Tree};
use sqlite_items::Items;
use std::alloc::{AllocError, Global};
use sync_path::Path;

// Whether both sides hold a folder at the path.
fn are_folders(alpha: &Tree, beta: &Tree, path: &Path) -> bool
    ensures { result ≡ (holds_folder (trees.get alpha.now path.now) && holds_folder (trees.get beta.now path.now)) }
{
    holds_folder(alpha.get(path)) && holds_folder(beta.get(path))
}

/// Whether a folder stands there. It takes no memory.
pub fn holds_folder(atom: Option<&Atom>) -> bool
    ensures { result ≡ holds_folder (option_copied atom.entry) }
{
    match atom {
        Some(atom) => atom.is_dir(),
        None => false,
    }
}

// Whether each of these paths that lies above the path is a folder on both sides.
#[tactic(auto, unfolding(crate::specs::Trees::is_in_folders))]
fn is_in_folders(alpha: &Tree, beta: &Tree, paths: &[Path], path: &Path) -> bool
    ensures { result ≡ is_in_folders alpha.now beta.now paths.now path.now }
{
    paths
        .iter()
        .all(|p| !path.is_below(p) || are_folders(alpha, beta, p))
}

/// Those of the paths above which each path is a folder on both sides.
pub(crate) fn points_of(
    alloc: Global,
    alpha: &Tree,
    beta: &Tree,
    paths: &[Path],
) -> Result<Items<Path>, AllocError>
    ensures { IfOk result (λ points. points ≡ filter (is_in_folders alpha.now beta.now paths.now) paths.now) }
{
    let mut points = Items::new(alloc);
    for path in paths {
        if is_in_folders(alpha, beta, paths, path) {
            points.push(path.copy(alloc)?)?;
        }
    }
    Ok(points)
}
