//! The conflicts that decisions report.
ghost use Rattle.std.specs.Prelude.{◌≡◌, IfOk};
ghost use Rattle.std.specs.List.{filter_map};
ghost use Rattle.mode_rules.specs.Trees.{paths_of};
ghost use Rattle.mode_rules.specs.Plans.{conflict_at, conflict_by, conflict};
ghost use Rattle.mode_rules.specs.Sights.{trees_of};

use crate::comparing::differing;
use crate::conflict::{Conflict, Reason};
use crate::mode::Mode;
use crate::sight::Sight;
use crate::verdict::Verdict;
use sqlite_items::Items;
use std::alloc::{AllocError, Global};
use sync_path::Path;

// A conflict, with the paths at which each side differs from the ancestor.
fn conflict(
    alloc: Global,
    sight: &Sight,
    paths: &[Path],
    path: &Path,
    reason: Reason,
) -> Result<Conflict, AllocError>
    requires { paths.now ≡ paths_of (trees_of sight.now) }
    ensures { IfOk result (λ found. found ≡ conflict (trees_of sight.now) path.now reason) }
{
    let alpha = differing(alloc, sight.ancestor, sight.alpha, paths, path)?;
    let beta = differing(alloc, sight.ancestor, sight.beta, paths, path)?;
    let at = path.copy(alloc)?;
    Ok(Conflict {
        at,
        reason,
        alpha,
        beta,
    })
}

// The conflict that a decision reports.
fn conflict_by(
    alloc: Global,
    sight: &Sight,
    paths: &[Path],
    path: &Path,
    verdict: Verdict,
) -> Result<Option<Conflict>, AllocError>
    requires { paths.now ≡ paths_of (trees_of sight.now) }
    ensures { IfOk result (λ found. found ≡ conflict_by (trees_of sight.now) path.now verdict) }
{
    let Some(reason) = verdict.reason() else {
        return Ok(None);
    };
    match conflict(alloc, sight, paths, path, reason) {
        Ok(found) => Ok(Some(found)),
        Err(error) => Err(error),
    }
}

// The conflict that is reported at a path.
#[tactic(auto, unfolding(crate::specs::Plans::conflict_at))]
fn conflict_at(
    alloc: Global,
    mode: Mode,
    sight: &Sight,
    paths: &[Path],
    path: &Path,
) -> Result<Option<Conflict>, AllocError>
    requires { paths.now ≡ paths_of (trees_of sight.now) }
    ensures { IfOk result (λ found. found ≡ conflict_at mode (trees_of sight.now) path.now) }
{
    conflict_by(alloc, sight, paths, path, sight.verdict(mode, paths, path))
}

/// The conflicts at these points.
pub(crate) fn conflicts_of(
    alloc: Global,
    mode: Mode,
    sight: &Sight,
    paths: &[Path],
    points: &[Path],
) -> Result<Items<Conflict>, AllocError>
    requires { paths.now ≡ paths_of (trees_of sight.now) }
    ensures { IfOk result (λ conflicts. conflicts ≡ filter_map (conflict_at mode (trees_of sight.now)) points.now) }
{
    let mut conflicts = Items::new(alloc);
    for path in points {
        if let Some(found) = conflict_at(alloc, mode, sight, paths, path)? {
            conflicts.push(found)?;
        }
    }
    Ok(conflicts)
}
