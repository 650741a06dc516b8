//! The changes that decisions make.
ghost use Rattle.std.specs.Prelude.{◌≡◌, Some, IfOk};
ghost use Rattle.std.specs.List.{filter_map};
ghost use Rattle.std.specs.FinMap as trees;
ghost use Rattle.entry_tree.specs.Subtree.{subtree};
ghost use Rattle.mode_rules.specs.Trees.{paths_of};
ghost use Rattle.mode_rules.specs.Plans.{change_at, change_by};
ghost use Rattle.mode_rules.specs.Sights.{trees_of};

use crate::change::Change;
use crate::mode::Mode;
use crate::sight::Sight;
use crate::verdict::Verdict;
use entry_tree::{Side, Subtree, Tree};
use sqlite_items::Items;
use std::alloc::{AllocError, Global};
use sync_path::Path;

// The change by which a side comes to hold this at and below the path.
fn change(
    alloc: Global,
    side: Side,
    held: &Tree,
    path: &Path,
    new: Subtree,
) -> Result<Change, AllocError>
    ensures { IfOk result (λ change. change ≡ record { side = side; at = path.now; old = subtree held.now path.now; new = new }) }
{
    let old = held.subtree(alloc, path)?;
    let at = path.copy(alloc)?;
    Ok(Change { side, at, old, new })
}

// The change by which one side takes what the other holds at and below the path.
fn taking(
    alloc: Global,
    side: Side,
    held: &Tree,
    other: &Tree,
    path: &Path,
) -> Result<Option<Change>, AllocError>
    ensures { IfOk result (λ change. change ≡ Some (record { side = side; at = path.now; old = subtree held.now path.now; new = subtree other.now path.now })) }
{
    let new = other.subtree(alloc, path)?;
    match change(alloc, side, held, path, new) {
        Ok(change) => Ok(Some(change)),
        Err(error) => Err(error),
    }
}

// The change by which a side is emptied at and below the path.
fn emptying(
    alloc: Global,
    side: Side,
    held: &Tree,
    path: &Path,
) -> Result<Option<Change>, AllocError>
    ensures { IfOk result (λ change. change ≡ Some (record { side = side; at = path.now; old = subtree held.now path.now; new = trees.empty })) }
{
    match change(alloc, side, held, path, Subtree::new(alloc)) {
        Ok(change) => Ok(Some(change)),
        Err(error) => Err(error),
    }
}

/// The change that a decision makes at a path, if any. Cost: O(log n) comparisons of paths, and the lengths of what it lists.
pub fn change_by(
    alloc: Global,
    sight: &Sight,
    path: &Path,
    verdict: Verdict,
) -> Result<Option<Change>, AllocError>
    ensures { IfOk result (λ change. change ≡ change_by (trees_of sight.now) path.now verdict) }
{
    match verdict {
        Verdict::AlphaTakes => taking(alloc, Side::Alpha, sight.alpha, sight.beta, path),
        Verdict::BetaTakes => taking(alloc, Side::Beta, sight.beta, sight.alpha, path),
        Verdict::AlphaEmptied => emptying(alloc, Side::Alpha, sight.alpha, path),
        Verdict::BetaEmptied => emptying(alloc, Side::Beta, sight.beta, path),
        Verdict::Left
        | Verdict::Blocked
        | Verdict::Gone
        | Verdict::Agreed
        | Verdict::BetaKeeps
        | Verdict::Both => Ok(None),
    }
}

// The change that is made at a path.
#[tactic(auto, unfolding(crate::specs::Plans::change_at))]
fn change_at(
    alloc: Global,
    mode: Mode,
    sight: &Sight,
    paths: &[Path],
    path: &Path,
) -> Result<Option<Change>, AllocError>
    requires { paths.now ≡ paths_of (trees_of sight.now) }
    ensures { IfOk result (λ change. change ≡ change_at mode (trees_of sight.now) path.now) }
{
    change_by(alloc, sight, path, sight.verdict(mode, paths, path))
}

/// The changes at these points.
pub(crate) fn changes_of(
    alloc: Global,
    mode: Mode,
    sight: &Sight,
    paths: &[Path],
    points: &[Path],
) -> Result<Items<Change>, AllocError>
    requires { paths.now ≡ paths_of (trees_of sight.now) }
    ensures { IfOk result (λ changes. changes ≡ filter_map (change_at mode (trees_of sight.now)) points.now) }
{
    let mut changes = Items::new(alloc);
    for path in points {
        if let Some(change) = change_at(alloc, mode, sight, paths, path)? {
            changes.push(change)?;
        }
    }
    Ok(changes)
}
