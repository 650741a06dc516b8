//! The lines by which the ancestor takes up what both sides agree on.
ghost use Rattle.std.specs.Prelude.{◌≡◌, IfOk};
ghost use Rattle.std.specs.List.{filter_map};
ghost use Rattle.std.specs.Option.{option_copied};
ghost use Rattle.mode_rules.specs.Trees.{paths_of};
ghost use Rattle.mode_rules.specs.Plans.{line_at, line_of, dropped, taken};
ghost use Rattle.mode_rules.specs.Sights.{trees_of};

use crate::ancestor_line::AncestorLine;
use crate::comparing::is_same;
use crate::mode::Mode;
use crate::sight::Sight;
use crate::verdict::Verdict;
use entry_tree::Atom;
use sqlite_items::Items;
use std::alloc::{AllocError, Global};
use sync_path::Path;

// The line that drops all at and below the path, where the ancestor holds something there.
fn dropped(
    alloc: Global,
    path: &Path,
    at_ancestor: Option<&Atom>,
) -> Result<Option<AncestorLine>, AllocError>
    ensures { IfOk result (λ line. line ≡ dropped path.now (option_copied at_ancestor.entry)) }
{
    match at_ancestor {
        Some(_) => Ok(Some(AncestorLine::Drop(path.copy(alloc)?))),
        None => Ok(None),
    }
}

// The line that sets what both sides hold at the path, where the ancestor doesn't hold it.
fn taken(
    alloc: Global,
    path: &Path,
    at_ancestor: Option<&Atom>,
    at_sides: Option<&Atom>,
) -> Result<Option<AncestorLine>, AllocError>
    ensures { IfOk result (λ line. line ≡ taken path.now (option_copied at_ancestor.entry) (option_copied at_sides.entry)) }
{
    if is_same(at_ancestor, at_sides) {
        return Ok(None);
    }
    match at_sides {
        Some(atom) => {
            let atom = atom.copy(alloc)?;
            Ok(Some(AncestorLine::Set(path.copy(alloc)?, atom)))
        }
        None => Ok(None),
    }
}

/// The line of the ancestor that a decision writes, if any, by what the ancestor and alpha hold at the path. Cost: what the line holds.
pub fn line_of(
    alloc: Global,
    path: &Path,
    at_ancestor: Option<&Atom>,
    at_alpha: Option<&Atom>,
    verdict: Verdict,
) -> Result<Option<AncestorLine>, AllocError>
    ensures { IfOk result (λ line. line ≡ line_of path.now (option_copied at_ancestor.entry) (option_copied at_alpha.entry) verdict) }
{
    match verdict {
        Verdict::Gone | Verdict::BetaKeeps => dropped(alloc, path, at_ancestor),
        Verdict::Agreed => taken(alloc, path, at_ancestor, at_alpha),
        Verdict::Left
        | Verdict::Blocked
        | Verdict::AlphaTakes
        | Verdict::BetaTakes
        | Verdict::AlphaEmptied
        | Verdict::BetaEmptied
        | Verdict::Both => Ok(None),
    }
}

// The line of what is decided at a path.
#[tactic(auto, unfolding(crate::specs::Plans::line_at))]
fn line_at(
    alloc: Global,
    mode: Mode,
    sight: &Sight,
    paths: &[Path],
    path: &Path,
) -> Result<Option<AncestorLine>, AllocError>
    requires { paths.now ≡ paths_of (trees_of sight.now) }
    ensures { IfOk result (λ line. line ≡ line_at mode (trees_of sight.now) path.now) }
{
    line_of(
        alloc,
        path,
        sight.ancestor.get(path),
        sight.alpha.get(path),
        sight.verdict(mode, paths, path),
    )
}

/// The lines of the paths that are decided.
pub(crate) fn agreed_of(
    alloc: Global,
    mode: Mode,
    sight: &Sight,
    paths: &[Path],
    points: &[Path],
) -> Result<Items<AncestorLine>, AllocError>
    requires { paths.now ≡ paths_of (trees_of sight.now) }
    ensures { IfOk result (λ lines. lines ≡ filter_map (line_at mode (trees_of sight.now)) points.now) }
{
    let mut lines = Items::new(alloc);
    for path in points {
        if let Some(line) = line_at(alloc, mode, sight, paths, path)? {
            lines.push(line)?;
        }
    }
    Ok(lines)
}
