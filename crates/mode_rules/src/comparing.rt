//! How a side stands to the ancestor.
ghost use Rattle.std.specs.Prelude.{◌≡◌, IfOk, not};
ghost use Rattle.std.specs.List.{filter, list_all};
ghost use Rattle.std.specs.Option.{option_copied};
ghost use Rattle.sync_path.specs.Path.{is_under};
ghost use Rattle.mode_rules.specs.Trees.{compared, same_there, is_same_at, is_less_at};

use entry_tree::{Atom, Tree};
use sqlite_items::Items;
use std::alloc::{AllocError, Global};
use sync_path::Path;

/// How a side stands to the ancestor, at and below a path.
#[derive(Clone, Copy, Debug, PartialEq, Eq)]
pub struct Comparison {
    /// It is as the ancestor.
    pub same: bool,
    /// It holds only what the ancestor holds in the same place.
    pub less: bool,
}

/// What a side holds, with what is untracked read as nothing. It takes no memory.
pub fn compared<'a>(atom: Option<&'a Atom>) -> Option<&'a Atom>
    ensures { option_copied result ≡ compared (option_copied atom.entry) }
{
    match atom {
        Some(Atom::Untracked) => None,
        _ => atom,
    }
}

/// Whether the same stands on both sides, or nothing on either. It takes no memory.
pub fn is_same(first: Option<&Atom>, second: Option<&Atom>) -> bool
    ensures { result ≡ same_there (option_copied first.entry) (option_copied second.entry) }
{
    match (first, second) {
        (None, None) => true,
        (Some(first), Some(second)) => first.is_same(second),
        _ => false,
    }
}

// Whether the side is as the ancestor at the path.
fn is_same_at(ancestor: &Tree, side: &Tree, path: &Path) -> bool
    ensures { result ≡ is_same_at ancestor.now side.now path.now }
{
    is_same(compared(side.get(path)), ancestor.get(path))
}

// Whether the side holds nothing at the path, or what the ancestor holds there.
fn is_less_at(ancestor: &Tree, side: &Tree, path: &Path) -> bool
    ensures { result ≡ is_less_at ancestor.now side.now path.now }
{
    is_same(compared(side.get(path)), None) || is_same_at(ancestor, side, path)
}

// Whether the side is as the ancestor at each of the paths that are at or below this one.
pub(crate) fn is_same_under(ancestor: &Tree, side: &Tree, paths: &[Path], path: &Path) -> bool
    ensures { result ≡ list_all (is_same_at ancestor.now side.now) (filter (λ p. is_under p path.now) paths.now) }
{
    paths
        .iter()
        .filter(|p| p.is_under(path))
        .all(|p| is_same_at(ancestor, side, p))
}

// Whether the side holds only what the ancestor holds in the same place, at each of the paths that are at or below this one.
pub(crate) fn is_less_under(ancestor: &Tree, side: &Tree, paths: &[Path], path: &Path) -> bool
    ensures { result ≡ list_all (is_less_at ancestor.now side.now) (filter (λ p. is_under p path.now) paths.now) }
{
    paths
        .iter()
        .filter(|p| p.is_under(path))
        .all(|p| is_less_at(ancestor, side, p))
}

// Those of the paths at or below this one at which the side differs from the ancestor.
pub(crate) fn differing(
    alloc: Global,
    ancestor: &Tree,
    side: &Tree,
    paths: &[Path],
    path: &Path,
) -> Result<Items<Path>, AllocError>
    ensures { IfOk result (λ found. found ≡ filter (λ p. not (is_same_at ancestor.now side.now p)) (filter (λ p. is_under p path.now) paths.now)) }
{
    let mut found = Items::new(alloc);
    for other in paths {
        if other.is_under(path) && !is_same_at(ancestor, side, other) {
            found.push(other.copy(alloc)?)?;
        }
    }
    Ok(found)
}
