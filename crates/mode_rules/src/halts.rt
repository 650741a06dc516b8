//! Why a cycle stops before it changes anything.
ghost use Rattle.std.specs.Prelude.{◌≡◌, [], length, nat_le};
ghost use Rattle.std.specs.List.{list_any};
ghost use Rattle.mode_rules.specs.Halts.{deletes_root, turns_root, is_at_top, top_of, counts, is_emptied, is_two_way, one_of, empties_root, halt_of};
ghost use Rattle.mode_rules.specs.Sights.{trees_of};

use crate::change::Change;
use crate::comparing::compared;
use crate::halt::Halt;
use crate::mode::Mode;
use crate::points::holds_folder;
use crate::sight::Sight;
use crate::verdict::holds_tracked;
use entry_tree::{Atom, Tree};
use std::alloc::Global;
use sync_path::Path;

// Exactly one of two.
fn one_of(first: bool, second: bool) -> bool
    ensures { result ≡ one_of first second }
{
    first != second
}

// Whether a root that holds something is to hold nothing.
fn deletes_root(root: &Path, change: &Change) -> bool
    requires { root.now ≡ [] }
    ensures { result ≡ deletes_root change.now }
{
    change.at.is_root() && change.old.get(root).is_some() && change.new.get(root).is_none()
}

// Whether a root is to turn from a folder into a file or link, or back.
fn turns_root(root: &Path, change: &Change) -> bool
    requires { root.now ≡ [] }
    ensures { result ≡ turns_root change.now }
{
    let old = change.old.get(root);
    let new = change.new.get(root);
    change.at.is_root()
        && holds_tracked(old)
        && holds_tracked(new)
        && one_of(holds_folder(old), holds_folder(new))
}

// Whether both sides' changes count alike.
fn is_two_way(mode: Mode) -> bool
    ensures { result ≡ is_two_way mode }
{
    match mode {
        Mode::TwoWaySafe | Mode::TwoWayResolved => true,
        Mode::OneWaySafe | Mode::OneWayReplica => false,
    }
}

// Whether a path lies directly below the root.
fn is_at_top(path: &Path) -> bool
    ensures { result ≡ is_at_top path.now }
{
    path.depth() == 1
}

// Whether this is tracked or a problem.
fn counts(atom: &Atom) -> bool
    ensures { result ≡ counts atom.now }
{
    compared(Some(atom)).is_some()
}

// Whether something that is tracked or a problem stands directly below the root.
fn has_top(tree: &Tree) -> bool
    ensures { result ≡ list_any (λ e. counts e.1) (top_of tree.now) }
{
    'entries: for (path, atom) in tree.iter() {
        if is_at_top(path) && counts(atom) {
            return true;
        }
    }
    false
}

// Whether two names or more stand directly below the root.
fn has_two_tops(tree: &Tree) -> bool
    ensures { result ≡ nat_le 2 (length (top_of tree.now)) }
{
    let mut has_one = false;
    'entries: for (path, _) in tree.iter() {
        if is_at_top(path) {
            if has_one {
                return true;
            }
            has_one = true;
        }
    }
    false
}

// Whether the root is a folder in which nothing stands that is tracked or a problem.
fn is_emptied(root: &Path, tree: &Tree) -> bool
    requires { root.now ≡ [] }
    ensures { result ≡ is_emptied tree.now }
{
    holds_folder(tree.get(root)) && !has_top(tree)
}

// Whether one side's root, and not the other's, has lost all that it had, where the ancestor's had two names or more.
fn empties_root(mode: Mode, root: &Path, sight: &Sight) -> bool
    requires { root.now ≡ [] }
    ensures { result ≡ empties_root mode (trees_of sight.now) }
{
    is_two_way(mode)
        && has_two_tops(sight.ancestor)
        && one_of(is_emptied(root, sight.alpha), is_emptied(root, sight.beta))
}

// Whether one of the changes takes away a root.
fn deletes_any(root: &Path, changes: &[Change]) -> bool
    requires { root.now ≡ [] }
    ensures { result ≡ list_any deletes_root changes.now }
{
    changes.iter().any(|change| deletes_root(root, change))
}

// Whether one of the changes turns a root from a folder into something else, or back.
fn turns_any(root: &Path, changes: &[Change]) -> bool
    requires { root.now ≡ [] }
    ensures { result ≡ list_any turns_root changes.now }
{
    changes.iter().any(|change| turns_root(root, change))
}

/// Why nothing of the changes may be done, the first reason that holds. Cost: O(n).
pub fn halt_of(alloc: Global, mode: Mode, sight: &Sight, changes: &[Change]) -> Option<Halt>
    ensures { result ≡ halt_of mode (trees_of sight.now) changes.now }
{
    let root = Path::root(alloc);
    if deletes_any(&root, changes) {
        Some(Halt::RootDeleted)
    } else if turns_any(&root, changes) {
        Some(Halt::RootTypeChanged)
    } else if empties_root(mode, &root, sight) {
        Some(Halt::RootEmptied)
    } else {
        None
    }
}
