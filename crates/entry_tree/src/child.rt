//! What stands directly below a path of a tree.
ghost use Rattle.std.specs.Prelude.{◌≡◌, [], IfOk, OnOk, IsTrue, MatchOption};
ghost use Rattle.std.specs.List.{filter_map};
ghost use Rattle.std.specs.Map.Iter.{deref_pair};
ghost use Rattle.std.specs.BTreeMap.{IsOrdered};
ghost use Rattle.sync_path.specs.Path.{path_cmp, is_under};
ghost use Rattle.entry_tree.specs.Tree.{child_row};
ghost use Rattle.entry_tree.specs.Walk.{left_behind, HasFirst};

use crate::names::child_name;
use crate::node::Node;
use crate::walk::Under;
use std::alloc::{AllocError, Global};
use std::collections::BTreeMap;
use std::marker::Model;
use std::ops::Bound;
use sync_path::{Name, Path};

/// What stands directly below a path of a tree. Contracts see the pair of its name and what it holds.
#[derive(Drop)]
pub struct Child<'a, T> {
    /// Its name in the folder.
    pub name: Name,
    /// What the tree holds there.
    pub node: &'a T,
}

impl<'a, T> Model for Child<'a, T> {
    ghost use Rattle.std.specs.Prelude.{ℕ, List};

    ghost Value = { List ℕ × T };

    ghost view = { λ child. (child.name, child.node.now) };
}

// What stands directly below the path. Where that is a folder, the search goes on behind the last entry under it.
pub(crate) fn children_in<'a, T: Node>(
    map: &'a BTreeMap<Path, T>,
    alloc: Global,
    path: &'a Path,
) -> Result<Vec<Child<'a, T>>, AllocError>
    ensures rows { IfOk result (λ children. children.items ≡ filter_map (child_row path.now) map.now.entries) }
    ensures ordered { OnOk result (IsOrdered path_cmp map.now) }
{
    let mut children = Vec::new(alloc);
    let mut at = path;
    while let Some((below, node)) = first_behind(map, at, path) {
        match child_name(alloc, below, path)? {
            None => at = below,
            Some(name) => {
                children.push(Child { name, node })?;
                at = last_under(map, alloc, below, node.is_dir());
            }
        }
    }
    Ok(children)
}

// The first entry behind a path under another, if it lies under that too.
fn first_behind<'a, T>(
    map: &'a BTreeMap<Path, T>,
    at: &'a Path,
    path: &'a Path,
) -> Option<(&'a Path, &'a T)>
    requires { IsTrue (is_under at.now path.now) }
    ensures first { MatchOption result (left_behind path.now at.now map.now.entries ≡ []) (λ e. HasFirst (deref_pair e) (left_behind path.now at.now map.now.entries)) }
    ensures ordered { IsOrdered path_cmp map.now }
{
    Under::new(map, Bound::Excluded(at), path).next()
}

// A path under another: where that is a folder, the last one in the map, as far as can be told; else itself.
#[tactic(auto, using(crate::proofs::Paths::under_itself))]
fn last_under<'a, T>(
    map: &'a BTreeMap<Path, T>,
    alloc: Global,
    folder: &'a Path,
    is_dir: bool,
) -> &'a Path
    ensures { IsTrue (is_under result.now folder.now) }
{
    if !is_dir {
        return folder;
    }
    let Some(past) = path_behind(alloc, folder) else {
        return folder;
    };
    if !folder.compare(&past).is_lt() {
        return folder;
    }
    let mut skipped = map.range((Bound::Excluded(folder), Bound::Excluded(&past)));
    if let Some((last, _)) = skipped.next_back() {
        if last.is_under(folder) {
            return last;
        }
    }
    folder
}

// The first path behind all that lie under the folder: that with a space behind its last name, if it is a path.
// Callers rest nothing on that.
fn path_behind(alloc: Global, folder: &Path) -> Option<Path> {
    let mut text = folder.write(alloc).ok()?;
    text.push(' ').ok()?;
    Path::read(alloc, text.as_str()).ok()
}
