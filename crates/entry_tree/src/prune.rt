//! Taking out of a map of paths what lies under a path.
ghost use Rattle.std.specs.Prelude.{◌≡◌, ◌↔◌, not, IsSome, IsTrue, IfNone, None};
ghost use Rattle.std.specs.FinMap.{from_entries};
ghost use Rattle.std.specs.List.{filter, list_any};
ghost use Rattle.std.specs.BTreeMap.{get, Updates};
ghost use Rattle.sync_path.specs.Path.{path_cmp};
ghost use Rattle.entry_tree.specs.Tree.{is_below, without_under};

use crate::walk::Under;
use std::alloc::Global;
use std::collections::BTreeMap;
use std::ops::Bound;
use sync_path::Path;

/// Takes out all at and below the path, where the map holds something at the path; else it stays as it was.
///
/// Cost and memory: as those of `take_below`.
pub(crate) fn take_under<T: Drop>(map: &mut BTreeMap<Path, T>, path: &Path)
    ensures held { IsSome (get path_cmp map.old path.now) → from_entries {R = path_cmp} map.new.entries ≡ without_under (from_entries map.old.entries) path.now }
    ensures absent { get path_cmp map.old path.now ≡ None → map.new.entries ≡ map.old.entries }
{
    if let Some(aside) = take_top(map, path) {
        take_out(map, aside, path);
    }
}

// Takes out what the map holds at the path, and gives its key.
fn take_top<T: Drop>(map: &mut BTreeMap<Path, T>, path: &Path) -> Option<Path>
    ensures held { IsSome result ↔ IsSome (get path_cmp map.old path.now) }
    ensures taken { Updates path_cmp map.old map.new path.now None }
    ensures absent { IfNone result (map.new.entries ≡ map.old.entries) }
{
    match map.remove_entry(path) {
        Some((key, _)) => Some(key),
        None => None,
    }
}

/// Takes out all below the path.
///
/// It keeps one path aside, and takes memory where this has to grow. Where there is none, it does the same in one
/// pass over the map. Cost with memory: O(log n) comparisons of paths, and as many for each entry that goes.
pub(crate) fn take_below<T: Drop>(map: &mut BTreeMap<Path, T>, alloc: Global, path: &Path)
    ensures { map.new.entries ≡ filter (λ e. not (is_below e.0 path.now)) map.old.entries }
{
    take_out(map, Path::root(alloc), path);
}

// Takes out all below the path, with the other to be overwritten.
fn take_out<T: Drop>(map: &mut BTreeMap<Path, T>, aside: Path, path: &Path)
    ensures { map.new.entries ≡ filter (λ e. not (is_below e.0 path.now)) map.old.entries }
{
    take_each(map, aside, path);
    if stands_below(map, path) {
        map.retain(|key, _| !key.is_below(path));
    }
}

// Takes out what lies below the path, one entry after the other, as long as there is memory.
fn take_each<T: Drop>(map: &mut BTreeMap<Path, T>, aside: Path, path: &Path)
    ensures { filter (λ e. not (is_below e.0 path.now)) map.new.entries ≡ filter (λ e. not (is_below e.0 path.now)) map.old.entries }
{
    let mut first = aside;
    for _ in 0..map.len() {
        if !copy_first(map, path, &mut first) {
            return;
        }
        let _ = map.remove(&first);
    }
}

// Copies the path of the first entry below a path, if there is one, and memory.
fn copy_first<T>(map: &BTreeMap<Path, T>, path: &Path, first: &mut Path) -> bool
    ensures { IsTrue result → IsTrue (is_below first.new path.now) }
{
    match Under::new(map, Bound::Excluded(path), path).next() {
        Some((below, _)) => first.copy_from(below).is_ok(),
        None => false,
    }
}

// Whether anything lies below the path.
fn stands_below<T>(map: &BTreeMap<Path, T>, path: &Path) -> bool
    ensures { result ≡ list_any (λ e. is_below e.0 path.now) map.now.entries }
{
    Under::new(map, Bound::Excluded(path), path)
        .next()
        .is_some()
}
