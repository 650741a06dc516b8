//! Walks over the entries of a tree, in path order.
ghost use Rattle.std.specs.Prelude.{◌≡◌, length};
ghost use Rattle.std.specs.Iterator.{at_most};
ghost use Rattle.std.specs.Map.Iter.{TakesFirst, deref_pair};
ghost use Rattle.std.specs.Range.Bound.{bound_map};
ghost use Rattle.std.specs.BTreeMap.{IsOrdered};
ghost use Rattle.std.specs.BTreeMap.Range.{entries_between};
ghost use Rattle.std.specs.declared.ops.Bound.TheVariants.{Unbounded};
ghost use Rattle.sync_path.specs.Path.{path_cmp};
ghost use Rattle.entry_tree.specs.Walk.{front_under};

use std::collections::BTreeMap;
use std::collections::btree_map::Range;
use std::iter::Iterator;
use std::marker::Model;
use std::ops::Bound;
use sync_path::Path;

/// The entries that a walk under a path has left, in path order, as `(&Path, &T)`. Contracts see the list of them.
///
/// It takes no memory. All its steps together cost O(log n + their number).
#[derive(Drop)]
pub struct Under<'a, T> {
    rest: Option<Range<'a, Path, T>>,
    top: &'a Path,
}

impl<'a, T> Model for Under<'a, T> {
    ghost use Rattle.std.specs.Prelude.{ℕ, List};
    ghost use Rattle.entry_tree.specs.Walk.{left_under};

    ghost Value = { List (List (List ℕ) × T) };

    ghost view = { λ walk. left_under walk.top.now walk.rest };
}

impl<'a, T> Under<'a, T> {
    // A walk over the entries from the start on that lie under the path.
    pub(crate) fn new(
        map: &'a BTreeMap<Path, T>,
        start: Bound<&'a Path>,
        top: &'a Path,
    ) -> Under<'a, T>
        ensures rest { result ≡ front_under top.now (entries_between path_cmp (bound_map (λ x. x.now) start.entry) Unbounded map.now.entries) }
        ensures ordered { IsOrdered path_cmp map.now }
    {
        Under {
            rest: Some(map.range((start, Bound::Unbounded))),
            top,
        }
    }
}

impl<'a, T> Iterator for Under<'a, T> {
    type Item = (&'a Path, &'a T);

    ghost next_gives = { TakesFirst deref_pair };

    ghost remaining = { λ walk. at_most (length walk) };

    fn next(&mut self) -> Option<(&'a Path, &'a T)> {
        let Some(rest) = &mut self.rest else {
            return None;
        };
        match rest.next() {
            Some((path, value)) if path.is_under(self.top) => Some((path, value)),
            _ => {
                self.rest = None;
                None
            }
        }
    }
}
