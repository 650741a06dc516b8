//! The rows of three trees, by a merge of their walks.
ghost use Rattle.std.specs.Prelude.{◌≡◌, ◌≤◌, ◌+◌, [], ◌∷◌, ◌++◌, length, take, drop, IfOk, OnOk};
ghost use Rattle.std.specs.FinMap as trees;
ghost use Rattle.reconcile.specs.Rows.{rows_of, front_len, held_at, is_met, met_len, with_part, joined};

use crate::part::Part;
use crate::row::PathRow;
use entry_tree::{Atom, Tree};
use std::alloc::{AllocError, Global};
use std::cmp::Ordering;
use sync_path::Path;

// How many of these rows, from the first on, stand before the path, and whether the next one is the path's.
fn front_of(rows: &[PathRow], path: &Path) -> (usize, bool)
    ensures len { result.0 ≡ front_len path.now rows.now }
    ensures within { result.0 ≤ length rows.now }
    ensures met { result.1 ≡ is_met path.now (drop (front_len path.now rows.now) rows.now) }
{
    let mut count = 0;
    'rows: for row in rows {
        match row.path().compare(path) {
            Ordering::Less => count += 1,
            Ordering::Equal => return (count, true),
            Ordering::Greater => return (count, false),
        }
    }
    (count, false)
}

// Adds copies of these rows.
fn push_all<'a>(all: &mut Vec<PathRow<'a>>, rows: &[PathRow<'a>]) -> Result<(), AllocError>
    ensures { OnOk result (all.new.items ≡ all.old.items ++ rows.now) }
{
    'rows: for row in rows {
        all.push(row.copied())?;
    }
    Ok(())
}

// The rows with what one more tree holds: one pass over both, which are in path order.
fn joined<'a>(
    alloc: Global,
    rows: &[PathRow<'a>],
    part: Part,
    tree: &'a Tree,
) -> Result<Vec<PathRow<'a>>, AllocError>
    ensures { IfOk result (λ all. all.items ≡ joined part rows.now (trees.entries tree.now)) }
{
    let mut all = Vec::new(alloc);
    let mut at = 0;
    'entries: for (path, atom) in tree.iter() {
        at = push_entry(&mut all, rows, at, part, path, atom)?;
    }
    let (_, rest) = rows.split_at(at);
    push_all(&mut all, rest)?;
    Ok(all)
}

// The path's row, if the first of these rows is that; else a row at which nothing stands.
fn held_at<'a>(met: bool, rows: &[PathRow<'a>], path: &'a Path) -> PathRow<'a>
    requires { met ≡ is_met path.now rows.now }
    ensures { result ≡ (path.now, held_at path.now rows.now) }
{
    match rows.first() {
        Some(row) if met => row.moved_to(path),
        _ => PathRow::new(path),
    }
}

// Copies the rows from `at` on that stand before the path, adds the path's row with the atom, and gives the place behind them.
fn push_entry<'a>(
    all: &mut Vec<PathRow<'a>>,
    rows: &[PathRow<'a>],
    at: usize,
    part: Part,
    path: &'a Path,
    atom: &'a Atom,
) -> Result<usize, AllocError>
    requires { at ≤ length rows.now }
    ensures pushed { OnOk result (all.new.items ≡ all.old.items ++ take (front_len path.now (drop at rows.now)) (drop at rows.now) ++ (path.now, with_part part (held_at path.now (drop (front_len path.now (drop at rows.now)) (drop at rows.now))) atom.now) ∷ []) }
    ensures place { IfOk result (λ next. next ≡ at + front_len path.now (drop at rows.now) + met_len path.now (drop (front_len path.now (drop at rows.now)) (drop at rows.now))) }
    ensures within { IfOk result (λ next. next ≤ length rows.now) }
{
    let (_, rest) = rows.split_at(at);
    let (count, met) = front_of(rest, path);
    let (front, back) = rest.split_at(count);
    push_all(all, front)?;
    all.push(held_at(met, back, path).with(part, atom))?;
    Ok(at + count + usize::from(met))
}

/// The rows of three trees: each path at which one of them holds something, in path order, with what each holds there. No path is copied.
///
/// Cost: O(n) comparisons of paths.
pub(crate) fn rows_of<'a>(
    alloc: Global,
    ancestor: &'a Tree,
    alpha: &'a Tree,
    beta: &'a Tree,
) -> Result<Vec<PathRow<'a>>, AllocError>
    ensures { IfOk result (λ rows. rows.items ≡ rows_of (record { ancestor = ancestor.now; alpha = alpha.now; beta = beta.now })) }
{
    let none = Vec::new(alloc);
    let first = joined(alloc, none.as_slice(), Part::Ancestor, ancestor)?;
    let second = joined(alloc, first.as_slice(), Part::Alpha, alpha)?;
    joined(alloc, second.as_slice(), Part::Beta, beta)
}
