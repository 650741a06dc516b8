//! Runs: a row, and the rows behind it that are decided with it.
ghost use Rattle.std.specs.Prelude.{◌≡◌, ◌≤◌, length, IfOk};
ghost use Rattle.std.specs.List.{list_all, prefix_len};
ghost use Rattle.sync_path.specs.Path.{is_under};
ghost use Rattle.reconcile.specs.Runs.{is_same_row, is_less_row, row_run_len, row_comparison, row_verdict, row_differing, row_conflict, row_conflict_by};

use crate::row::PathRow;
use entry_tree::Side;
use mode_rules::{Comparison, Conflict, Mode, Reason, Verdict, first_case, holds_folder};
use sqlite_items::Items;
use std::alloc::{AllocError, Global};
use sync_path::Path;

// How many of these rows, from the first on, lie at or below the path.
fn under_len(path: &Path, below: &[PathRow]) -> usize
    ensures len { result ≡ prefix_len (λ row. is_under row.0 path.now) below.now }
    ensures within { result ≤ length below.now }
{
    let mut count = 0;
    'below: for row in below {
        if row.path().is_under(path) {
            count += 1;
        } else {
            return count;
        }
    }
    count
}

/// How many of the rows behind a row are decided with it.
pub(crate) fn run_len(row: &PathRow, below: &[PathRow]) -> usize
    ensures len { result ≡ row_run_len row.now below.now }
    ensures within { result ≤ length below.now }
{
    if holds_folder(row.on_side(Side::Alpha)) && holds_folder(row.on_side(Side::Beta)) {
        0
    } else {
        under_len(row.path(), below)
    }
}

// Whether a side is as the ancestor at each of these rows.
fn is_same_in(side: Side, run: &[PathRow]) -> bool
    ensures { result ≡ list_all (is_same_row side) run.now }
{
    run.iter().all(|row| row.is_same(side))
}

// Whether a side holds only what the ancestor holds in the same place, at each of these rows.
fn is_less_in(side: Side, run: &[PathRow]) -> bool
    ensures { result ≡ list_all (is_less_row side) run.now }
{
    run.iter().all(|row| row.is_less(side))
}

// How a side stands to the ancestor, at each row of a run.
fn comparison_in(side: Side, run: &[PathRow]) -> Comparison
    ensures { result ≡ row_comparison side run.now }
{
    Comparison {
        same: is_same_in(side, run),
        less: is_less_in(side, run),
    }
}

/// What is decided at a row, by the rows of its run.
pub(crate) fn verdict_in(mode: Mode, run: &[PathRow], row: &PathRow) -> Verdict
    ensures { result ≡ row_verdict mode run.now row.now }
{
    let alpha = comparison_in(Side::Alpha, run);
    let beta = comparison_in(Side::Beta, run);
    first_case(
        mode,
        row.on_side(Side::Alpha),
        row.on_side(Side::Beta),
        alpha,
        beta,
    )
}

// Those paths of a run at which a side differs from the ancestor.
fn differing_in(alloc: Global, side: Side, run: &[PathRow]) -> Result<Items<Path>, AllocError>
    ensures { IfOk result (λ found. found ≡ row_differing side run.now) }
{
    let mut found = Items::new(alloc);
    for row in run {
        if !row.is_same(side) {
            found.push(row.path().copy(alloc)?)?;
        }
    }
    Ok(found)
}

// A conflict, with the paths of the run at which each side differs from the ancestor.
fn conflict_in(
    alloc: Global,
    run: &[PathRow],
    row: &PathRow,
    reason: Reason,
) -> Result<Conflict, AllocError>
    ensures { IfOk result (λ found. found ≡ row_conflict run.now row.now reason) }
{
    let alpha = differing_in(alloc, Side::Alpha, run)?;
    let beta = differing_in(alloc, Side::Beta, run)?;
    let at = row.path().copy(alloc)?;
    Ok(Conflict {
        at,
        reason,
        alpha,
        beta,
    })
}

/// The conflict that a decision reports.
pub(crate) fn conflict_by_in(
    alloc: Global,
    run: &[PathRow],
    row: &PathRow,
    verdict: Verdict,
) -> Result<Option<Conflict>, AllocError>
    ensures { IfOk result (λ found. found ≡ row_conflict_by run.now row.now verdict) }
{
    let Some(reason) = verdict.reason() else {
        return Ok(None);
    };
    match conflict_in(alloc, run, row, reason) {
        Ok(found) => Ok(Some(found)),
        Err(error) => Err(error),
    }
}
