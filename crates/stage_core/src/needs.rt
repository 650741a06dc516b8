//! Which files a side needs of the other.
ghost use Rattle.std.specs.Prelude.{◌≡◌, IfOk, OnOk, ◌++◌};
ghost use Rattle.std.specs.List.{filter_map, flat_map};
ghost use Rattle.std.specs.Option.{option_and_then};
ghost use Rattle.mode_rules.specs.Placing.{placed_file};
ghost use Rattle.stage_core.specs.Needs.{is_same_side, need_of, needed_by, needs_of};

use crate::need::Need;
use entry_tree::{Atom, Side};
use mode_rules::Change;
use roots_api::Stamps;
use std::alloc::{AllocError, Global};
use sync_path::Path;

/// The files that the side needs for these changes, in the order of the changes. Cost: their entries, the lengths of these files'
/// paths, and O(log n) for each.
pub(crate) fn needs_of(
    alloc: Global,
    side: Side,
    changes: &[Change],
    stamps: &Stamps,
) -> Result<Vec<Need>, AllocError>
    ensures { IfOk result (λ needs. needs.items ≡ needs_of side stamps.now changes.now) }
{
    let mut needs = Vec::new(alloc);
    for change in changes {
        add_needed(alloc, side, change, stamps, &mut needs)?;
    }
    Ok(needs)
}

// Adds the files that the side needs for the change.
fn add_needed(
    alloc: Global,
    side: Side,
    change: &Change,
    stamps: &Stamps,
    needs: &mut Vec<Need>,
) -> Result<(), AllocError>
    ensures { OnOk result (needs.new.items ≡ needs.old.items ++ needed_by side stamps.now change.now) }
{
    if !is_same_side(change.side, side) {
        return Ok(());
    }
    if change.sets_bit_alone() {
        return Ok(());
    }
    add_files(alloc, change.new.entries(), stamps, needs)
}

// Adds the files among these entries.
fn add_files(
    alloc: Global,
    entries: &[(Path, Atom)],
    stamps: &Stamps,
    needs: &mut Vec<Need>,
) -> Result<(), AllocError>
    ensures { OnOk result (needs.new.items ≡ needs.old.items ++ filter_map (need_of stamps.now) (filter_map placed_file entries.now)) }
{
    for (path, atom) in entries {
        if let Some(need) = need_at(alloc, path, atom, stamps)? {
            needs.push(need)?;
        }
    }
    Ok(())
}

// The file that an entry is, if it is one and has a stamp.
fn need_at(
    alloc: Global,
    path: &Path,
    atom: &Atom,
    stamps: &Stamps,
) -> Result<Option<Need>, AllocError>
    ensures { IfOk result (λ need. need ≡ option_and_then (need_of stamps.now) (placed_file (path.now, atom.now))) }
{
    match atom {
        Atom::File(digest, _) => match stamps.get(path) {
            Some(stamp) => {
                let path = path.copy(alloc)?;
                Ok(Some(Need {
                    path,
                    stamp,
                    digest: *digest,
                }))
            }
            None => Ok(None),
        },
        _ => Ok(None),
    }
}

// Whether two sides are the same.
fn is_same_side(side: Side, other: Side) -> bool
    ensures { result ≡ is_same_side side other }
{
    match (side, other) {
        (Side::Alpha, Side::Alpha) => true,
        (Side::Beta, Side::Beta) => true,
        _ => false,
    }
}
