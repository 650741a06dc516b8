//! The scan in course.
ghost use Rattle.std.specs.Prelude.{◌≡◌, ◌≤◌};
ghost use Rattle.roots_api.specs.declared.limits.TheConstants.{MAX_FETCH};
ghost use Rattle.entry_tree.specs.declared.side.Side.TheVariants.{Alpha};
ghost use Rattle.cycle_core.specs.Ending.{GoesBy};
ghost use Rattle.cycle_core.specs.Going.{after_scan};
ghost use Rattle.cycle_core.specs.Looks.{new_looks};

use crate::ending::ended_early;
use crate::looks::Looks;
use crate::planning::planned;
use crate::spec::Setup;
use crate::stand::{Next, Stand};
use entry_tree::{Side, Tree};
use mode_rules::Outcome;
use roots_api::Op;
use std::alloc::Global;
use std::marker::Model;
use sync_path::Path;

/// The scan in course, with what it asks next, and both scans.
#[derive(Drop)]
pub struct Scanning {
    /// The side that is scanned.
    pub side: Side,
    pub(crate) looks: Looks,
    /// The operation that is asked.
    pub asked: Op,
}

impl Model for Scanning {
    ghost use Rattle.std.specs.Prelude.{◌≡◌, Some};
    ghost use Rattle.cycle_core.specs.Codes.{looking_code};
    ghost use Rattle.cycle_core.specs.Looks.{Looking, looks_next};

    ghost Value = { Looking };

    ghost coded = { looking_code };

    ghost view = { λ s. record { side = s.side; looks = s.looks } };

    ghost invariant = { λ s. looks_next s.side s.looks ≡ Some s.asked };
}

impl Scanning {
    /// Alpha's scan, which was told nothing. It takes no memory.
    pub(crate) fn first(alloc: Global, entries: u32, size: u64, ancestor: Tree) -> Scanning
        requires { size ≤ MAX_FETCH }
        ensures { result ≡ record { side = Alpha; looks = new_looks entries size ancestor } }
    {
        Scanning {
            side: Side::Alpha,
            looks: Looks::new(alloc, entries, size, ancestor),
            asked: Op::List {
                path: Path::root(alloc),
            },
        }
    }
}

/// A scan was told an answer: it asks on, or the next one does, or the plan is made.
pub(crate) fn after_scan(alloc: Global, setup: &Setup, side: Side, looks: Looks) -> Next
    ensures { GoesBy (λ memory. after_scan setup.now memory side looks) result }
{
    match side {
        Side::Alpha => scan_alpha(alloc, setup, looks),
        Side::Beta => scan_beta(alloc, setup, looks),
    }
}

// Alpha's scan asks on, or beta's does.
fn scan_alpha(alloc: Global, setup: &Setup, looks: Looks) -> Next
    ensures { GoesBy (λ memory. after_scan setup.now memory Side.Alpha looks) result }
{
    match looks.next_op(alloc, Side::Alpha) {
        Err(_) => {
            drop(looks);
            ended_early(alloc, setup.tag, Outcome::NoMemory)
        }
        Ok(Some(asked)) => Next::Goes(Stand::Scans(Scanning {
            side: Side::Alpha,
            looks,
            asked,
        })),
        Ok(None) => scan_beta(alloc, setup, looks),
    }
}

// Alpha's scan is whole: beta's asks on, or the plan is made.
fn scan_beta(alloc: Global, setup: &Setup, looks: Looks) -> Next
    ensures { GoesBy (λ memory. after_scan setup.now memory Side.Beta looks) result }
{
    match looks.next_op(alloc, Side::Beta) {
        Err(_) => {
            drop(looks);
            ended_early(alloc, setup.tag, Outcome::NoMemory)
        }
        Ok(Some(asked)) => Next::Goes(Stand::Scans(Scanning {
            side: Side::Beta,
            looks,
            asked,
        })),
        Ok(None) => planned(alloc, setup.mode, setup.tag, looks),
    }
}
