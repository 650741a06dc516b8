//! How a cycle ended.
ghost use Rattle.std.specs.Prelude.{◌≡◌, IfOk};

use crate::conflict::Conflict;
use crate::copies::copied_items;
use crate::halt::Halt;
use crate::problem::Problem;
use entry_tree::Side;
use sqlite_items::Items;
use std::alloc::{AllocError, Global};

/// How a cycle ended.
#[derive(Clone, Copy, Debug, PartialEq, Eq)]
pub enum Outcome {
    /// It came to its end.
    Done,
    /// Nothing was changed, for this reason.
    Halted(Halt),
    /// The session was stopped.
    Stopped,
    /// The side has more entries than a session carries.
    TooMany(Side),
    /// The side's root failed.
    Fault(Side),
    /// The side's root had no room.
    RootFull(Side),
    /// What was agreed could not be kept.
    KeeperFault,
    /// There was no memory.
    NoMemory,
}

/// How a cycle ended, its conflicts and its problems.
#[derive(Debug, Drop)]
pub struct CycleReport {
    /// The cycle's number, from 1.
    pub cycle: u64,
    /// How it ended.
    pub outcome: Outcome,
    /// The conflicts, in path order.
    pub conflicts: Items<Conflict>,
    /// The problems, as they arose.
    pub problems: Items<Problem>,
}

impl CycleReport {
    /// An equal report. Cost: what it lists.
    pub fn copy(&self, alloc: Global) -> Result<CycleReport, AllocError>
        ensures { IfOk result (λ report. report ≡ self.now) }
    {
        Ok(CycleReport {
            cycle: self.cycle,
            outcome: self.outcome,
            conflicts: copied_items(alloc, self.conflicts.as_slice())?,
            problems: copied_items(alloc, self.problems.as_slice())?,
        })
    }
}
