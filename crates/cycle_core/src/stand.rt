//! Where a cycle stands, and how it goes on.

use crate::scanning::Scanning;
use crate::supply::Supply;
use crate::work::Work;
use entry_tree::Side;
use frame_text::Frame;
use mode_rules::CycleReport;
use roots_api::Op;
use std::marker::Model;

/// Where a cycle stands, with what it asks next.
#[derive(Drop)]
pub enum Stand {
    /// The frame of the reset that is owed is to be kept.
    Forgets(Frame),
    /// A side is scanned.
    Scans(Scanning),
    /// The files are staged that a side needs.
    Stages(Supply),
    /// The sides are changed.
    Changes(Applying),
    /// What was staged on a side is taken away.
    Clears { side: Side, op: Op, work: Work },
    /// The cycle's frame is to be kept, and the report is made.
    Commits { frame: Frame, report: CycleReport },
}

/// How a cycle goes on.
#[derive(Drop)]
pub enum Next {
    /// It stands so.
    Goes(Stand),
    /// It ends so.
    Ends(CycleReport),
}

/// The changes in course, of which an operation is asked next. Contracts see the work.
#[derive(Drop)]
pub struct Applying {
    pub(crate) work: Work,
}

impl Model for Applying {
    ghost use Rattle.std.specs.Prelude.{IsTrue, is_some};
    ghost use Rattle.cycle_core.specs.Changing.{asked};
    ghost use Rattle.cycle_core.specs.Codes.{under_way_code};
    ghost use Rattle.cycle_core.specs.UnderWay.{UnderWay};

    ghost Value = { UnderWay };

    ghost coded = { under_way_code };

    ghost view = { λ a. a.work };

    ghost invariant = { λ a. IsTrue (is_some (asked a.work.courses)) };
}
