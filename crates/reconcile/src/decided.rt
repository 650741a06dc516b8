//! What is decided so far.
ghost use Rattle.std.specs.Prelude.{◌≡◌, ◌++◌, [], OnOk};
ghost use Rattle.mode_rules.specs.Plans.{change_by, line_of};
ghost use Rattle.mode_rules.specs.Sights.{trees_of};
ghost use Rattle.reconcile.specs.Runs.{listed, row_verdict, row_conflict_by};

use crate::row::PathRow;
use crate::runs::{conflict_by_in, verdict_in};
use entry_tree::Side;
use mode_rules::{AncestorLine, Change, Conflict, Mode, Sight, change_by, line_of};
use sqlite_items::Items;
use std::alloc::{AllocError, Global};

/// The changes, the ancestor's lines and the conflicts of the paths that are decided so far.
#[derive(Drop)]
pub(crate) struct Decided {
    pub(crate) changes: Items<Change>,
    pub(crate) agreed: Items<AncestorLine>,
    pub(crate) conflicts: Items<Conflict>,
}

// Adds the item, if there is one.
fn add_some<T: Drop>(items: &mut Items<T>, item: Option<T>) -> Result<(), AllocError>
    ensures ok { OnOk result (items.new ≡ items.old ++ listed item) }
{
    if let Some(item) = item {
        items.push(item)?;
    }
    Ok(())
}

impl Decided {
    /// Nothing yet. It takes no memory.
    pub(crate) fn new(alloc: Global) -> Decided
        ensures { result ≡ record { changes = []; agreed = []; conflicts = [] } }
    {
        Decided {
            changes: Items::new(alloc),
            agreed: Items::new(alloc),
            conflicts: Items::new(alloc),
        }
    }

    /// Adds what is decided at a row, by the rows of its run.
    pub(crate) fn add(
        &mut self,
        alloc: Global,
        mode: Mode,
        sight: &Sight,
        run: &[PathRow],
        row: &PathRow,
    ) -> Result<(), AllocError>
        ensures changes { OnOk result (self.new.changes ≡ self.old.changes ++ listed (change_by (trees_of sight.now) row.now.0 (row_verdict mode run.now row.now))) }
        ensures agreed { OnOk result (self.new.agreed ≡ self.old.agreed ++ listed (line_of row.now.0 row.now.1.ancestor row.now.1.alpha (row_verdict mode run.now row.now))) }
        ensures conflicts { OnOk result (self.new.conflicts ≡ self.old.conflicts ++ listed (row_conflict_by run.now row.now (row_verdict mode run.now row.now))) }
    {
        let verdict = verdict_in(mode, run, row);
        let change = change_by(alloc, sight, row.path(), verdict)?;
        let line = line_of(
            alloc,
            row.path(),
            row.ancestor(),
            row.on_side(Side::Alpha),
            verdict,
        )?;
        let conflict = conflict_by_in(alloc, run, row, verdict)?;
        add_some(&mut self.changes, change)?;
        add_some(&mut self.agreed, line)?;
        add_some(&mut self.conflicts, conflict)?;
        Ok(())
    }
}
