//! What every flush of a script keeps to. Each law is the contract of a function that does nothing.
ghost use Rattle.script_engine.specs.Laws.{EveryFlush, TakesOnlyTheOthers, AgreesElsewhere, LeavesConflicts, IsLasting};

/// A flush replaces a file only by the other side's, and only where the one replaced is the
/// ancestor's.
pub fn a_flush_takes_only_the_others()
    ensures { EveryFlush TakesOnlyTheOthers }
{}

/// At every name that is no conflict both sides and the ancestor agree behind a flush.
pub fn a_flush_agrees_elsewhere()
    ensures { EveryFlush AgreesElsewhere }
{}

/// At a conflict a flush changes neither the sides nor the ancestor.
pub fn a_flush_leaves_conflicts()
    ensures { EveryFlush LeavesConflicts }
{}

/// A second flush right behind the first changes no root.
pub fn a_second_flush_changes_no_root()
    ensures { EveryFlush IsLasting }
{}
