//! What every plan keeps to, for all trees. Each law is the contract of a function that does nothing.
ghost use Rattle.mode_rules.specs.Laws.{TakesNothingElse, TakesNothingElseOfAlpha, ChangesBetaAlone, LeavesEqualSides, MakesSidesMeet, TreatsSidesAlike};
ghost use Rattle.mode_rules.specs.ChangeLaws.{TakesFromOthers, ReplacesOnlyOthers, AreLicensed, AreLicensedOfAlpha};
ghost use Rattle.mode_rules.specs.AgreedLaws.{KeepsAncestor};
ghost use Rattle.mode_rules.specs.NothingLeft.{LeavesNothing};
ghost use Rattle.mode_rules.specs.PointLaws.{KeepsApart, LeavesConflicts, MeetsAtChanges, MeetsAtPoints};
ghost use Rattle.mode_rules.specs.declared.mode.Mode.{Mode};

/// In both safe modes a side is changed only where all that it holds at and below the path, what is untracked apart, is what the ancestor holds in the same
/// place: nothing else is taken away or replaced.
pub fn safe_modes_take_only_the_ancestors()
    ensures two_way { TakesNothingElse Mode.TwoWaySafe }
    ensures one_way { TakesNothingElse Mode.OneWaySafe }
{}

/// In every mode that is so of alpha: nothing of alpha is taken away or replaced but what the ancestor holds.
pub fn alpha_loses_only_the_ancestors()
    ensures { (mode : Mode) → TakesNothingElseOfAlpha mode }
{}

/// In two-way-safe it makes no difference which side is called alpha: with the sides in each other's place the plan is the same, each side's part in the
/// other's place.
pub fn two_way_safe_treats_sides_alike()
    ensures { TreatsSidesAlike Mode.TwoWaySafe }
{}

/// In both one-way modes alpha is never changed.
pub fn one_way_modes_leave_alpha()
    ensures safe { ChangesBetaAlone Mode.OneWaySafe }
    ensures replica { ChangesBetaAlone Mode.OneWayReplica }
{}

/// Where both sides are the same, nothing is changed and there is no conflict, in any mode.
pub fn equal_sides_are_left()
    ensures { (mode : Mode) → LeavesEqualSides mode }
{}

/// Where nothing stands on either side but folders, files and links, and there is no conflict, both sides hold the same after the changes, in both two-way
/// modes and in one-way-replica.
pub fn sides_meet()
    ensures safe { MakesSidesMeet Mode.TwoWaySafe }
    ensures resolved { MakesSidesMeet Mode.TwoWayResolved }
    ensures replica { MakesSidesMeet Mode.OneWayReplica }
{}

/// Each change goes from what its side holds at and below its path to what the other side holds there, in every mode.
pub fn changes_take_from_the_other_side()
    ensures { (mode : Mode) → TakesFromOthers mode }
{}

/// In every mode no path at or below a change's holds on the other side what it holds on the side that is changed.
pub fn changes_replace_only_what_differs()
    ensures { (mode : Mode) → ReplacesOnlyOthers mode }
{}

/// What a change may take away: in both safe modes, and on alpha in every mode, each tracked atom at or below the change's path is the ancestor's there, and
/// the other side doesn't hold it.
pub fn changes_are_licensed()
    ensures two_way { AreLicensed Mode.TwoWaySafe }
    ensures one_way { AreLicensed Mode.OneWaySafe }
    ensures of_alpha { (mode : Mode) → AreLicensedOfAlpha mode }
{}

/// How the paths of a plan lie to one another, in every mode: each list is in path order; of changes and conflicts no two lie at, above or below one another; and
/// no line of the ancestor lies at or below one, while a line above one sets a folder.
pub fn points_lie_apart()
    ensures { (mode : Mode) → KeepsApart mode }
{}

/// In every mode the ancestor can take up the agreed lines one after the other, and is closed under parents and holds only what is tracked afterwards, where it
/// held only what is tracked before.
pub fn agreed_lines_can_be_taken_up()
    ensures { (mode : Mode) → KeepsAncestor mode }
{}

/// In every mode, at and below a conflict's path both sides hold after all changes what they held, and the ancestor after all agreed lines.
pub fn conflicts_are_left()
    ensures { (mode : Mode) → LeavesConflicts mode }
{}

/// In every mode both sides hold the same, after all changes, at and below each change's path; and at each path that is decided at a point where the decision makes
/// them the same, whatever is decided elsewhere.
pub fn sides_meet_point_by_point()
    ensures at_changes { (mode : Mode) → MeetsAtChanges mode }
    ensures at_points { (mode : Mode) → MeetsAtPoints mode }
{}

/// Where both sides hold what the ancestor holds, with what is untracked read as nothing, there is nothing to do in any mode: no change, no line, no conflict and no
/// halt.
pub fn nothing_is_left_to_do()
    ensures { (mode : Mode) → LeavesNothing mode }
{}
