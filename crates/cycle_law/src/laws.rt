//! The laws. Each is the contract of a function that does nothing.
ghost use Rattle.cycle_law.specs.Between.{UndisturbedIsLeft};
ghost use Rattle.cycle_law.specs.Laws.{EachCycle, ForgetsItsLast, MayFindOneMore, NamesWhatWasHeld, TakesTheAncestors};
ghost use Rattle.cycle_law.specs.LookLaws.{HiddenIsBelowUntracked, LookIsTree, StateAgreesWithLook};
ghost use Rattle.cycle_law.specs.ReportLaws.{DoneTellsAll, HaltIsExact};
ghost use Rattle.cycle_law.specs.Worked.{DeletionTravels, FrameIsUnsound, HaltedChanges, HaltedRests, PlaceIsWrong, ShownIsRemoved};
ghost use Rattle.cycle_law.specs.WorkedReports.{FaultIsCounted, HaltIsTold, RefusedIsTold, SkippedIsTold, UnstagedIsTold};
ghost use Rattle.cycle_law.specs.WorkedSettled.{Settles};

/// Small sessions, as examples of the definitions. A file and its deletion travel to the other side, which conserves; and so it does
/// that a halted cycle changes nothing. These don't: a file is removed that the other side still shows; a frame lacks an agreed line,
/// or names what isn't there; a file is placed with another content, or before it is kept; a halted cycle changes a side.
pub fn worked_sessions()
    ensures deletion { DeletionTravels }
    ensures shown { ShownIsRemoved }
    ensures unsound { FrameIsUnsound }
    ensures wrong { PlaceIsWrong }
    ensures halted { HaltedChanges }
    ensures rests { HaltedRests }
{}

/// Small cycles with their reports, as examples of what is right and what is settled. A removal that is refused is told, and what is skipped, and for which
/// path; so is a file that wasn't staged, on the side that needs it. A report isn't right that leaves a problem out, gives it another cause, another side, or
/// twice. A halt is told, and no other end but want of memory. A fault is told only where the count of that root's faults rose. A cycle that nobody disturbs
/// and that makes a folder is settled; it isn't where the folder isn't made, has no line, or its frame isn't kept.
pub fn worked_reports()
    ensures refused { RefusedIsTold }
    ensures skipped { SkippedIsTold }
    ensures unstaged { UnstagedIsTold }
    ensures halt { HaltIsTold }
    ensures fault { FaultIsCounted }
    ensures settles { Settles }
{}

/// What a session that conserves took away, on a side where its mode wants a licence: each entry that one of its cycles removed or replaced
/// has the atom that the ancestor of the cycle holds there, and the cycle didn't see that atom on the other side.
///
/// In two-way-safe this is so of both sides, in two-way-resolved of alpha, in one-way-safe of beta.
pub fn only_the_ancestors_are_taken()
    ensures { EachCycle TakesTheAncestors }
{}

/// What the frames of a session that conserves name: on each side, the cycle saw the atom that a line sets at its path, or put it there.
pub fn frames_name_what_was_held()
    ensures { EachCycle NamesWhatWasHeld }
{}

/// What conserves still does without its last frame, if no cycle's base counts that frame. A crash may take a frame that was not acknowledged.
pub fn the_last_frame_may_be_lost()
    ensures { ForgetsItsLast }
{}

/// What conserves still does with one frame more behind all others, if that frame is the one that one of its cycles offered. No base may count it, and the
/// base of each later cycle counts all frames before it. A crash may leave a frame whose append was refused.
pub fn a_refused_frame_may_be_found()
    ensures { MayFindOneMore }
{}

/// A root whose tree is closed under parents agrees with its look. At and below each path in a folder that the look shows: what it shows as tracked stands
/// there, with that atom, and a file with its stamp; what it shows otherwise stands there too; and nothing else stands there, but below what isn't tracked.
/// This is what a change that nobody disturbs may begin on.
///
/// What the look shows is part of a tree. What stands and isn't shown lies below something that is shown and isn't tracked.
pub fn states_agree_with_their_look()
    ensures agrees { StateAgreesWithLook }
    ensures tree { LookIsTree }
    ensures hidden { HiddenIsBelowUntracked }
{}

/// What a change leaves that nobody disturbs is what a settled cycle is to show at and below the change's path.
pub fn undisturbed_changes_are_settled()
    ensures { UndisturbedIsLeft }
{}

/// A right report that says `done` has the plan's conflicts, and just the problems that the scans, the plan and the logs give, in order. Where a plan stands
/// that is halted, a right report tells that halt, or want of memory.
pub fn right_reports_tell_all()
    ensures done { DoneTellsAll }
    ensures halt { HaltIsExact }
{}
