//! What every run of the table keeps to. Each law is the contract of a function that does nothing.
ghost use Rattle.std.specs.Prelude.{ℕ};
ghost use Rattle.session_table.specs.Laws.{HasItsName, IsFoundById, IsFoundByName, IsSound, OthersStay, RepeatsActed, RepeatsLast, StaysGone};
ghost use Rattle.session_table.specs.Machine.{empty_machine, step, with_run};
ghost use Rattle.session_table.specs.States.{Machine};
ghost use Rattle.session_table.specs.declared.op.TableOp.{TableOp};

/// A client's line that is sent again gets the reply that was kept, and makes no step.
pub fn a_repeated_line_makes_no_step()
    ensures last { RepeatsLast }
    ensures acted { RepeatsActed }
{}

/// The identifier of a session that was terminated is never that of a live session again, whatever is done.
pub fn a_terminated_identifier_stays_gone()
    ensures { StaysGone }
{}

/// Every table is sound: the empty one is, and each step and each new run keep it.
pub fn every_table_is_sound()
    ensures empty { (run : ℕ) → IsSound (empty_machine run) }
    ensures step { (op : TableOp) (m : Machine) → IsSound m → IsSound (step op m).1 }
    ensures run { (run : ℕ) (m : Machine) → IsSound m → IsSound (with_run run m) }
{}

/// In a sound table a live session is found by its identifier and by its name, and what is found by a name is live and has it.
pub fn a_live_session_is_found()
    ensures identifier { (m : Machine) → IsSound m → IsFoundById m }
    ensures name { (m : Machine) → IsSound m → IsFoundByName m }
    ensures no_other { (m : Machine) → IsSound m → HasItsName m }
{}

/// A step leaves all sessions as they are but for the one that it is about.
pub fn all_other_sessions_stay()
    ensures { OthersStay }
{}
