//! The laws. Each is the contract of a function that does nothing.
ghost use Rattle.mode_rules.specs.declared.mode.Mode.{Mode};
ghost use Rattle.plan_laws.specs.Settling.{EachSettles};

/// In every mode, if only folders, files and links stand anywhere and the plan has no conflict: once all changes are made, the ancestor can take up the agreed
/// lines and one line for each operation of the changes. The next plan then has no change and no conflict, and its lines only drop paths at which neither side
/// holds anything.
pub fn plans_settle()
    ensures { (mode : Mode) → EachSettles mode }
{}
