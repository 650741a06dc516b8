//! What every run of a root in memory keeps to. Each law is the contract of a function that does nothing.
ghost use Rattle.mem_roots.specs.Runs.{RunsAreSound, CountsAreExact};
ghost use Rattle.mem_roots.specs.Sharing.{HistoriesAreLegal};

/// After every list of operations of sessions, changes of editors and lists of what is to fail, the log of a root in memory
/// is legal and within its limits, and its count of Full answers is the number of the calls that were answered Full.
pub fn every_run()
    ensures sound { RunsAreSound }
    ensures counts { CountsAreExact }
{}

/// In each history of a root that threads share, the log only grows, and it is legal after them all if it was before.
pub fn shared_roots()
    ensures { HistoriesAreLegal }
{}
