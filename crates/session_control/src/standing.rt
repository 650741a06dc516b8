//! How a session stands.

use mode_rules::Halt;

/// What a session's user wants of it.
#[derive(Clone, Copy, Debug, PartialEq, Eq)]
pub enum Wish {
    /// It is to synchronise.
    Run,
    /// It is to do nothing until it is resumed.
    Paused,
}

/// How a session stands. A new one has begun, finished and resets 0, and wanted 1.
#[derive(Clone, Copy, Debug, PartialEq, Eq)]
pub struct Standing {
    /// What its user wants.
    pub wish: Wish,
    /// The number of the last cycle that was begun.
    pub begun: u64,
    /// The number of the last cycle that was finished.
    pub finished: u64,
    /// The number of the last cycle that is wanted.
    pub wanted: u64,
    /// How often it was reset.
    pub resets: u64,
    /// Why it is halted, if it is.
    pub halted: Option<Halt>,
}
