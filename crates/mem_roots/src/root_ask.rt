//! What a shared root is asked, and what it answers.

use roots_api::{Answer, Edit, EditError, Op};

/// What a root that threads share is asked.
#[derive(Debug, Drop)]
pub enum RootAsk {
    /// An operation of a session in one of its cycles.
    Call {
        /// The session's identifier.
        id: u128,
        /// The run of the daemon.
        run: u32,
        /// The cycle of the session.
        cycle: u64,
        /// The operation.
        asked: Op,
    },
    /// An editor's change.
    Change(Edit),
}

/// What it answers.
#[derive(Debug, Drop)]
pub enum RootTold {
    /// The answer to an operation.
    Answered(Answer),
    /// That a change is done, or why it isn't. The reason is never want of memory.
    Changed(Result<(), EditError>),
    /// There was no memory, and the root is as it was.
    NoMemory,
}
