//! What a cycle asks, and what it is told.

use entry_tree::Side;
use frame_text::Frame;
use mode_rules::CycleReport;
use roots_api::{Answer, Op};

/// What a cycle asks next.
#[derive(Debug)]
pub enum Request<'a> {
    /// An operation of the session on the root of a side.
    Ask(Side, &'a Op),
    /// A frame that is to be kept.
    Keep(&'a Frame),
}

/// What came of a cycle's request.
#[derive(Debug, Drop)]
pub enum Taken {
    /// The root's answer to an operation.
    Answered(Answer),
    /// The frame is kept.
    Kept,
    /// The keeper failed, and the frame isn't kept.
    KeepFailed,
    /// There was no memory for the request, and nothing was done.
    NoMemory,
}

/// How a cycle goes on.
#[derive(Debug, Drop)]
pub enum Progress {
    /// There is a next request.
    Going,
    /// The cycle has ended so.
    Ended(CycleReport),
}
