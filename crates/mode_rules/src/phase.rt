//! Where a session stands in a cycle.

/// Where a session stands in a cycle. The phases come in this order, and a cycle may skip some.
#[derive(Clone, Copy, Debug, PartialEq, Eq)]
pub enum Phase {
    /// No cycle is in course.
    Idle,
    /// What both sides agreed on is forgotten, since the session was reset.
    Forget,
    /// Alpha is scanned.
    ScanAlpha,
    /// Beta is scanned.
    ScanBeta,
    /// The contents of files are brought to the side that needs them.
    Stage,
    /// Both sides are changed.
    Change,
    /// What was staged is taken away.
    Clear,
    /// What both sides now agree on is kept.
    Commit,
}
