//! What the table refuses.

use command_words::Identifier;
use mode_rules::Halt;

/// Why the table refuses an operation.
#[derive(Clone, Copy, Debug, PartialEq, Eq)]
pub enum TableRefusal {
    /// No live session of the kind has the name or identifier (20).
    NoSession,
    /// Both sides are one root (21).
    SameRoot,
    /// As many sessions are live as there may be (22).
    TableFull,
    /// This live session of the kind has the name (23).
    NameTaken(Identifier),
    /// This session, live or terminated, has the identifier that was drawn (24).
    IdTaken(Identifier),
    /// The client's last number, which is greater (25).
    OldNumber(u64),
    /// The client is new, and as many are kept as may be (26).
    ClientsFull,
    /// The session is halted (27).
    Halted(Halt),
    /// The session is paused (28).
    Paused,
    /// The cycle was awaited in an earlier run than this one (36).
    OldRun(u32),
}
