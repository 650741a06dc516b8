//! Why a call of a cell is refused.

/// The cell has drawn its last ticket. Nothing is done.
#[derive(Debug, Clone, Copy, PartialEq, Eq)]
pub struct Spent {
    /// The number of tickets that were drawn.
    pub word: u64,
}

/// A ticket was drawn that is never served: its pass was lost within a call.
#[derive(Debug, Clone, Copy, PartialEq, Eq)]
pub struct TurnOut {
    /// The number of tickets that were drawn.
    pub tickets: u64,

    /// The number of tickets that were served.
    pub serving: u64,
}
