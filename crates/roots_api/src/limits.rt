//! The limits of roots.

/// How many bytes a file has at most that is fetched.
pub const MAX_FETCH: u64 = 16_777_216;

/// How many bytes a piece of a file has at most.
pub const MAX_PIECE: usize = 65_536;

/// The greatest size of the log of a root in memory: its events, and the rows of its listings.
pub const MAX_LOG_SIZE: u64 = 1_000_000;

/// How many bytes a root in memory holds at most: those of all contents that its files ever had, and of all that was
/// staged.
pub const MAX_BYTES_HELD: u64 = 268_435_456;
