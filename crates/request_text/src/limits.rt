//! The bounds of the numbers of a line.

/// The greatest length with which an edit fills a file.
pub const MAX_FILL_LEN: u64 = 268_435_456;
/// The greatest number of turns that a line asks for.
pub const MAX_STEP_COUNT: u64 = 1_000_000;
/// The greatest number of bytes with which a line fills a stream.
pub const MAX_STREAM_FILL_LEN: u64 = 1_048_576;
/// The greatest number of bytes that a line reads of a stream.
pub const MAX_READ: u64 = 65_536;
/// The greatest limit of a session's entries, and the one that it has by default.
pub const MAX_ENTRY_LIMIT: u64 = 65_536;
/// The greatest limit of the size of a session's files, and the one that it has by default.
pub const MAX_SIZE_LIMIT: u64 = 16_777_216;
