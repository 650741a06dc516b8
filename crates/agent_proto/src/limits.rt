//! How long a message is at most.

/// How many bytes stand behind a message's length at most.
pub const MAX_MESSAGE: usize = 67_108_864;
