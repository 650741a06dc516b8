//! The limits of lines and sources.

/// How many bytes a line may have, its end not counted.
pub const MOST_LINE_BYTES: usize = 65_536;

/// How many bytes of a line are kept: one more than a line may have, since a carriage return may stand before its end.
pub(crate) const MOST_KEPT: usize = MOST_LINE_BYTES + 1;

/// How many bytes are ever taken from a source: 2^30.
pub const MOST_TAKEN: u64 = 1_073_741_824;

/// How many faults and calls are counted at most: a count stays there.
pub const MOST_COUNTED: u64 = u64::MAX;
