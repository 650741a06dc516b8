//! The limits of patterns.

/// The greatest number of parts of a pattern.
pub const MAX_PARTS: usize = 64;

/// The greatest place that a refusal gives; it stands for each from there on.
pub const MAX_PLACE: u32 = u32::MAX;
