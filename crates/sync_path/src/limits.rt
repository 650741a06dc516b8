//! The limits of names and paths.

/// The greatest length of a name, in bytes.
pub const MAX_NAME_LEN: usize = 255;

/// The greatest number of names that a path has.
pub const MAX_DEPTH: usize = 64;

/// The greatest length of a path's text, in bytes.
pub const MAX_PATH_LEN: u32 = 4096;
