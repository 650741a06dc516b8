//! Why a line was not read.

use thiserror::Error;

/// A line that spells no request: the first byte of the first word with which no request line begins any more, or the line's length
/// if it ends before a request is whole.
#[derive(Clone, Copy, Debug, PartialEq, Eq)]
pub struct BadLine {
    pub place: usize,
}

/// Why a line was not read.
#[derive(Clone, Copy, Debug, PartialEq, Eq, Error)]
pub enum LineError {
    /// It spells no request.
    #[error("no request is spelt so, at byte {place}", place = .0.place)]
    Bad(BadLine),
    /// There was no memory.
    #[error("out of memory")]
    Memory,
}
