//! Why a journal refuses.
ghost use Rattle.std.specs.Prelude.{◌≡◌};
ghost use Rattle.frame_journal.specs.declared.error.OpenError.TheVariants as opening;
ghost use Rattle.frame_journal.specs.declared.error.AppendError.TheVariants as appending;

use disk_model::Failed;
use std::alloc::{AllocError, AllocFailed};

/// Why a journal isn't open.
#[derive(Clone, Copy, Debug, PartialEq, Eq)]
pub enum OpenError {
    /// The disk failed, and its count of faults rose.
    DiskFault,
    /// This frame, counted from 0, has an open gate, and doesn't lie whole in the file with one
    /// more byte behind it.
    BadFrame(u64),
    /// Want of memory.
    Memory,
}

/// Why a frame isn't appended, or a checkpoint isn't made.
#[derive(Clone, Copy, Debug, PartialEq, Eq)]
pub enum AppendError {
    /// The disk failed, and its count of faults rose. The journal is closed.
    DiskFault,
    /// The journal is closed.
    Closed,
    /// Want of memory. Nothing is changed.
    Memory,
}

impl From<Failed> for OpenError {
    ghost from_gives = { λ _ e. e ≡ opening.DiskFault };

    fn from(_error: Failed) -> OpenError {
        OpenError::DiskFault
    }
}

impl From<AllocError> for OpenError {
    ghost from_gives = { λ _ e. e ≡ opening.Memory };

    fn from(_error: AllocError) -> OpenError {
        OpenError::Memory
    }
}

impl<T: Drop> From<AllocFailed<T>> for OpenError {
    ghost from_gives = { λ _ e. e ≡ opening.Memory };

    fn from(_error: AllocFailed<T>) -> OpenError {
        OpenError::Memory
    }
}

impl From<AllocError> for AppendError {
    ghost from_gives = { λ _ e. e ≡ appending.Memory };

    fn from(_error: AllocError) -> AppendError {
        AppendError::Memory
    }
}
