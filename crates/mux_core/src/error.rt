//! Why a call was refused.
use mux_frames::MuxFrame;
use std::alloc::{AllocError, AllocFailed};

/// Why no stream was opened.
#[derive(Clone, Copy, Debug, PartialEq, Eq)]
pub enum OpenError {
    /// `live` streams are live at this end, the most that it opens, or the last number was given.
    StreamsFull { live: u32 },
    /// Want of memory. The end is as it was.
    Memory,
}

impl From<AllocError> for OpenError {
    ghost use Rattle.std.specs.Prelude.{◌≡◌};
    ghost use Rattle.mux_core.specs.declared.error.OpenError.TheVariants.{Memory};

    ghost from_gives = { λ _ e. e ≡ Memory };

    fn from(_error: AllocError) -> OpenError {
        OpenError::Memory
    }
}

/// Why a call on a stream was refused. The end is as it was.
#[derive(Debug, PartialEq, Eq, Drop)]
pub enum MuxError {
    /// The stream isn't live at this end.
    NoStream,
    /// Writing has ended at this end, the other end closed the stream, or the link ended.
    WriteClosed,
    /// The frame, which breaks a rule of the two ends.
    Protocol(MuxFrame),
    /// Want of memory.
    Memory,
}

impl From<AllocError> for MuxError {
    ghost use Rattle.std.specs.Prelude.{◌≡◌};
    ghost use Rattle.mux_core.specs.declared.error.MuxError.TheVariants.{Memory};

    ghost from_gives = { λ _ e. e ≡ Memory };

    fn from(_error: AllocError) -> MuxError {
        MuxError::Memory
    }
}
