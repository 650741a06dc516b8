//! Lines, and why there is none.
ghost use Rattle.std.specs.Prelude.{◌≡◌};
ghost use Rattle.outside_io.specs.declared.line.LineFault.TheVariants.{Memory};

use std::alloc::AllocError;

/// A line of the input, without what ended it.
#[derive(Debug, PartialEq, Eq, Drop)]
pub enum Line {
    /// All its bytes, at most `MOST_LINE_BYTES` of them.
    Full(Vec<u8>),
    /// It has more bytes than that, and none of them is kept.
    TooLong,
}

/// Why a reader has no line to give.
#[derive(Clone, Copy, Debug, PartialEq, Eq)]
pub enum LineFault {
    /// The source failed. The reader answers this from then on.
    ReadFault,
    /// `MOST_TAKEN` bytes were taken without the end, and no whole line of them is held. The
    /// reader answers this from then on.
    SourceSpent,
    /// Want of memory. Nothing is lost, and a later call may go on.
    Memory,
}

impl From<AllocError> for LineFault {
    ghost from_gives = { λ _ fault. fault ≡ Memory };

    fn from(_error: AllocError) -> LineFault {
        LineFault::Memory
    }
}
