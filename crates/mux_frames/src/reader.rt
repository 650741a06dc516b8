//! Reading frames from a stream that comes in pieces.
ghost use Rattle.std.specs.Prelude.{◌≡◌, ℕ, ◌<◌, length, Some, None, IsOk, IfOk, IsErrOf};

use crate::batch::{Batch, frames_of};
use crate::frame::MuxFrame;
use crate::held::{keep, slice_of};
use crate::rest::Rest;
use crate::wire::MAX_FRAME;
use std::alloc::{AllocError, Global};
use std::marker::Model;

/// Why a piece gave no frames.
#[derive(Clone, Copy, Debug, PartialEq, Eq)]
pub enum FeedError {
    /// No frame continues the bytes before this byte of the stream with it. The first byte is at 0;
    /// u64::MAX stands for each place from there on.
    BadFrame { place: u64 },
    /// Want of memory. The same piece can be fed again.
    Memory,
}

impl From<AllocError> for FeedError {
    ghost use Rattle.std.specs.Prelude.{◌≡◌};
    ghost use Rattle.mux_frames.specs.declared.reader.FeedError.TheVariants.{Memory};

    ghost from_gives = { λ _ e. e ≡ Memory };

    fn from(_error: AllocError) -> FeedError {
        FeedError::Memory
    }
}

/// Takes the bytes of a stream in pieces of any size. A contract sees a `Reading`: how many bytes the
/// frames had that were answered, the bytes of the frame that isn't whole yet, and the place of the
/// bad byte, once one came.
#[derive(Debug, Drop)]
pub struct FrameReader {
    pub(crate) taken: u64,
    pub(crate) held: Option<Vec<u8>>,
    bad: Option<u64>,
}

impl Model for FrameReader {
    ghost use Rattle.mux_frames.specs.Readers.{Reading};

    ghost Value = { Reading };

    ghost use Rattle.mux_frames.specs.Held.{held_bytes};

    ghost view = { λ r. record { taken = r.taken; held = held_bytes r.held; bad = r.bad } };
}

impl FrameReader {
    ghost use Rattle.mux_frames.specs.Readers.{Reads, Refuses, fresh};

    /// A reader that has read nothing. It takes no memory.
    pub fn new() -> FrameReader
        ensures { result ≡ fresh }
    {
        FrameReader {
            taken: 0,
            held: None,
            bad: None,
        }
    }

    /// Takes the next piece of the stream, and answers the frames that it completes. A payload is
    /// copied once where the frame lies whole in the piece. What must be held back is copied once more,
    /// into a buffer that grows by doubling. A call looks again at nine held bytes at most.
    pub fn feed(&mut self, alloc: Global, piece: &[u8]) -> Result<Vec<MuxFrame>, FeedError>
        ensures ok { IfOk result (λ frames. Reads self.old piece.now frames.items self.new) }
        ensures held_back { IsOk result → length self.new.held < MAX_FRAME }

        // The place is that of the first bad byte, and from then on the answer stays the same.
        ensures bad { (place : ℕ) → self.old.bad ≡ None
            → result ≡ Err (FeedError.BadFrame place) → Refuses self.old piece.now place self.new }
        ensures again { (place : ℕ) → self.old.bad ≡ Some place
            → (result ≡ Err (FeedError.BadFrame place)) × (self.new ≡ self.old) }

        // Want of memory changes nothing.
        ensures memory { IsErrOf result FeedError.Memory → self.new ≡ self.old }
    {
        if let Some(place) = self.bad {
            return Err(FeedError::BadFrame { place });
        }
        let found = frames_of(
            alloc,
            &Rest {
                front: slice_of(&self.held),
                back: piece,
            },
        )?;
        match found {
            Batch::Bad(offset) => {
                let place = self.taken.saturating_add(offset as u64);
                self.bad = Some(place);
                Err(FeedError::BadFrame { place })
            }
            Batch::Whole(frames, used) => {
                keep(alloc, &mut self.held, piece, used)?;
                self.taken = self.taken.saturating_add(used as u64);
                Ok(frames)
            }
        }
    }
}
