//! Frames one at a time, for a caller that may have to leave a frame where it is.
ghost use Rattle.std.specs.Prelude.{◌≡◌, ℕ, ◌+◌, [], ◌++◌, length, Err, IfOk, OnOk, OnErr};
ghost use Rattle.mux_frames.specs.Frames.{IsSpelling};
ghost use Rattle.mux_frames.specs.Prefix.{Continues};
ghost use Rattle.mux_frames.specs.Nexts.{Completes};
ghost use Rattle.mux_frames.specs.Readers.{counted, FaultsAfter};

use crate::frame::MuxFrame;
use crate::held::{append, slice_of};
use crate::reader::{FeedError, FrameReader};
use crate::rest::Rest;
use crate::scan::{Step, step_at};
use std::alloc::{AllocError, Global};

/// What the next bytes of a stream complete.
#[derive(Debug, PartialEq, Eq, Drop)]
pub enum Next {
    /// This frame, with so many of the bytes.
    Frame(MuxFrame, usize),
    /// No frame yet: some frame goes on behind them.
    Partial,
}

impl FrameReader {
    /// The first frame that the piece completes, and how many bytes of the piece it takes. The reader
    /// stays as it is: `pass` takes these bytes, or `hold` a piece that completes no frame. A payload is
    /// copied once.
    pub fn next_frame(&self, alloc: Global, piece: &[u8]) -> Result<Next, FeedError>
        requires { Continues IsSpelling self.now.held }
        ensures ok { IfOk result (Completes self.now.held piece.now) }
        ensures bad { (place : ℕ) → result ≡ Err (FeedError.BadFrame place)
            → FaultsAfter self.now piece.now place }
    {
        let rest = Rest {
            front: slice_of(&self.held),
            back: piece,
        };
        match step_at(alloc, &rest)? {
            Step::Bad(offset) => {
                let place = self.taken.saturating_add(offset as u64);
                Err(FeedError::BadFrame { place })
            }
            Step::Partial => Ok(Next::Partial),
            Step::Frame(frame, size) => Ok(Next::Frame(frame, size - rest.front.len())),
        }
    }

    /// Takes so many bytes, with which a frame was whole. It takes no memory.
    pub fn pass(&mut self, used: usize)
        ensures { self.new ≡ record self.old {
          taken = counted (self.old.taken + (length self.old.held + used));
          held = [];
        } }
    {
        let held = slice_of(&self.held).len();
        self.taken = self
            .taken
            .saturating_add(held as u64)
            .saturating_add(used as u64);
        self.held = None;
    }

    /// Holds back a piece that completes no frame.
    pub fn hold(&mut self, alloc: Global, piece: &[u8]) -> Result<(), AllocError>
        ensures ok { OnOk result (self.new
            ≡ record self.old { held = self.old.held ++ piece.now }) }
        ensures err { OnErr result (self.new ≡ self.old) }
    {
        append(alloc, &mut self.held, piece)
    }
}
