//! The whole frames at the front of some bytes.
ghost use Rattle.std.specs.Prelude.{IfOk};
ghost use Rattle.mux_frames.specs.Bytes.{bytes_of};
ghost use Rattle.mux_frames.specs.Readers.{Finds};

use crate::frame::MuxFrame;
use crate::rest::Rest;
use crate::scan::{Step, step_at};
use std::alloc::{AllocError, Global};

/// What the bytes are.
pub(crate) enum Batch {
    /// These frames, so many bytes of them, and then less than a whole one.
    Whole(Vec<MuxFrame>, usize),
    /// No frame goes on at this byte.
    Bad(usize),
}

/// The frames of the bytes, read one behind the other.
pub(crate) fn frames_of(alloc: Global, bytes: &Rest<'_>) -> Result<Batch, AllocError>
    ensures { IfOk result (Finds (bytes_of bytes.now)) }
{
    let mut frames = Vec::new(alloc);
    let mut used = 0usize;
    loop {
        let rest = bytes.skip(used);
        match step_at(alloc, &rest)? {
            Step::Bad(place) => return Ok(Batch::Bad(used + place)),
            Step::Partial => return Ok(Batch::Whole(frames, used)),
            Step::Frame(frame, size) => {
                frames.push(frame)?;
                used += size;
            }
        }
    }
}
