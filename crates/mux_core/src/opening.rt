//! Opening a stream.
ghost use Rattle.std.specs.Prelude.{◌≡◌, ◌<◌, false, IsTrue, OnOk, OnErr};
ghost use Rattle.mux_core.specs.Ends.{SameLink, opened};
ghost use Rattle.mux_core.specs.Calls.{open_step};
ghost use Rattle.mux_core.specs.Answers.{AnswersOpen};

use crate::end::MuxEnd;
use crate::error::OpenError;
use crate::stream::Stream;
use mux_frames::{MuxFrame, StreamId, write_frame};
use std::alloc::AllocError;

/// How many streams are live at a near end at most.
pub const MAX_LIVE: usize = 4096;

impl MuxEnd {
    /// Opens a stream and answers its number, the next one. It is refused exactly where `MAX_LIVE`
    /// streams are live here or the number 4,294,967,295 was given.
    pub fn open_stream(&mut self) -> Result<u32, OpenError>
        requires near { IsTrue self.old.near }
        requires linked { self.old.is_cut ≡ false }
        ensures step { AnswersOpen result self.old self.new (open_step self.old) }
        ensures link { SameLink self.old self.new }
    {
        let live = self.streams.len();
        if live >= MAX_LIVE || self.last == u32::MAX {
            return Err(OpenError::StreamsFull {
                live: live.min(MAX_LIVE) as u32,
            });
        }
        let number = self.last + 1;
        let frame = MuxFrame::OpenStream(StreamId::of(number));
        self.open(number, false, &frame)?;
        Ok(number)
    }

    /// Opens the stream of this number, and lets the frame wait to go out.
    pub(crate) fn open(
        &mut self,
        number: u32,
        accepted: bool,
        frame: &MuxFrame,
    ) -> Result<(), AllocError>
        requires { 0 < number }
        ensures ok { OnOk result (self.new ≡ opened self.old number accepted frame.now) }
        ensures err { OnErr result (self.new ≡ self.old) }
    {
        let bytes = write_frame(self.alloc, frame)?;
        self.queue.reserve(bytes.len())?;
        self.streams
            .insert(number, Stream::new(self.alloc, accepted))?;
        self.queue.push_reserved(bytes);
        self.last = number;
        Ok(())
    }
}
