//! Closing a stream.
ghost use Rattle.mux_core.specs.Calls.{close_step};
ghost use Rattle.mux_core.specs.Ends.{SameLink};
ghost use Rattle.mux_core.specs.Answers.{Answers};

use crate::end::MuxEnd;
use crate::error::MuxError;
use mux_frames::{MuxFrame, StreamId};

impl MuxEnd {
    /// Ends the stream at this end: it isn't live here any more, and its read buffer is dropped. The
    /// bytes that it accepted still go out, before the Close.
    pub fn close(&mut self, stream: u32) -> Result<(), MuxError>
        ensures step { Answers result self.old self.new (close_step self.old stream) }
        ensures link { SameLink self.old self.new }
    {
        if self.streams.get(stream).is_none() {
            return Err(MuxError::NoStream);
        }
        let frame = MuxFrame::Close(StreamId::of(stream));
        self.tell(&frame)?;
        self.streams.remove(stream);
        Ok(())
    }
}
