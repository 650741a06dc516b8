//! Writing on a stream.
ghost use Rattle.mux_core.specs.Calls.{write_step, close_write_step};
ghost use Rattle.mux_core.specs.Ends.{SameLink};
ghost use Rattle.mux_core.specs.Answers.{Answers};

use crate::data_frames::written_data;
use crate::end::MuxEnd;
use crate::error::MuxError;
use mux_frames::{MuxFrame, StreamId};

impl MuxEnd {
    /// Accepts as many of the bytes as the stream's credit allows, lowers the credit by their number,
    /// which it answers, and lets their Data frames wait to go out. Each byte is copied once. Of no
    /// bytes it accepts 0, and nothing changes.
    pub fn write(&mut self, stream: u32, bytes: &[u8]) -> Result<usize, MuxError>
        ensures step { Answers result self.old self.new (write_step self.old stream bytes.now) }
        ensures link { SameLink self.old self.new }
    {
        let Some(live) = self.streams.get(stream) else {
            return Err(MuxError::NoStream);
        };
        let mut state = live.state;
        if self.is_cut || !state.is_writable() {
            return Err(MuxError::WriteClosed);
        }
        let count = state.allowed(bytes.len());
        let frames = written_data(self.alloc, StreamId::of(stream), &bytes[..count])?;
        self.queue.push(frames)?;
        state.credit -= count as u32;
        self.streams.set_state(stream, state);
        Ok(count)
    }

    /// Ends this end's writing on the stream, behind all bytes that were accepted.
    pub fn close_write(&mut self, stream: u32) -> Result<(), MuxError>
        ensures step { Answers result self.old self.new (close_write_step self.old stream) }
        ensures link { SameLink self.old self.new }
    {
        let Some(live) = self.streams.get(stream) else {
            return Err(MuxError::NoStream);
        };
        let mut state = live.state;
        if self.is_cut || !state.is_writable() {
            return Err(MuxError::WriteClosed);
        }
        let frame = MuxFrame::CloseWrite(StreamId::of(stream));
        self.tell(&frame)?;
        if state.end_read {
            self.streams.remove(stream);
        } else {
            state.write_ended = true;
            self.streams.set_state(stream, state);
        }
        Ok(())
    }
}
