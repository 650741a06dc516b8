//! Reading from a stream.
ghost use Rattle.std.specs.Prelude.{◌≡◌, ◌<◌, Some};
ghost use Rattle.std.specs.FinMap as map;
ghost use Rattle.mux_core.specs.declared.stream.Stream.{Stream};
ghost use Rattle.mux_core.specs.Calls.{read_step, read_drained};
ghost use Rattle.mux_core.specs.Ends.{SameLink};
ghost use Rattle.mux_core.specs.Answers.{Answers};

use crate::answer::ReadAnswer;
use crate::end::MuxEnd;
use crate::error::MuxError;
use crate::stream::StreamState;
use mux_frames::{MuxFrame, StreamId, WindowAmount};

impl MuxEnd {
    /// Takes up to `most` of the bytes that came on the stream. Where it took some and the link isn't
    /// cut, a Window frame gives the other end their credit back. The bytes are those of a frame that
    /// came where they lie in one, or else copied once.
    pub fn read(&mut self, stream: u32, most: usize) -> Result<ReadAnswer, MuxError>
        requires { 0 < most }
        ensures step { Answers result self.old self.new (read_step self.old stream most) }
        ensures link { SameLink self.old self.new }
    {
        let Some(live) = self.streams.get(stream) else {
            return Err(MuxError::NoStream);
        };
        let count = most.min(live.buffer.len());
        if count == 0 {
            let state = live.state;
            return Ok(self.read_nothing(stream, state));
        }
        let bytes = live.buffer.front(self.alloc, count)?;
        let amount = WindowAmount::of(count as u32);
        let frame = MuxFrame::Window(StreamId::of(stream), amount);
        self.tell(&frame)?;
        self.streams.advance(stream, count);
        Ok(ReadAnswer::Got(bytes))
    }

    /// Answers a read of a live stream of which nothing is buffered. It takes no memory.
    fn read_nothing(&mut self, stream: u32, mut state: StreamState) -> ReadAnswer
        ensures step { (s : Stream) → map.get self.old.streams stream ≡ Some s → s.state ≡ state
            → read_drained self.old stream s ≡ (result, self.new) }
        ensures link { SameLink self.old self.new }
    {
        if state.read_ended {
            if state.write_ended {
                self.streams.remove(stream);
            } else {
                state.end_read = true;
                self.streams.set_state(stream, state);
            }
            return ReadAnswer::End;
        }
        if state.closed || self.is_cut {
            self.streams.remove(stream);
            return ReadAnswer::Broken;
        }
        ReadAnswer::Empty
    }
}
