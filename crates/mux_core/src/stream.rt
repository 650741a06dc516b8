//! One stream at one end.
ghost use Rattle.std.specs.Prelude.{◌≡◌, ◌<◌, ◌^◌, min};
ghost use Rattle.mux_core.specs.Streams.{fresh_stream, is_writable, is_readable, has_credit_room, has_room};

use crate::read_buffer::ReadBuffer;
use std::alloc::Global;

/// A stream's credit when it is opened, in each direction: how many bytes may be written that were
/// not read yet.
pub const WINDOW: u32 = 65_536;

/// What an end knows of a live stream, but for the bytes that came.
#[derive(Clone, Copy, Debug, PartialEq, Eq)]
pub struct StreamState {
    /// No Accept is to come: one came, or this is the far end.
    pub accepted: bool,
    /// How many bytes this end may write.
    pub credit: u32,
    /// This end ended its writing.
    pub write_ended: bool,
    /// The other end ended its writing: CloseWrite came.
    pub read_ended: bool,
    /// A read answered `End`.
    pub end_read: bool,
    /// The other end closed the stream: Close came.
    pub closed: bool,
}

/// A live stream: its state, and the bytes that came and were not read yet.
#[derive(Drop)]
pub struct Stream {
    pub state: StreamState,
    pub buffer: ReadBuffer,
}

impl StreamState {
    /// Neither this end ended its writing nor the other end closed the stream.
    pub(crate) fn is_writable(&self) -> bool
        ensures { result ≡ is_writable self.now }
    {
        !self.write_ended && !self.closed
    }

    /// How many of so many bytes the credit allows to be written.
    pub(crate) fn allowed(&self, size: usize) -> usize
        ensures least { result ≡ min size self.now.credit }
        ensures bound { result < 2 ^ 32 }
    {
        size.min(self.credit as usize)
    }

    /// The other end may still write: neither its CloseWrite nor its Close came.
    pub(crate) fn is_readable(&self) -> bool
        ensures { result ≡ is_readable self.now }
    {
        !self.read_ended && !self.closed
    }

    /// The credit may rise by this.
    pub(crate) fn has_credit_room(&self, amount: u32) -> bool
        ensures { result ≡ has_credit_room self.now amount }
    {
        self.credit as u64 + amount as u64 <= WINDOW as u64
    }
}

impl Stream {
    /// A stream as it is opened. It takes no memory.
    pub(crate) fn new(alloc: Global, accepted: bool) -> Stream
        ensures { result ≡ fresh_stream accepted }
    {
        Stream {
            state: StreamState {
                accepted,
                credit: WINDOW,
                write_ended: false,
                read_ended: false,
                end_read: false,
                closed: false,
            },
            buffer: ReadBuffer::new(alloc),
        }
    }

    /// The other end may still write so many bytes, and they fit behind what is buffered.
    pub(crate) fn has_room(&self, size: usize) -> bool
        ensures { result ≡ has_room self.now size }
    {
        self.state.is_readable() && size <= WINDOW as usize - self.buffer.len()
    }
}
