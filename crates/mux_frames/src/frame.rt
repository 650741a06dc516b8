//! A frame.
ghost use Rattle.std.specs.Prelude.{◌≡◌, IfOk};

use crate::data_bytes::DataBytes;
use crate::stream_id::StreamId;
use crate::window_amount::WindowAmount;
use std::alloc::AllocError;

/// What one end of a connection sends to the other. Each value has one spelling, by its types.
#[derive(Debug, PartialEq, Eq, Drop)]
pub enum MuxFrame {
    /// A stream begins.
    OpenStream(StreamId),
    /// The far end has the stream.
    Accept(StreamId),
    /// Bytes of the stream.
    Payload(StreamId, DataBytes),
    /// The stream's writer may send this many bytes more.
    Window(StreamId, WindowAmount),
    /// No more bytes come from this end.
    CloseWrite(StreamId),
    /// This end is done with the stream.
    Close(StreamId),
    /// The connection lives.
    Heartbeat,
}

impl MuxFrame {
    /// The same frame. A payload's buffer is shared, and no byte of it copied.
    pub fn copy(&self) -> Result<MuxFrame, AllocError>
        ensures { IfOk result (λ frame. frame ≡ self.now) }
    {
        let frame = match self {
            MuxFrame::OpenStream(stream) => MuxFrame::OpenStream(*stream),
            MuxFrame::Accept(stream) => MuxFrame::Accept(*stream),
            MuxFrame::Payload(stream, bytes) => MuxFrame::Payload(*stream, bytes.copy()?),
            MuxFrame::Window(stream, amount) => MuxFrame::Window(*stream, *amount),
            MuxFrame::CloseWrite(stream) => MuxFrame::CloseWrite(*stream),
            MuxFrame::Close(stream) => MuxFrame::Close(*stream),
            MuxFrame::Heartbeat => MuxFrame::Heartbeat,
        };
        Ok(frame)
    }
}
