//! What a read answers.
use bytes::Bytes;

/// What a read of a stream answers.
#[derive(Debug, PartialEq, Eq, Drop)]
pub enum ReadAnswer {
    /// The next bytes, at least one.
    Got(Bytes),
    /// Nothing is buffered yet.
    Empty,
    /// All that the other end wrote was read, and it ended its writing.
    End,
    /// The other end closed the stream, or the link ended: no more bytes come.
    Broken,
}
