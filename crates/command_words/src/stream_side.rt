//! The two ends of a stream.

/// An end of a stream.
#[derive(Clone, Copy, Debug, PartialEq, Eq)]
pub enum StreamSide {
    /// The end that opens streams.
    Near,
    /// The other end.
    Far,
}
