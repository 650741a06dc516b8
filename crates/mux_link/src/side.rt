//! The sides of a link.

/// A side of a link.
#[derive(Clone, Copy, Debug, PartialEq, Eq)]
pub enum Side2 {
    /// The end that opens the streams.
    Near,
    Far,
}
