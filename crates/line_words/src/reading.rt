//! The two ways to read a line.

/// How a line is read.
#[derive(Clone, Copy, Debug, PartialEq, Eq)]
pub enum Reading {
    /// As people type: one or more spaces between words and any number of them before the first and after the last, each byte
    /// from 0x80 to 0xFF as itself or escaped, and digits of an escape in either case.
    Free,
    /// Just what a writer writes: one space between words, none before or after, nothing escaped that may stand as itself, and
    /// upper-case digits.
    Canonical,
}
