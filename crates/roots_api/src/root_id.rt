//! The names of roots among several.

/// A root among several, by its number.
#[derive(Clone, Copy, Debug, PartialEq, Eq)]
pub struct RootId(pub u8);
