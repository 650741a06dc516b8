//! Why a cycle stops before it changes anything.

/// Why a cycle stops before it changes anything. The names are Mutagen's.
#[derive(Clone, Copy, Debug, PartialEq, Eq)]
pub enum Halt {
    /// The changes would take away all of a side's root.
    RootDeleted,
    /// The changes would turn a side's root from a folder into something else, or back.
    RootTypeChanged,
    /// All that a side's root had is gone, while the other side's is not.
    RootEmptied,
}
