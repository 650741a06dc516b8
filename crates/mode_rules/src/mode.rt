//! How a session treats its two sides.

/// How a session treats its two sides. The names are Mutagen's.
#[derive(Clone, Copy, Debug, PartialEq, Eq)]
pub enum Mode {
    /// Changes travel both ways; where both sides have changed, nothing is overwritten.
    TwoWaySafe,
    /// Changes travel both ways; where both sides have changed, alpha wins.
    TwoWayResolved,
    /// Changes travel from alpha to beta; what beta has of its own stays.
    OneWaySafe,
    /// Beta becomes what alpha is.
    OneWayReplica,
}
