//! Steps of a change.
use mode_rules::AncestorLine;
use roots_api::Op;

/// An operation of a change, and the line that it gives the ancestor once it is done.
#[derive(Debug, Drop)]
pub struct Step {
    /// The operation.
    pub op: Op,
    /// The line.
    pub line: AncestorLine,
}
