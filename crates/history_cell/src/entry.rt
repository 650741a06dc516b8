//! One call in the history of a cell.

/// A call: the number of the pass that made it, the operation and the reply. It exists in contracts alone.
pub struct Entry<A, B> {
    pub by: u64,
    pub op: A,
    pub reply: B,
}
