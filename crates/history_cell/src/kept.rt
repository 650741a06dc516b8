//! What lies in the slot of a cell.
use std::snapshot::Snapshot;

/// A call that was made, as contracts see it. It has no bytes.
#[derive(Drop)]
pub struct Said<A, B> {
    pub op: Snapshot<A>,
    pub reply: Snapshot<B>,
}

/// The object, and the last call of it.
#[derive(Drop)]
pub struct Kept<S, A, B> {
    pub object: S,
    pub last: Option<Said<A, B>>,
}
