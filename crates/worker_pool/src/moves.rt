//! What the passes of a queue know of it.
use std::collections::LinkedList;

/// A push or a pop of a queue: the number of the pass that made it, and the task. It exists in
/// contracts alone.
pub enum Move<T> {
    Put(u64, T),
    Took(u64, T),
}

/// What a pass knows of a queue: the moves of all passes that it has seen, in their order, and its
/// own moves among them. It exists in contracts alone.
pub struct Seen<T> {
    pub moves: LinkedList<Move<T>>,
    pub mine: LinkedList<Move<T>>,
}
