//! What a pass knows of its cell.
use crate::entry::Entry;
use std::collections::LinkedList;

/// Where a pass stands within a call.
pub enum Stage<S> {
    /// Outside a call. It holds no ticket.
    Resting,

    /// It holds this ticket, which isn't served yet.
    Waiting(u64),

    /// This ticket of its is served, and it has taken this object out of the slot.
    Serving(u64, S),

    /// It was joined into another pass, and knows nothing any more.
    Joined,
}

/// What a pass knows. It exists in contracts alone.
pub struct View<S, A, B> {
    /// The object that the cell was made with. None once the pass was joined into another.
    pub opening: Option<S>,

    /// The calls that it has seen, from the first on.
    pub seen: LinkedList<Entry<A, B>>,

    /// Its own calls.
    pub mine: LinkedList<Entry<A, B>>,

    /// The shorter of the two lists seen of a join, until the pass has looked again.
    pub old: LinkedList<Entry<A, B>>,

    /// At least so many tickets were drawn.
    pub drawn: u64,

    pub stage: Stage<S>,
}
