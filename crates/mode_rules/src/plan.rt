//! What a cycle is to do.

use crate::ancestor_line::AncestorLine;
use crate::change::Change;
use crate::conflict::Conflict;
use crate::halt::Halt;
use sqlite_items::Items;

/// What a cycle is to do: each list in path order.
#[derive(Drop)]
pub struct Plan {
    /// Why nothing of it may be done.
    pub halt: Option<Halt>,
    /// The changes of both sides.
    pub changes: Items<Change>,
    /// What the ancestor takes up at once.
    pub agreed: Items<AncestorLine>,
    /// Where nothing is done.
    pub conflicts: Items<Conflict>,
}
