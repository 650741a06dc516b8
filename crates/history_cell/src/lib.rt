//! A cell that threads share: an object whose calls have one legal history.
//!
//! Each call of the object acts once, at one point of that history, and its reply is the object's there. A caller
//! has a pass, which takes no bytes, and a contract sees what the pass knows: a beginning of the history, and which
//! calls in it are its own. The history exists in contracts alone.
//!
//! The cell is a ticket lock over the kit's `atomic_table`: a word that counts the tickets drawn, a word that counts
//! the tickets served, and a slot that holds the object.
//!
//! ```rust
//! // `Counter` is an object that keeps a count.
//! let (cell, mut pass) = HistoryCell::new(alloc, Counter { count: 9 })?;
//! let other = cell.split(&mut pass); // for another thread, which takes it along
//! cell.join(&mut pass, other);
//! assert!(rt; matches!(cell.close(pass), Ok(Counter { count: 9 })));
//! ```
//!
//! The test `a_new_cell_gives_its_object_back` makes these calls, and `two_threads_count_to_two_thousand` calls the object.
#![tactic(auto)]

mod answer;
mod cell;
mod entry;
mod kept;
mod object;
mod pass;
mod rule;
#[cfg(test)]
mod tests;
mod view;

pub use answer::{Spent, TurnOut};
pub use cell::{HistoryCell, MOST_TICKETS};
pub use entry::Entry;
pub use object::Object;
pub use pass::Pass;
