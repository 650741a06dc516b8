//! What a session is to do next: how it stands, and the one decision that script, worker and daemon follow.
//!
//! ```text
//! let next = Control::next(table.find(id), ancestor.served(), false);
//! ```
//!
//! The test `each_standing_has_its_next` of `session_tests` makes these calls.
#![tactic(auto)]

mod control;
mod standing;

pub use control::{Control, Next};
pub use mode_rules::Phase;
pub use standing::{Standing, Wish};
