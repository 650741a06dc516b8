//! What keeps the frames of sessions, and the ancestor that a session's frames come to.
//!
//! A [`Keeper`] appends frames, each to those of its key, and an [`Archive`] gives them back: [`MemKeeper`] is one in memory. An
//! [`Ancestor`] is opened from an archive: it is the fold of the session's frames, a tree and the number of the reset that was served
//! last. The bytes of a frame and its fold are those of `frame_text`.
//!
//! ```rust
//! let keeper = MemKeeper::new(alloc);
//! let ancestor = Ancestor::open_from(alloc, &keeper, 5)?;
//! assert_eq!(rt; ancestor.tree().len(), 0);
//! ```
//!
//! The test `an_ancestor_is_the_fold_of_its_frames` of `text_tests` makes these calls.
#![tactic(auto)]

mod ancestor;
mod committing;
mod compacting;
mod fold;
mod keeper;
pub mod laws;
mod lent;
mod mem_compacting;
mod mem_keeper;
mod opening;
mod outcome;
mod uptake;

pub use ancestor::{Ancestor, OpenError};
pub use compacting::{OPENED, run_of};
pub use keeper::{Archive, KeepError, Keeper};
pub use mem_keeper::{Kept, MemKeeper};
