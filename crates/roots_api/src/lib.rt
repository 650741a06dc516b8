//! What a root is asked, what it answers, and what its log says.
//!
//! A root is a file tree that sessions change by one checked operation at a time, an [`Op`], while editors change it in
//! between, by an [`Edit`]. Each that was done or answered is an [`Event`] of the root's log. A root's state is the fold of
//! its log: `answer_of` and `after` of `specs/Steps.antt` say what an operation answers on a state and what it makes of it,
//! `specs/Edits.antt` says it of edits, and `specs/Logs.antt` says which logs are legal.
//!
//! [`Root`] is one root, [`Roots`] are several with names, and a [`RootLink`] reaches the two roots of one session.
//!
//! ```rust
//! let mut stamps = Stamps::new(alloc);
//! stamps.set(Path::read(alloc, "a/b")?, Stamp(5))?;
//! let path = Path::read(alloc, "a/b")?;
//! assert_eq!(rt; stamps.get(&path), Some(Stamp(5)));
//! ```
//!
//! The test `stamps_by_path` of `roots_tests` makes these calls. The documentation of `mem_roots` shows a root that is edited.
#![tactic(auto)]

mod answer;
mod content;
mod edit;
mod edit_error;
mod event;
mod file_entry;
mod found;
pub mod laws;
mod leaf;
mod limits;
mod op;
mod root;
mod root_id;
mod root_link;
mod roots;
mod rows;
mod stamps;
mod tracked;
mod who;

pub use answer::{Answer, Room};
pub use content::Content;
pub use edit::Edit;
pub use edit_error::EditError;
pub use event::{Deed, Event, Span};
pub use file_entry::FileEntry;
pub use found::{copy_found, has_stamp, is_expected};
pub use leaf::Leaf;
pub use limits::{MAX_BYTES_HELD, MAX_FETCH, MAX_LOG_SIZE, MAX_PIECE};
pub use op::Op;
pub use root::Root;
pub use root_id::RootId;
pub use root_link::RootLink;
pub use roots::Roots;
pub use rows::Rows;
pub use stamps::Stamps;
pub use tracked::Tracked;
pub use who::Who;
