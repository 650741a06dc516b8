//! The payloads of a session's kept frames: how they are spelt, read and folded.
//!
//! A session's ancestor is no stored tree. It is the fold of the payloads that a keeper acknowledged: lines that both sides came to
//! agree on, resets, and whole trees that stand for all before. A payload is text, by one grammar: `specs/Payloads.antt` has the bytes
//! of each value, and says which values there are. [`read_payload`] reads exactly these bytes, and [`text_of`] writes them. What one
//! payload makes of the ancestor stands in `specs/Folds.antt`. A [`Frame`] is what is to be kept next; by its types it holds only what can be spelt.
//!
//! ```rust
//! let payload = read_payload(alloc, b"v2 agree 1 2\nset . dir".as_slice())?;
//! assert_eq!(rt; text_of(alloc, &payload)?.as_str(), "v2 agree 1 2\nset . dir");
//! ```
//!
//! The test `bytes_are_a_payload_or_none` of `text_tests` makes these calls.
#![tactic(auto)]

mod cutting;
mod frame;
mod head;
pub mod laws;
mod numbers;
mod payload;
mod read;
mod reading;
mod version;
mod write;

pub use frame::{AgreedLines, Frame, KeepKey, ResetNumber};
pub use head::MAX_RUN;
pub use payload::{Payload, PayloadError};
pub use read::read_payload;
pub use version::Version;
pub use write::text_of;
