//! The ends of a connection that carries many streams, with credit, order and ends.
//!
//! A `MuxEnd` is a pure machine: calls of its user and frames that come change it, and the bytes that
//! it has to send wait in it until `outgoing` takes them. Only the near end opens streams. Each
//! direction of a stream carries at most 65,536 bytes that were not read yet: a write accepts what the
//! credit allows, and each read gives credit back by a Window frame. Contracts see an end as the
//! record `End`, and each call is one step of it, a function in `specs/`. What holds of two ends that
//! are joined, whatever happens to them, is in `laws`.
//!
//! ```rust
//! let near = true;
//! let mut end = MuxEnd::new(alloc, near);
//! let stream = end.open_stream()?; // 1
//! let open = end.outgoing(5)?; // the frame that opens the stream
//! let bytes = vec![in alloc; 120u8; 65_536]?;
//! let count = end.write(stream, &bytes)?; // 65,536: all of the credit
//! let data = end.outgoing(100_000)?; // four Data frames, 65,564 bytes
//! ```
//!
//! The test `no_more_is_written_or_opened_than_is_allowed` of `stream_tests` makes these calls.
#![tactic(auto)]

mod answer;
mod arriving;
mod byte_queue;
mod closing;
mod data_frames;
mod end;
mod error;
pub mod laws;
mod opening;
mod read_buffer;
mod reading;
mod stream;
mod stream_map;
mod writing;

pub use answer::ReadAnswer;
pub use end::MuxEnd;
pub use error::{MuxError, OpenError};
pub use opening::MAX_LIVE;
pub use stream::WINDOW;
