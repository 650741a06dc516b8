//! The wire format of stream frames: one spelling for each frame, read exactly, wherever the stream is cut.
//!
//! A forwarding session carries many streams over one connection. A frame is a kind, one byte, a
//! stream, four bytes high first, and for two kinds a number and bytes behind it (`wire` has the table).
//! `write_frame` gives a frame's one spelling. A `FrameReader` takes the bytes of a connection in
//! pieces of any size and answers the frames that each piece completes. Where no frame continues the
//! bytes so far, it answers the place of the first byte that is wrong.
//!
//! ```rust
//! let mut reader = FrameReader::new();
//! let frames = reader.feed(alloc, &[7, 0, 0, 0, 0])?; // a Heartbeat
//! let want = Some(FeedError::BadFrame { place: 5 });
//! assert!(rt; reader.feed(alloc, &[9]).err() == want);
//! ```
//!
//! The test `a_bad_byte_is_found_at_its_place_and_the_answer_stays` of `stream_tests` makes these calls, a byte at a time.
#![tactic(auto)]

mod batch;
mod data_bytes;
mod field;
mod frame;
mod held;
mod kind;
mod laws;
mod next;
mod reader;
mod rest;
mod scan;
mod stream_id;
mod window_amount;
mod wire;
mod write;

pub use data_bytes::DataBytes;
pub use frame::MuxFrame;
pub use laws::{any_cutting, one_reading, written_is_read};
pub use next::Next;
pub use reader::{FeedError, FrameReader};
pub use stream_id::StreamId;
pub use window_amount::WindowAmount;
pub use wire::{MAX_AMOUNT, MAX_FRAME, MAX_PAYLOAD};
pub use write::{append_data, write_frame};
