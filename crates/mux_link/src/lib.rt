//! A forwarding link as one value: two joined ends, and the bytes between them.
//!
//! A `MuxPair` holds the near end and the far end of a connection, each with the reader of what comes to
//! it. Its one call `step` makes one thing happen: a call of a user at one end, a move of bytes that wait
//! at one end to the other, or a cut. Contracts see the world of `mux_core`, and each step is a step of
//! that world, so its law holds of every list of steps (`laws`). In it no end refuses a frame of the
//! other and no reader its bytes, so a `LinkReply` has no word for that.
//!
//! ```rust
//! let mut pair = MuxPair::new(alloc);
//! let opened = pair.step(LinkOp::OpenStream); // LinkReply::Opened(1)
//! let bytes = LinkBytes::new(vec![in alloc; b'x'; 100_000]?);
//! let wrote = pair.step(LinkOp::Write(Side2::Near, 1, bytes)); // LinkReply::Wrote(65_536)
//! let moved = pair.step(LinkOp::Move(Side2::Near, 70_000)); // LinkReply::Moved(65_569)
//! let read = pair.step(LinkOp::Read(Side2::Far, 1, 16_384)); // LinkReply::Read of 16,384 bytes
//! ```
//!
//! The test `each_step_answers_as_it_should` of `stream_tests` makes these calls.
#![tactic(auto)]

mod calls;
mod carrying;
mod laws;
mod op;
mod pair;
mod post;
mod reply;
mod side;

pub use laws::joined_pair;
pub use op::{LinkBytes, LinkOp};
pub use pair::MuxPair;
pub use reply::LinkReply;
pub use side::Side2;
