//! A forwarding session as one object: a link that can be paused and resumed.
//!
//! A `Forward` holds a `MuxPair`. Pausing cuts the link; resuming a paused or cut session makes a new one,
//! whose streams are numbered behind all that the session gave. Its one call `step` is a step of a
//! sequential object, the relation `Acts` in `specs/`. The law of the link holds of every list of steps
//! (`laws`), for the streams of the link that is there.
//!
//! ```rust
//! let paused = true;
//! let mut session = Forward::new(alloc, paused);
//! let refused = session.step(ForwardOp::Link(LinkOp::OpenStream)); // LinkReply::Paused
//! let resumed = session.step(ForwardOp::Resume); // LinkReply::Done
//! let opened = session.step(ForwardOp::Link(LinkOp::OpenStream)); // LinkReply::Opened(1)
//! ```
//!
//! The test `a_session_is_paused_and_resumed` of `stream_tests` makes these calls.
#![tactic(auto)]

mod forward;
mod laws;
mod op;

pub use forward::Forward;
pub use laws::session_link;
pub use op::ForwardOp;
