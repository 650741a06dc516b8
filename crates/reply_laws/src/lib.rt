//! Laws of the spelling of replies, for whoever reasons over what a client reads.
//!
//! Each law is the contract of a function that does nothing. The replies are those of `reply_text`; `specs/` states what the laws speak of.
//! [`is_reply`] gives what `laws::one_reply` asks of a reply.
#![tactic(auto)]

mod kept;
pub mod laws;

pub use kept::is_reply;
