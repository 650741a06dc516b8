//! Tests of `reply_text`, `frame_text` and `ancestor_store` over what they make public, and nothing to call.
//!
//! They stand apart so that these crates are proved once. Replies, payloads and frames are lines of text, written out by hand.
#![tactic(auto)]

#[cfg(test)]
mod ancestors;
#[cfg(test)]
mod frames;
#[cfg(test)]
mod replies;
