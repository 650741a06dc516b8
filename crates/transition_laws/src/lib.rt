//! What the operations of a change take away, how many there are, what a course of them comes to, and what a change and a staging leave that
//! nobody disturbs; and nothing to call.
//!
//! The laws are the contracts of functions that do nothing. `specs/` states them over lists of operations and answers, with no machine.
//!
//! ```text
//! transition_laws::laws::courses_follow();
//! ```
#![tactic(auto)]

pub mod laws;
