//! The laws of logs of roots: what every state, every step and every legal log keeps to, for whoever reasons over them.
//!
//! Each law is the contract of a function that does nothing. The words are those of `roots_api`; `specs/` states the laws.
#![tactic(auto)]

pub mod laws;
