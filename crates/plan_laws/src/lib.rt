//! What a plan leaves once all that it says is done, for whoever reasons over cycles.
//!
//! Each law is the contract of a function that does nothing. The words are those of `mode_rules`; `specs/` states the laws.
#![tactic(auto)]

pub mod laws;
