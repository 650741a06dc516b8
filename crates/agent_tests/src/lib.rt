//! Tests of `agent_proto` over what it makes public, and nothing to call.
//!
//! They stand apart so that `agent_proto` is proved once. Messages are rows of a text, written by hand from the table of kinds.
#![tactic(auto)]

#[cfg(test)]
mod bodies;
#[cfg(test)]
mod reading;
#[cfg(test)]
mod tables;
