//! Tests of `transition_plan` over what it makes public, and nothing to call.
//!
//! They stand apart so that the crate is proved once. A row is a change, the answers and what came of them, as words;
//! or a change that is driven against a root in memory, with edits in between, and what the root holds then.
#![tactic(auto)]

#[cfg(test)]
mod courses;
#[cfg(test)]
mod driven;
#[cfg(test)]
mod driving;
#[cfg(test)]
mod edits;
#[cfg(test)]
mod held;
#[cfg(test)]
mod trees;
#[cfg(test)]
mod words;
