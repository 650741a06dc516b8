//! Tests of `mode_rules` and `reconcile` over what they make public, and nothing to call.
//!
//! They stand apart so that both crates are proved once. They show what no clause says: that calls succeed where there is
//! memory, that the table means what it is to mean, and that the plain table and the one walk give the same plans. Trees
//! and plans are lines of text.
#![tactic(auto)]

#[cfg(test)]
mod agreeing;
#[cfg(test)]
mod copies;
#[cfg(test)]
mod plans;
#[cfg(test)]
mod tables;
#[cfg(test)]
mod trees;
