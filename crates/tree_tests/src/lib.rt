//! Tests of `entry_tree` over what it makes public, and nothing to call: digests, spellings, texts, paths' words, and trees.
//!
//! They stand apart so that the crate is proved once.
#![tactic(auto)]

#[cfg(test)]
mod atoms;
#[cfg(test)]
mod trees;
