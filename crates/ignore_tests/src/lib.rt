//! Tests of `ignore_glob` and `ignore_rules` over what they make public, and nothing to call.
//!
//! They stand apart so that both crates are proved once.
#![tactic(auto)]

#[cfg(test)]
mod globs;
#[cfg(test)]
mod rules;
