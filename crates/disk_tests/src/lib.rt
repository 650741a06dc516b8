//! Tests of `disk_model` and `frame_journal` over what they make public, and nothing to call.
//!
//! They stand apart so that both crates are proved once.
#![tactic(auto)]

#[cfg(test)]
mod disks;
#[cfg(test)]
mod journals;
#[cfg(test)]
mod pairs;
