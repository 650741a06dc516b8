//! Tests of `outside_io`, `fault_count` and `workload` over what they make public, and nothing to call.
//!
//! They stand apart so that these crates are proved once.
#![tactic(auto)]

#[cfg(test)]
mod faults;
#[cfg(test)]
mod outside;
#[cfg(test)]
mod scripts;
