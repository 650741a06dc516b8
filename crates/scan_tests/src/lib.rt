//! Tests of `scan_core` over roots in memory, and of `scan_cache`, and nothing to call.
//!
//! A script has an edit a line, with the number of the operation of the scan before which it is made. What was seen is text.
#![tactic(auto)]

#[cfg(test)]
mod caches;
#[cfg(test)]
mod driving;
#[cfg(test)]
mod scans;
