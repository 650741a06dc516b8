//! Tests of `stage_core` over two roots in memory, and nothing to call.
//!
//! They stand apart so that the crate is proved once. A row has edits of the root that holds the files, the numbers of the operations
//! that are to fail, and what was asked and was missing, as words.
#![tactic(auto)]

#[cfg(test)]
mod driving;
#[cfg(test)]
mod stagings;
#[cfg(test)]
mod words;
