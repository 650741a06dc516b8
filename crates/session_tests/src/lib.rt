//! Tests of `session_table` and `session_control` over what they make public, and nothing to call.
//!
//! They stand apart so that both crates are proved once. A row is an operation in words and the reply that is wanted; a block of rows
//! is done on one table, each row in one step, and again prepared and applied.
#![tactic(auto)]

#[cfg(test)]
mod creates;
#[cfg(test)]
mod operations;
#[cfg(test)]
mod replies;
#[cfg(test)]
mod rows;
#[cfg(test)]
mod runs;
#[cfg(test)]
mod standings;
#[cfg(test)]
mod steps;
#[cfg(test)]
mod tables;
#[cfg(test)]
mod words;
