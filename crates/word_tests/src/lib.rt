//! Tests of `line_words`, `sync_path` and `command_words` over what they make public, and nothing to call.
//!
//! They stand apart so that these crates are proved once. They show what no clause says: that calls succeed where there is
//! memory, and that the definitions mean what they are to mean.
#![tactic(auto)]

#[cfg(test)]
mod lines;
#[cfg(test)]
mod names;
#[cfg(test)]
mod paths;
#[cfg(test)]
mod words;
