//! Tests of `request_text` over what it makes public, and nothing to call: which lines are read, how they are written again, and
//! where each form goes wrong.
//!
//! They stand apart so that the reader is proved once.
#![tactic(auto)]

#[cfg(test)]
mod forms;
#[cfg(test)]
mod lines;
#[cfg(test)]
mod places;
