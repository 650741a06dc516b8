//! Tests of `script_engine` over what it makes public, and nothing to call.
//!
//! They stand apart so that the engine is proved once: a crate with tests of its own is proved with
//! them and without. They show what no clause says: that calls succeed where there is memory, that
//! the definitions mean what they are to mean, and that a run ends as it should where a read or a
//! write fails. Scripts and replies are text: in a transcript the lines behind `> ` are the script,
//! and the others are what it writes.
#![tactic(auto)]

#[cfg(test)]
mod flushes;
#[cfg(test)]
mod inputs;
#[cfg(test)]
mod playing;
#[cfg(test)]
mod requests;
#[cfg(test)]
mod roots;
#[cfg(test)]
mod sessions;
