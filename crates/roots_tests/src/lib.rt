//! Tests of `mem_roots` and `roots_api` over what they make public, and nothing to call.
//!
//! They stand apart so that the roots are proved once: a crate with tests of its own is proved with them and without. They
//! show what no clause says: that calls are done where there is memory, and that the definitions mean what they are to
//! mean. Operations, edits and answers are lines of text.
#![tactic(auto)]

#[cfg(test)]
mod copies;
#[cfg(test)]
mod limits;
#[cfg(test)]
mod naming;
#[cfg(test)]
mod playing;
#[cfg(test)]
mod showing;
#[cfg(test)]
mod tables;
