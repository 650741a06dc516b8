//! Tests of `mux_frames`, `mux_core`, `mux_link` and `forward_core` over what they make public, and nothing to call.
//!
//! They stand apart so that these crates are proved once. A run is a table of actions and the answers that are wanted.
#![tactic(auto)]

#[cfg(test)]
mod ends;
#[cfg(test)]
mod frames;
#[cfg(test)]
mod links;
#[cfg(test)]
mod sessions;
