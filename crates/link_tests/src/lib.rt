//! Two roots in memory as the link of a session, and a test of it: what `RootLink` asks can be met.
#![tactic(auto)]

mod pair;

pub use pair::Pair;

#[cfg(test)]
mod linking;
