//! The script of the standing workload: a tree of files in folders, edited on both sides, synchronised, paused in a cycle and
//! resumed.
//!
//! [`make`] writes it for a salt, which the files' contents begin with, and a number of files. `specs/Script.antt` has its text.
//!
//! ```rust
//! let salt = 7;
//! let files = 1;
//! let script = make(alloc, salt, files)?; // begins with the line `edit A dir d0000`
//! ```
//!
//! The test `short_scripts` of `edge_tests` makes this call.
#![tactic(auto)]

mod pieces;
mod script;
mod whole;

pub use whole::{MAX_FILES, make};
