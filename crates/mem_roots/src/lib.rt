//! Roots in memory.
//!
//! A [`MemRoot`] is one: contracts see its log, the numbers of the operations that are to fail, and how many times it
//! answered Full. Its tree, its content ledger, what sessions have staged and its sizes are kept beside the log, and are
//! the fold of it, so an operation costs O(log n) beside its bytes or rows. `mem_answer` and `mem_after` of
//! `specs/MemRoot.antt` say what it answers and what it makes of the root; `specs/Runs.antt` says it of whole runs.
//!
//! [`MemRoots`] are eight of them, with the names A to H.
//!
//! ```rust
//! let mut roots = MemRoots::eight(alloc)?;
//! let root = roots.find("H").ok_or("no root")?;
//! let path = Path::read(alloc, "f")?;
//! let bytes = Content::of(alloc, b"abc")?;
//! roots.edit(alloc, root, &Edit::Put { path, bytes })?;
//! let tree = roots.view(alloc, root)?; // a file stands at `f`
//! ```
//!
//! The test `eight_roots_are_apart` of `roots_tests` makes these calls.
#![tactic(auto)]

mod checks;
mod fail_list;
mod found;
mod kept;
pub mod laws;
mod ledger;
mod mem_root;
mod mem_roots;
mod pieces;
mod root_ask;
mod setting;
mod sizes;
mod staged;
mod staging;
mod state;

pub use mem_root::MemRoot;
pub use mem_roots::MemRoots;
pub use root_ask::{RootAsk, RootTold};
