//! What was learnt of the files of a side: the digest of the content that a stamp names, by path.
//!
//! A [`Cache`] has at most one line a path. A line has the stamp that the file had when its content was hashed, and the digest
//! of that content. So a file whose stamp is still that of its line needn't be read again. `line_at` and `digest_for` of
//! `specs/Cache.antt` say what a cache finds.
//!
//! ```text
//! cache.learn(alloc, &path, Stamp(7), digest)?;
//! let known = cache.lookup(&path, Stamp(7));
//! ```
//!
//! The test `learns_and_finds` of `scan_tests` makes these calls.
#![tactic(auto)]

mod cache;
mod line;

pub use cache::Cache;
pub use line::Line;
