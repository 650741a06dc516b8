//! A line of a cache.

use entry_tree::{Digest, Stamp};

/// What is known of the file at a path: the content that this stamp names has this digest.
#[derive(Clone, Copy, Debug)]
pub struct Line {
    /// The stamp that the file had when its content was hashed.
    pub stamp: Stamp,
    /// The digest of that content.
    pub digest: Digest,
}
