//! Files that a side needs.

use entry_tree::{Digest, Stamp};
use sync_path::Path;

/// A file that is to be staged: the content is fetched from the other side, where it stands at the same path.
#[derive(Debug, Drop)]
pub struct Need {
    /// The path.
    pub path: Path,
    /// The stamp of the content on the other side.
    pub stamp: Stamp,
    /// The digest of the content.
    pub digest: Digest,
}
