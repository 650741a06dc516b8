//! What a scan still asks for.

use entry_tree::Stamp;
use sync_path::Path;

/// What is asked for at a path: the names of a folder, or the content of a file with this stamp and executable bit.
#[derive(Clone, Copy, Debug)]
pub enum Wanted {
    /// The names of a folder, with their entries.
    Names,
    /// The content that the stamp names. The bit is that of the file, which has no part in it.
    Content(Stamp, bool),
}

/// What is asked for next, and where.
#[derive(Debug, Drop)]
pub struct Next {
    /// The path.
    pub path: Path,
    /// What is asked for there.
    pub wanted: Wanted,
}
