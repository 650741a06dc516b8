//! What an edit changes.

use command_words::RootName;
use sync_path::Path;

/// The path of a root that an edit changes.
#[derive(Debug, Drop)]
pub struct Target {
    pub root: RootName,
    pub path: Path,
}
