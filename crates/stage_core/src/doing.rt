//! What a staging does next.

use roots_api::Content;

/// What a staging does next. All but the first and the last are about the first of the files that are left.
#[derive(Debug, Drop)]
pub enum Doing {
    /// All that the session has staged is dropped.
    Clearing,
    /// A staged file is begun.
    Opening,
    /// A piece is fetched from this byte on.
    Fetching(u64),
    /// A piece that was fetched is added to the staged file.
    Appending {
        /// The piece.
        bytes: Content,
        /// The byte behind it.
        end: u64,
        /// Whether it is the file's last.
        last: bool,
    },
    /// The staged file is kept.
    Keeping,
    /// Nothing further is asked.
    Resting,
}
