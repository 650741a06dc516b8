//! Ignore patterns: texts such as `*.o`, `/build/` and `a/**/b`, and which paths they match.
//!
//! A pattern's text may begin with `!`, which negates it, and then with `/`, which anchors it, and may end
//! with `/`, so that only directories match. Between stand 1 to 64 parts with a `/` between each two. A part
//! `**` spans any names; any other part is a list of pieces, each for characters of one name.
//! [`Pattern::read`] takes exactly these texts, and names the first byte at which another text goes wrong.
//! [`Pattern::matches`] answers whether a path matches. It takes no memory, and no pattern is exponential.
//!
//! No call hands out a [`Part`], a [`Glob`] or a [`Piece`]. They are public since contracts say what a pattern means by them.
//!
//! ```rust
//! let pattern = Pattern::read(alloc, "a/**/b")?;
//! let path = Path::read(alloc, "a/x/y/b")?;
//! let is_dir = false;
//! assert!(rt; pattern.matches(&path, is_dir));
//! ```
//!
//! The test `which_paths_match` of `ignore_tests` makes these calls.
#![tactic(auto)]

mod fault;
pub mod laws;
mod limits;
mod part_match;
mod path_match;
mod pattern;
mod pattern_error;
mod piece;
mod read_part;
mod read_parts;
mod text;

pub use limits::{MAX_PARTS, MAX_PLACE};
pub use pattern::Pattern;
pub use pattern_error::{BadPattern, PatternError};
pub use piece::{Glob, Part, Piece};
