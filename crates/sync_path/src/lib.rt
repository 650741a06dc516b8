//! The names of the entries of a folder, and the paths that they make.
//!
//! A [`Name`] is one component of a path: 1 to 255 bytes of UTF-8, without `/`, without a byte below 0x20, and neither `.` nor `..`.
//! Contracts see a name as its bytes, and `is_name` of `specs/Name.antt` tests which bytes make one.
//! Names are ordered by their bytes, so that a `BTreeMap<Name, V>` has its entries in that order.
//!
//! A [`Path`] is a list of at most 64 names whose text has at most 4,096 bytes, and the root has none. Contracts see
//! a path as the list of its names (`specs/Path.antt`). A `BTreeMap<Path, V>` has its entries in path order, in which
//! what lies at and below a path stands together.
//!
//! ```rust
//! let path = Path::read(alloc, "a/b")?;
//! let child = path.child(alloc, &Name::read(alloc, "c")?)?;
//! assert_eq!(rt; child.write(alloc)?.as_str(), "a/b/c");
//! ```
//!
//! The test `a_child_and_its_parent` of `word_tests` makes these calls.
#![tactic(auto)]

pub mod laws;
mod limits;
mod name;
mod names;
mod path;
mod path_error;
mod reading;

pub use limits::{MAX_DEPTH, MAX_NAME_LEN, MAX_PATH_LEN};
pub use name::Name;
pub use names::Names;
pub use path::Path;
pub use path_error::{BadPath, PathError};
