//! What a session sees at a path, and how it is spelt.
//!
//! An [`Atom`] is a folder, a file by the [`Digest`] of its content, a link by its [`Text`], something that is not tracked, or a [`ProblemKind`].
//! [`text_of`] spells an atom as it stands in replies and kept frames, and [`read_atom`] reads just that: `specs/AtomText.antt` has the
//! words of each. A path's word is its text, and `.` for the root ([`write_path`], [`read_path`]).
//! A [`Tree`] is a map from paths to atoms in which each parent is a folder. Contracts see a digest and a text as their bytes.
//!
//! ```rust
//! let atom = read_atom(alloc, "link =a%20b")?;
//! assert_eq!(rt; text_of(alloc, &atom)?.as_str(), "link =a%20b");
//! ```
//!
//! The test `a_text_is_an_atom_or_bad_at_one_place` of `tree_tests` makes these calls.
#![tactic(auto)]

mod atom;
mod atom_error;
mod atom_kind;
mod child;
mod digest;
mod entry;
pub mod laws;
mod names;
mod node;
mod path_word;
mod piece_hasher;
mod problem_kind;
mod prune;
mod put;
mod reading;
mod side;
mod spelling;
mod subtree;
mod text;
mod tree;
mod tree_error;
mod walk;

pub use atom::Atom;
pub use atom_error::{AtomError, BadAtom};
pub use child::Child;
pub use digest::Digest;
pub use entry::{Entry, Stamp};
pub use node::Node;
pub use path_word::{read_path, write_path};
pub use piece_hasher::PieceHasher;
pub use problem_kind::ProblemKind;
pub use reading::{read_atom, read_atom_words};
pub use side::Side;
pub use spelling::{text_of, write_atom};
pub use subtree::{Subtree, SubtreeOf};
pub use text::{MAX_TEXT_LEN, Text, TextError};
pub use tree::{Tree, TreeOf};
pub use tree_error::TreeError;
pub use walk::Under;
