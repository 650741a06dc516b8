//! One look at a side of a session, an operation at a time, while others change it.
//!
//! A [`Scan`] says which operation it asks next, and takes its answer. It lists the root, and then goes on in path order: it lists
//! folders, and fetches those files of which the cache doesn't know the content. What the rules ignore isn't asked for. What it
//! saw is a tree of atoms, with a stamp for each file.
//!
//! Contracts see a scan as its limits and what it was told: each answer, with the rules and the cache that it was given. What that
//! comes to is a fold of it, `state_of` of `specs/Scan.antt`, whose steps stand there and in `specs/Board.antt`.
//!
//! ```text
//! let mut scan = Scan::new(alloc, 65_536, 16_777_216);
//! while let Some(op) = scan.next_op(alloc)? {
//!     let answer = root.call(alloc, &who, &op)?;
//!     scan.take(alloc, answer, &rules, &mut cache)?;
//! }
//! let seen = scan.seen();
//! ```
//!
//! The test `the_last_pattern_decides` of `scan_tests` makes these calls.
#![tactic(auto)]

mod board;
mod later;
mod reading;
mod scan;
mod scan_end;
mod told;
mod wanted;
mod work;

pub use scan::Scan;
pub use scan_end::ScanEnd;
