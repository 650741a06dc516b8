//! The files that a side needs, staged there before they are placed: an operation at a time, while others change both sides.
//!
//! A [`Staging`] is made of the changes of a side. It says which operation is asked next of which side, and takes its answer. All that
//! the session has staged is dropped first, if any file is needed. Then the files follow in path order, but for those whose digest is
//! kept by then: a staged file is begun, each piece is fetched from the other side and added, and the staged file is kept. A file that
//! can't be fetched, or isn't kept, leaves a problem at its path. After Full, and after Failed to anything but a Fetch, nothing further
//! is asked.
//!
//! Contracts see a staging as what it was made of and what it was told. What that comes to is a fold of it, `state_of` of
//! `specs/Told.antt`, whose steps stand in `specs/Staging.antt`. `specs/Turns.antt` says of a list of operations and answers whether it
//! is one that a staging gives, and knows no machine.
//!
//! ```text
//! let mut staging = Staging::of(alloc, Side::Beta, plan.changes.as_slice(), &stamps)?;
//! while let Some((side, op)) = staging.next_op(alloc)? {
//!     let answer = link.call(alloc, side, cycle, &op)?;
//!     staging.take(answer)?;
//! }
//! let missing = staging.missing();
//! ```
//!
//! The test `each_staging_has_its_course` of `staging_tests` makes these calls over two roots in memory.
#![tactic(auto)]

mod digest_set;
mod doing;
mod heard;
pub mod laws;
mod need;
mod needs;
mod staging;
mod told;
mod work;

pub use doing::Doing;
pub use heard::Heard;
pub use need::Need;
pub use staging::Staging;
