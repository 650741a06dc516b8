//! The operations of a change, in their fixed order, and what became of them.
//!
//! A change becomes a list of operations: all removals, the last path first, and then all creations, in path order; or one operation, where a file or a
//! link replaces one, or only an executable bit differs. Each is asked with the entry that was seen, and rests on earlier ones: it is skipped where one of
//! these wasn't done. `steps_of` of `specs/Stepping.antt` is that list, `rests_on` of `specs/Resting.antt` says what rests on what, and `taken` of
//! `specs/Courses.antt` says what an answer makes of the course of a change. All are about lists, and know no machine.
//!
//! [`Steps`] goes through them, one answer after the other.
//!
//! ```rust
//! // The folder `d` with the file `d/f` is to go, and `d/f` was edited meanwhile.
//! let mut steps = Steps::of(alloc, &change, &stamps)?;
//! // Asked is Remove of `d/f`; it answers Differs.
//! steps.take(Some(&Answer::Differs(None)));
//! // Nothing further is asked: the problems are `d/f` differs, and `d` skipped for `d/f`.
//! ```
//!
//! The test `each_change_has_its_course` of `transition_tests` makes these calls.
#![tactic(auto)]

mod blocking;
mod fate;
mod holding;
mod planning;
mod reports;
mod resting;
mod step;
mod steps;
mod undone;
mod unstaged;

pub use fate::Fate;
pub use resting::rests_on;
pub use step::Step;
pub use steps::Steps;
pub use undone::Undone;
