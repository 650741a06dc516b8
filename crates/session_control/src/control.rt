//! What a session is to do next.
ghost use Rattle.std.specs.Prelude.{◌≡◌};
ghost use Rattle.std.specs.Option.{option_copied};
ghost use Rattle.session_control.specs.Control.{at_rest, in_course as course_next, next_of};

use crate::standing::{Standing, Wish};

/// What a session is to do next.
#[derive(Clone, Copy, Debug, PartialEq, Eq)]
pub enum Next {
    /// Nothing, until its standing changes.
    Rest,
    /// It begins a cycle.
    Begin,
    /// It goes on with the cycle in course.
    Go,
    /// It stops the cycle in course.
    Stop,
    /// It is gone, and its task ends.
    Retire,
}

/// The decision that drives a session's cycles.
pub struct Control;

impl Control {
    /// What a session is to do next. `standing` is none where the session is gone; `served` is the number of the reset that its
    /// ancestor served last; `in_course` says whether a cycle is in course. It takes no memory. Cost: O(1).
    ///
    /// - A session that is gone stops a cycle in course, and then retires.
    /// - A cycle in course is stopped where the session is paused, or was reset since.
    /// - Else a cycle begins where the session is to run, isn't halted, and has one wanted that isn't finished.
    pub fn next(standing: Option<&Standing>, served: u64, in_course: bool) -> Next
        ensures { result ≡ next_of (option_copied standing.entry) served in_course }
    {
        match standing {
            None => { if in_course { Next::Stop } else { Next::Retire } }
            Some(standing) => {
                if in_course {
                    next_in_course(standing, served)
                } else {
                    next_at_rest(standing)
                }
            }
        }
    }
}

// What follows in a course.
fn next_in_course(standing: &Standing, served: u64) -> Next
    ensures { result ≡ course_next standing.now served }
{
    match standing.wish {
        Wish::Paused => Next::Stop,
        Wish::Run => {
            if served < standing.resets {
                Next::Stop
            } else {
                Next::Go
            }
        }
    }
}

// What follows outside a course.
fn next_at_rest(standing: &Standing) -> Next
    ensures { result ≡ at_rest standing.now }
{
    match standing.wish {
        Wish::Paused => Next::Rest,
        Wish::Run => {
            if standing.halted.is_none() && standing.finished < standing.wanted {
                Next::Begin
            } else {
                Next::Rest
            }
        }
    }
}
