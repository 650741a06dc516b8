//! The changes of a plan, one operation after the other.
ghost use Rattle.std.specs.Prelude.{◌≡◌, ◌++◌, ◌+◌, ◌≤◌, ◌<◌, ◌^◌, length, is_some, IfOk, OnOk, Some};
ghost use Rattle.std.specs.List.{slice_get, slice_set};
ghost use Rattle.std.specs.Option.{option_copied, option_map};
ghost use Rattle.std.specs.Vec.{vec_capacity};
ghost use Rattle.mode_rules.specs.Laws.{is_of};
ghost use Rattle.transition_plan.specs.Courses.{Course, taken};
ghost use Rattle.cycle_core.specs.Rooms.{most_lines, most_of};
ghost use Rattle.cycle_core.specs.Changing.{IsOverTo, all_landed, all_problems, all_staged, answered, asked, courses_on, is_over, over, staged_on};

use entry_tree::Side;
use mode_rules::{AncestorLine, Change, Problem};
use roots_api::{Answer, Op, Stamps};
use sqlite_items::{Items, at};
use std::alloc::{AllocError, Global};
use std::marker::Model;
use transition_plan::Steps;

/// The changes of a plan, alpha's first, and what became of their operations. Contracts see the course of each.
#[derive(Drop)]
pub struct Changing {
    courses: Vec<Steps>,
    // How many at the front are over.
    at: usize,
}

impl Model for Changing {
    ghost use Rattle.std.specs.Prelude.{◌≡◌, List};
    ghost use Rattle.transition_plan.specs.Courses.{Course};
    ghost use Rattle.cycle_core.specs.Changing.{over};

    ghost Value = { List Course };

    ghost view = { λ c. c.courses.items };

    ghost invariant = { λ c. c.at ≡ over c.courses.items };
}

impl Changing {
    /// The courses of these changes, alpha's first, of which nothing is asked yet. The stamps are those that were seen on each side.
    ///
    /// It makes the room for all that is written down of them later. Cost: that of the courses.
    pub(crate) fn of(
        alloc: Global,
        changes: &[Change],
        alpha: &Stamps,
        beta: &Stamps,
    ) -> Result<Changing, AllocError>
        ensures { IfOk result (λ courses. courses ≡ courses_on Side.Alpha alpha.now changes.now ++ courses_on Side.Beta beta.now changes.now) }
    {
        let mut courses = Vec::new(alloc);
        add_courses(alloc, &mut courses, Side::Alpha, changes, alpha)?;
        add_courses(alloc, &mut courses, Side::Beta, changes, beta)?;
        let at = over_from(&courses, 0);
        Ok(Changing { courses, at })
    }

    /// How many lines there may be at most in the end, if that is less than 2^63. It takes no memory. Cost: the number of courses.
    pub(crate) fn most(&self) -> usize
        ensures { result < 2 ^ 63 → result ≡ most_of self.now }
    {
        let mut most: usize = 0;
        for steps in &self.courses {
            most = most.saturating_add(most_lines(steps));
        }
        most
    }

    /// Takes up which files of a side weren't staged. It takes no memory. Cost: the operations of the side's changes times the
    /// number of these files.
    pub(crate) fn unstaged(&mut self, side: Side, missing: &[Problem])
        ensures { self.new ≡ all_staged side missing.now self.old }
    {
        stage_all(&mut self.courses, side, missing);
        self.at = over_from(&self.courses, 0);
    }

    /// The operation that is asked next, and the side that is asked; none if all courses are over. It takes no memory. Cost: O(1).
    pub(crate) fn next(&self) -> Option<(Side, &Op)>
        ensures { option_map (λ p. (p.0, p.1.now)) result ≡ asked self.now }
    {
        match at(&self.courses, self.at) {
            Some(steps) => match steps.next() {
                Some(op) => Some((steps.side(), op)),
                None => None,
            },
            None => None,
        }
    }

    /// Whether an operation is asked next. It takes no memory. Cost: O(1).
    pub(crate) fn asks(&self) -> bool
        ensures { result ≡ is_some (asked self.now) }
    {
        self.next().is_some()
    }

    /// Takes up what that operation was answered; none stands for want of memory of it. It takes no memory.
    pub(crate) fn take(&mut self, answer: Option<&Answer>)
        ensures { self.new ≡ answered self.old (option_copied answer.entry) }
    {
        answer_first(&mut self.courses, self.at, answer);
        self.at = over_from(&self.courses, self.at);
    }

    /// Puts the lines of all operations that are done behind these, each moved. It takes no memory, if there is room for them.
    pub(crate) fn land(self, lines: &mut Vec<AncestorLine>)
        requires { length lines.old.items + length (all_landed self) ≤ vec_capacity lines.old }
        ensures { lines.new.items ≡ lines.old.items ++ all_landed self }
    {
        for steps in self.courses {
            land_all(steps.into_landed(), lines);
        }
    }

    /// Puts the problems of all operations that weren't done behind these. Cost: that of the courses' problems.
    pub(crate) fn report(
        &self,
        alloc: Global,
        problems: &mut Items<Problem>,
    ) -> Result<(), AllocError>
        ensures { OnOk result (problems.new ≡ problems.old ++ all_problems self.now) }
    {
        for steps in &self.courses {
            problems.append(steps.problems(alloc)?)?;
        }
        Ok(())
    }
}

// Puts these lines behind those.
fn land_all(more: Vec<AncestorLine>, lines: &mut Vec<AncestorLine>)
    requires { length lines.old.items + length more.items ≤ vec_capacity lines.old }
    ensures lines { lines.new.items ≡ lines.old.items ++ more.items }
    ensures room { vec_capacity lines.new ≡ vec_capacity lines.old }
{
    for line in more {
        lines.push_reserved(line);
    }
}

// Whether a change is made on the side.
fn is_of(side: Side, other: Side) -> bool
    ensures { result ≡ is_of side other }
{
    match (side, other) {
        (Side::Alpha, Side::Alpha) => true,
        (Side::Beta, Side::Beta) => true,
        _ => false,
    }
}

// Adds the courses of a side's changes.
fn add_courses(
    alloc: Global,
    courses: &mut Vec<Steps>,
    side: Side,
    changes: &[Change],
    stamps: &Stamps,
) -> Result<(), AllocError>
    ensures { OnOk result (courses.new.items ≡ courses.old.items ++ courses_on side stamps.now changes.now) }
{
    for change in changes {
        if is_of(side, change.side) {
            courses.push(Steps::of(alloc, change, stamps)?)?;
        }
    }
    Ok(())
}

// Tells each of the side's courses which files weren't staged.
fn stage_all(courses: &mut Vec<Steps>, side: Side, missing: &[Problem])
    ensures { courses.new.items ≡ all_staged side missing.now courses.old.items }
{
    for steps in courses.iter_mut() {
        stage_one(steps, side, missing);
    }
}

// Tells a course, if it is the side's.
fn stage_one(steps: &mut Steps, side: Side, missing: &[Problem])
    ensures { steps.new ≡ staged_on side missing.now steps.old }
{
    if is_of(side, steps.side()) {
        steps.unstaged(missing);
    }
}

// How many lines of a course there may be at most in the end, if that is less than 2^63.
fn most_lines(steps: &Steps) -> usize
    ensures { result < 2 ^ 63 → result ≡ most_lines steps.now }
{
    steps.landed().len().saturating_add(steps.left())
}

// Whether a course is over.
fn is_over(steps: &Steps) -> bool
    ensures { result ≡ is_over steps.now }
{
    steps.left() == 0
}

// How many courses at the front are over, if those up to here are.
fn over_from(courses: &Vec<Steps>, from: usize) -> usize
    requires { IsOverTo from courses.now.items }
    ensures { result ≡ over courses.now.items }
{
    for at in from..courses.len() {
        if !is_over(&courses[at]) {
            return at;
        }
    }
    courses.len()
}

// Answers what the course at this place asks, the first one that isn't over.
fn answer_first(courses: &mut Vec<Steps>, at: usize, answer: Option<&Answer>)
    requires { at ≡ over courses.old.items }
    ensures value { courses.new.items ≡ answered courses.old.items (option_copied answer.entry) }
    ensures over { IsOverTo at courses.new.items }
{
    if at >= courses.len() {
        return;
    }
    courses[at].take(answer);
}
