//! The problems of the operations that weren't done.
ghost use Rattle.std.specs.Prelude.{◌≡◌, IfOk, map};
ghost use Rattle.std.specs.List.{find};
ghost use Rattle.std.specs.Option.{option_copied};
ghost use Rattle.transition_plan.specs.Courses.{cause_of, followed, problem_of};
ghost use Rattle.transition_plan.specs.Resting.{rests_on};

use crate::resting::rests_on;
use crate::undone::Undone;
use entry_tree::Side;
use mode_rules::{Cause, Problem};
use sqlite_items::Items;
use std::alloc::{AllocError, Global};
use sync_path::Path;

// The path of the first of these on which it rests.
fn followed<'a>(undone: &'a [Undone], skipped: &'a Undone) -> &'a Path
    ensures { result.now ≡ followed undone.now skipped.now }
{
    'all: for first in undone {
        if rests_on(&skipped.op, &first.op) {
            return &first.path;
        }
    }
    &skipped.path
}

// Why it wasn't done.
fn cause_of(alloc: Global, undone: &[Undone], missed: &Undone) -> Result<Cause, AllocError>
    ensures { IfOk result (λ cause. cause ≡ cause_of undone.now missed.now) }
{
    match &missed.cause {
        Some(cause) => cause.copy(alloc),
        None => match followed(undone, missed).copy(alloc) {
            Ok(path) => Ok(Cause::Skipped(path)),
            Err(error) => Err(error),
        },
    }
}

// The problem of one of them.
fn problem_of(
    alloc: Global,
    side: Side,
    undone: &[Undone],
    missed: &Undone,
) -> Result<Problem, AllocError>
    ensures { IfOk result (λ problem. problem ≡ problem_of side undone.now missed.now) }
{
    let cause = cause_of(alloc, undone, missed)?;
    let path = missed.path.copy(alloc)?;
    Ok(Problem { side, path, cause })
}

/// The problems of all of them, in order.
pub(crate) fn problems_of(
    alloc: Global,
    side: Side,
    undone: &[Undone],
) -> Result<Items<Problem>, AllocError>
    ensures { IfOk result (λ problems. problems ≡ map (problem_of side undone.now) undone.now) }
{
    let mut problems = Items::new(alloc);
    'all: for missed in undone {
        problems.push(problem_of(alloc, side, undone, missed)?)?;
    }
    Ok(problems)
}
