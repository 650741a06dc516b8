//! Leaving out the files that weren't staged.
ghost use Rattle.std.specs.Prelude.{◌≡◌, ◌≤◌, not, length};
ghost use Rattle.std.specs.List.{filter, list_any};
ghost use Rattle.transition_plan.specs.Courses.{is_missing, is_placed_at, is_unstaged, is_unstaged_at};
ghost use Rattle.transition_plan.specs.declared.step.Step.{Step};

use crate::step::Step;
use mode_rules::Problem;
use roots_api::Op;
use std::collections::VecDeque;
use sync_path::Path;

// Whether a staging problem stands at the path.
fn is_missing(missing: &[Problem], path: &Path) -> bool
    ensures { result ≡ is_missing missing.now path.now }
{
    missing.iter().any(|problem| problem.path == *path)
}

// Whether the operation places a file that wasn't staged.
fn is_unstaged(missing: &[Problem], op: &Op) -> bool
    ensures { result ≡ is_unstaged missing.now op.now }
{
    match op {
        Op::Place { path, .. } => is_missing(missing, path),
        _ => false,
    }
}

// Whether the operation places a file at the path.
fn is_placed_at(at: &Path, op: &Op) -> bool
    ensures { result ≡ is_placed_at at.now op.now }
{
    match op {
        Op::Place { path, .. } => path == at,
        _ => false,
    }
}

// Whether the step places, at the path, a file that wasn't staged.
fn is_unstaged_at(missing: &[Problem], at: &Path, step: &Step) -> bool
    ensures { result ≡ is_unstaged_at missing.now at.now step.now }
{
    is_placed_at(at, &step.op) && is_missing(missing, at)
}

/// Whether the file at the change's own path wasn't staged.
pub(crate) fn is_whole_unstaged(missing: &[Problem], at: &Path, rest: &VecDeque<Step>) -> bool
    ensures { result ≡ list_any (is_unstaged_at missing.now at.now) rest.now.items }
{
    rest.iter().any(|step| is_unstaged_at(missing, at, step))
}

/// Leaves out the Places of files that weren't staged. It takes no memory.
pub(crate) fn keep_staged(missing: &[Problem], rest: &mut VecDeque<Step>)
    ensures kept { rest.new.items ≡ filter (λ (step : Step). not (is_unstaged missing.now step.op)) rest.old.items }
    ensures fewer { length rest.new.items ≤ length rest.old.items }
{
    rest.retain(|step| !is_unstaged(missing, &step.op));
}
