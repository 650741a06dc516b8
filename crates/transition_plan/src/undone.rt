//! Operations that weren't done.
ghost use Rattle.std.specs.Prelude.{◌≡◌};
ghost use Rattle.transition_plan.specs.Courses.{line_path, not_done};

use crate::step::Step;
use mode_rules::{AncestorLine, Cause};
use roots_api::Op;
use sync_path::Path;

/// An operation of a change that wasn't done.
#[derive(Debug, Drop)]
pub struct Undone {
    /// Its path.
    pub path: Path,
    /// The operation.
    pub op: Op,
    /// Why it wasn't done; none where it was skipped.
    pub cause: Option<Cause>,
}

// The path of a line.
fn line_path(line: AncestorLine) -> Path
    ensures { result ≡ line_path line }
{
    match line {
        AncestorLine::Set(path, _) => path,
        AncestorLine::Drop(path) => path,
    }
}

/// What is written down of a step that wasn't done. It takes no memory.
pub(crate) fn not_done(step: Step, cause: Option<Cause>) -> Undone
    ensures { result ≡ not_done cause step }
{
    let Step { op, line } = step;
    Undone {
        path: line_path(line),
        op,
        cause,
    }
}
