//! Which operation of a change rests on which.
ghost use Rattle.std.specs.Prelude.{◌≡◌};
ghost use Rattle.transition_plan.specs.Resting.{creation_rests_on, removal_rests_on, rests_on};

use roots_api::Op;
use sync_path::Path;

/// Whether an operation of a change rests on an earlier one of it: a removal on those of all below it, a creation on all
/// removals and on the making of each folder above it. It takes no memory.
pub fn rests_on(op: &Op, earlier: &Op) -> bool
    ensures { result ≡ rests_on op.now earlier.now }
{
    match op {
        Op::Remove { path, .. } => removal_rests_on(path, earlier),
        Op::MakeDir { path } => creation_rests_on(path, earlier),
        Op::Place { path, .. } => creation_rests_on(path, earlier),
        Op::MakeLink { path, .. } => creation_rests_on(path, earlier),
        _ => false,
    }
}

// Whether a removal at the path rests on the operation.
fn removal_rests_on(path: &Path, earlier: &Op) -> bool
    ensures { result ≡ removal_rests_on path.now earlier.now }
{
    match earlier {
        Op::Remove { path: removed, .. } => removed.is_below(path),
        _ => false,
    }
}

// Whether a creation at the path rests on the operation.
fn creation_rests_on(path: &Path, earlier: &Op) -> bool
    ensures { result ≡ creation_rests_on path.now earlier.now }
{
    match earlier {
        Op::Remove { .. } => true,
        Op::MakeDir { path: folder } => path.is_below(folder),
        _ => false,
    }
}
