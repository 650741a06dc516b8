//! The plain, slow table: each path on its own.
ghost use Rattle.std.specs.Prelude.{◌≡◌, IfOk};
ghost use Rattle.mode_rules.specs.Trees.{paths_of};
ghost use Rattle.mode_rules.specs.Plans.{plan_of};
ghost use Rattle.mode_rules.specs.Sights.{trees_of};

use crate::changes::changes_of;
use crate::conflicts::conflicts_of;
use crate::halts::halt_of;
use crate::lines::agreed_of;
use crate::mode::Mode;
use crate::paths::paths_of;
use crate::plan::Plan;
use crate::points::points_of;
use crate::sight::Sight;
use entry_tree::Tree;
use std::alloc::{AllocError, Global};
use sync_path::Path;

/// What a cycle is to do, by the ancestor and by what was seen of both sides: the table, path by path.
///
/// It takes memory for what the plan lists, and for the paths of the three trees. It looks at all paths for each
/// path, so its cost is that of the square of their number: `reconcile` gives the same plan in one walk.
pub fn settle(
    alloc: Global,
    mode: Mode,
    ancestor: &Tree,
    alpha: &Tree,
    beta: &Tree,
) -> Result<Plan, AllocError>
    ensures { IfOk result (λ plan. plan ≡ plan_of mode (record { ancestor = ancestor.now; alpha = alpha.now; beta = beta.now })) }
{
    let paths = paths_of(alloc, ancestor, alpha, beta)?;
    let sight = Sight {
        ancestor,
        alpha,
        beta,
    };
    plan_of(alloc, mode, &sight, paths.as_slice())
}

// The plan of what is seen.
fn plan_of(alloc: Global, mode: Mode, sight: &Sight, paths: &[Path]) -> Result<Plan, AllocError>
    requires { paths.now ≡ paths_of (trees_of sight.now) }
    ensures { IfOk result (λ plan. plan ≡ plan_of mode (trees_of sight.now)) }
{
    let points = points_of(alloc, sight.alpha, sight.beta, paths)?;
    let changes = changes_of(alloc, mode, sight, paths, points.as_slice())?;
    let agreed = agreed_of(alloc, mode, sight, paths, points.as_slice())?;
    let conflicts = conflicts_of(alloc, mode, sight, paths, points.as_slice())?;
    let halt = halt_of(alloc, mode, sight, changes.as_slice());
    Ok(Plan {
        halt,
        changes,
        agreed,
        conflicts,
    })
}
