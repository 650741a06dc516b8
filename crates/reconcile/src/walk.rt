//! The plan of three trees.
ghost use Rattle.std.specs.Prelude.{◌≡◌, IfOk};
ghost use Rattle.mode_rules.specs.Plans.{plan_of};
ghost use Rattle.mode_rules.specs.Sights.{trees_of};
ghost use Rattle.reconcile.specs.Rows.{rows_of};
ghost use Rattle.reconcile.specs.Runs.{decided_of};

use crate::decided::Decided;
use crate::row::PathRow;
use crate::rows::rows_of;
use crate::runs::run_len;
use entry_tree::Tree;
use mode_rules::{Mode, Plan, Sight, halt_of};
use std::alloc::{AllocError, Global};

/// What a cycle is to do, by the ancestor and by what was seen of both sides: the plan that `mode_rules::settle` gives.
///
/// It takes memory for what the plan lists, and for a row of references for each path of the three trees. It compares O(n) pairs of paths for n
/// entries in the three trees together, and O(log n) more for each change; beside that its cost is the length of what the plan lists.
pub fn reconcile(
    alloc: Global,
    mode: Mode,
    ancestor: &Tree,
    alpha: &Tree,
    beta: &Tree,
) -> Result<Plan, AllocError>
    ensures { IfOk result (λ plan. plan ≡ plan_of mode (record { ancestor = ancestor.now; alpha = alpha.now; beta = beta.now })) }
{
    let rows = rows_of(alloc, ancestor, alpha, beta)?;
    let sight = Sight {
        ancestor,
        alpha,
        beta,
    };
    plan_of(alloc, mode, &sight, rows.as_slice())
}

// The plan of what is seen.
fn plan_of(alloc: Global, mode: Mode, sight: &Sight, rows: &[PathRow]) -> Result<Plan, AllocError>
    requires { rows.now ≡ rows_of (trees_of sight.now) }
    ensures { IfOk result (λ plan. plan ≡ plan_of mode (trees_of sight.now)) }
{
    let Decided {
        changes,
        agreed,
        conflicts,
    } = walk(alloc, mode, sight, rows)?;
    let halt = halt_of(alloc, mode, sight, changes.as_slice());
    Ok(Plan {
        halt,
        changes,
        agreed,
        conflicts,
    })
}

// What is decided at each point, in path order. Where both sides hold a folder, the paths below are decided one by one; else they are decided with the path.
fn walk(alloc: Global, mode: Mode, sight: &Sight, rows: &[PathRow]) -> Result<Decided, AllocError>
    requires { rows.now ≡ rows_of (trees_of sight.now) }
    ensures { IfOk result (λ decided. decided ≡ decided_of mode (trees_of sight.now)) }
{
    let mut decided = Decided::new(alloc);
    let mut at = 0;
    'rows: loop {
        let (_, rest) = rows.split_at(at);
        let Some((row, below)) = rest.split_first() else {
            return Ok(decided);
        };
        let len = 1 + run_len(row, below);
        let (run, _) = rest.split_at(len);
        decided.add(alloc, mode, sight, run, row)?;
        at += len;
    }
}
