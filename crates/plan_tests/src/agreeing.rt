//! The plain table and the one walk, over each pair of sides, each ancestor and each mode.
use crate::plans::plan_text;
use crate::trees::tree_of;
use entry_tree::Tree;
use mode_rules::{Mode, settle};
use reconcile::reconcile;
use std::alloc::Global;
use std::test::Fail;

const ANCESTORS: &str = "\
_
/
/ a=1 a-b=1
/ d/ d/f=1
/ d/ d-=1 d/e/ d/e/f=1";

const SIDES: &str = "\
_
=1
/
/ a=1 a-b=1
/ a=2 d?
/ d/ d/f=1
/ d/ d/f=2 d/g=1
/ d/ d-=1 d/f!
/ d/ d/e/ d/e/f=1 d/e/u?
/ d*1 d-=1";

// Whether the walk and the table give the same plan.
fn agree(
    alloc: Global,
    mode: Mode,
    ancestor: &Tree,
    alpha: &Tree,
    beta: &Tree,
) -> Result<bool, Fail> {
    let walked = reconcile(alloc, mode, ancestor, alpha, beta)?;
    let settled = settle(alloc, mode, ancestor, alpha, beta)?;
    let walked = plan_text(alloc, &walked)?;
    let settled = plan_text(alloc, &settled)?;
    Ok(walked == settled)
}

// The first side of beta at which they give two plans.
fn first_beta(
    alloc: Global,
    mode: Mode,
    ancestor: &Tree,
    alpha: &Tree,
) -> Result<Option<&'static str>, Fail> {
    for row in SIDES.lines() {
        let beta = tree_of(alloc, row)?;
        if !agree(alloc, mode, ancestor, alpha, &beta)? {
            return Ok(Some(row));
        }
    }
    Ok(None)
}

// The first sides at which they give two plans.
fn first_sides(
    alloc: Global,
    mode: Mode,
    ancestor: &Tree,
) -> Result<Option<(&'static str, &'static str)>, Fail> {
    for row in SIDES.lines() {
        let alpha = tree_of(alloc, row)?;
        if let Some(beta) = first_beta(alloc, mode, ancestor, &alpha)? {
            return Ok(Some((row, beta)));
        }
    }
    Ok(None)
}

#[test]
fn the_walk_gives_the_plan_of_the_table(rt: HostRuntime) -> Result<(), Fail> {
    let alloc = rt.alloc();
    let modes = [
        Mode::TwoWaySafe,
        Mode::TwoWayResolved,
        Mode::OneWaySafe,
        Mode::OneWayReplica,
    ];
    for row in ANCESTORS.lines() {
        let ancestor = tree_of(alloc, row)?;
        for mode in modes {
            let differing = first_sides(alloc, mode, &ancestor)?;
            assert!(rt; differing.is_none(), "{row}: {differing:?}");
        }
    }
    Ok(())
}
