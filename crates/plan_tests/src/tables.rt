//! Cases with their plans.
use crate::plans::{mode_of, plan_text};
use crate::trees::tree_of;
use mode_rules::settle;
use reconcile::reconcile;
use std::alloc::Global;
use std::test::Fail;

/// Rows of: mode, ancestor, alpha, beta and the plan.
const ROWS: &str = "\
two-way-safe | _ | _ | _ | _
two-way-safe | / a=1 | / a= | / a=2 | both a ( a ; a )
two-way-resolved | / a=1 | / a= | / a=2 | beta a ( a=2 ; a= )
one-way-safe | / a=1 | / a=2 | / a=3 | both a ( a ; a )
one-way-replica | / a=1 | / a=2 | / a=3 | beta a ( a=3 ; a=2 )
two-way-safe | / a=1 b=1 | / a=2 b=1 | / a=1 b=2 | beta a ( a=1 ; a=2 ) alpha b ( b=1 ; b=2 )
two-way-safe | / a=1 | / a=2 | / a=2 | set a=2
two-way-safe | / a=1 | / a@x | / a=1 | beta a ( a=1 ; a@x )
two-way-safe | / a=1 | / | / a=1 | beta a ( a=1 ; _ )
two-way-safe | / a=1 | / a*1 | / a=1 | beta a ( a=1 ; a*1 )
two-way-safe | / a=1 | / a*1 | / a*1 | set a*1
two-way-safe | / a=1 | / a*1 | / a=2 | both a ( a ; a )
two-way-resolved | / a=1 | / a*1 | / a=2 | beta a ( a=2 ; a*1 )
two-way-safe | / a=1 | / | / | drop a
two-way-safe | / d/ d/f= d/g= | / | / d/ d/f= | beta d ( d/ d/f= ; _ )
two-way-safe | / d/ d/f= d/g= | / d/ d/f= | / | alpha d ( d/ d/f= ; _ )
two-way-safe | / d/ d/f=1 | / d=1 | / d/ d/f=1 | beta d ( d/ d/f=1 ; d=1 )
two-way-safe | / d/ d/f=1 | / | / d/ d/f=2 | alpha d ( _ ; d/ d/f=2 )
two-way-safe | / d/ d/f=1 | / | / d/ d/f! | alpha d ( _ ; d/ d/f! )
two-way-safe | / d/ d/f=1 e=1 | / d/ d/f=2 e=2 | / d/ d/f=3 e=1 | beta e ( e=1 ; e=2 ) both d/f ( d/f ; d/f )
two-way-safe | / | / x= | / x? | blocked x ( x ; )
one-way-safe | _ | / a=1 | / x=1 | beta a ( _ ; a=1 ) set /
one-way-replica | _ | / a=1 | / x=1 | beta a ( _ ; a=1 ) beta x ( x=1 ; _ ) set /
one-way-safe | / x=1 | / | / x=2 | drop x
one-way-safe | / a=1 b=1 | / a=1 b=1 | / | beta a ( _ ; a=1 ) beta b ( _ ; b=1 )
two-way-safe | / a=1 | _ | / a=1 | root-deleted beta . ( / a=1 ; _ )
two-way-safe | / a=1 | =x | / a=1 | root-type-changed beta . ( / a=1 ; =x )
two-way-safe | / a=1 b=1 | / | / a=1 b=1 | root-emptied beta a ( a=1 ; _ ) beta b ( b=1 ; _ )";

// What is wrong with the row, where it is: each of both plans is to be the row's.
fn wrong_in(alloc: Global, row: &str) -> Result<Option<String>, Fail> {
    let mut parts = row.split(" | ");
    let (Some(mode), Some(ancestor), Some(alpha), Some(beta)) = (
        parts.next(),
        parts.next(),
        parts.next(),
        parts.next(),
    ) else {
        return Ok(Some(format!(in alloc; "no row")?));
    };
    let Some(mode) = mode_of(mode) else {
        return Ok(Some(format!(in alloc; "no mode")?));
    };
    let ancestor = tree_of(alloc, ancestor)?;
    let alpha = tree_of(alloc, alpha)?;
    let beta = tree_of(alloc, beta)?;
    let settled = plan_text(alloc, &settle(alloc, mode, &ancestor, &alpha, &beta)?)?;
    let walked = plan_text(alloc, &reconcile(alloc, mode, &ancestor, &alpha, &beta)?)?;
    for plan in [settled, walked] {
        if !row.ends_with(plan.as_str()) {
            return Ok(Some(plan));
        }
    }
    Ok(None)
}

#[test]
fn each_case_has_its_plan(rt: HostRuntime) -> Result<(), Fail> {
    let alloc = rt.alloc();
    for row in ROWS.lines() {
        let wrong = wrong_in(alloc, row)?;
        assert!(rt; wrong.is_none(), "{row}: {wrong:?}");
    }
    Ok(())
}
