//! Tests of the shared cell, over a counter.
ghost use Rattle.std.specs.Prelude.{◌≡◌, ◌+◌, ◌%◌, ◌^◌};
ghost use Rattle.history_cell.specs.Passes.{BelongsTo};

use crate::{HistoryCell, Object, Pass};
use std::sync::Wait;
use std::test::*;
use std::thread::{Threads, join};

/// A count that goes up by what it is asked, and answers what it was.
#[derive(Drop)]
struct Counter {
    count: u64,
}

impl Object for Counter {
    type Op = u64;

    type Reply = u64;

    ghost acts = { λ before op reply after. (reply ≡ before.count) × (after.count ≡ (before.count + op) % 2 ^ 64) };

    fn act(&mut self, op: u64) -> u64 {
        let before = self.count;
        self.count = before.wrapping_add(op);
        before
    }
}

#[test]
fn a_new_cell_gives_its_object_back(rt: HostRuntime) -> Result<(), Fail> {
    let (cell, pass) = HistoryCell::new(rt.alloc(), Counter { count: 7 })?;
    assert!(rt; matches!(cell.close(pass), Ok(Counter { count: 7 })), "new");

    let (cell, mut pass) = HistoryCell::new(rt.alloc(), Counter { count: 8 })?;
    let _other = cell.split(&mut pass);
    assert!(rt;
        matches!(cell.close(pass), Ok(Counter { count: 8 })),
        "split"
    );

    let (cell, mut pass) = HistoryCell::new(rt.alloc(), Counter { count: 9 })?;
    let other = cell.split(&mut pass);
    cell.join(&mut pass, other);
    assert!(rt;
        matches!(cell.close(pass), Ok(Counter { count: 9 })),
        "joined"
    );
    Ok(())
}

// Adds 1, a thousand times.
fn add_thousand<R: Wait>(
    rt: &R,
    cell: &HistoryCell<Counter>,
    mut pass: Pass<Counter>,
) -> Pass<Counter>
    requires { BelongsTo cell.now pass }
    ensures { BelongsTo cell.now result }
{
    for _ in 0..1000 {
        let _ = cell.call(rt, &mut pass, 1);
    }
    pass
}

// Two threads add a thousand each, with passes of their own.
fn add_by_two<R: Threads + Wait + Sync>(
    rt: &R,
    cell: &HistoryCell<Counter>,
    one: Pass<Counter>,
    two: Pass<Counter>,
) -> (Pass<Counter>, Pass<Counter>)
    requires { BelongsTo cell.now one × BelongsTo cell.now two }
    ensures { BelongsTo cell.now result.0 × BelongsTo cell.now result.1 }
{
    join(
        rt,
        || -> Pass<Counter>
            requires { BelongsTo cell.now one }
            ensures { BelongsTo cell.entry.now result }
        { add_thousand(rt, cell, one) },
        || -> Pass<Counter>
            requires { BelongsTo cell.now two }
            ensures { BelongsTo cell.entry.now result }
        { add_thousand(rt, cell, two) },
    )
}

#[test]
fn two_threads_count_to_two_thousand(rt: HostRuntime) -> Result<(), Fail> {
    let (cell, mut pass) = HistoryCell::new(rt.alloc(), Counter { count: 0 })?;
    let one = cell.split(&mut pass);
    let two = cell.split(&mut pass);
    let (one, two) = add_by_two(&rt, &cell, one, two);
    cell.join(&mut pass, one);
    cell.join(&mut pass, two);
    assert!(rt;
        matches!(cell.close(pass), Ok(Counter { count: 2000 })),
        "joined"
    );
    Ok(())
}
