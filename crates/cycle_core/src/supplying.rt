//! Which staging asks next.
ghost use Rattle.std.specs.Prelude.{◌≡◌, None};
ghost use Rattle.cycle_core.specs.Supplies.{IsSupplied};
ghost use Rattle.cycle_core.specs.UnderWay.{next_of};

use crate::supply::Supply;
use crate::work::Work;
use entry_tree::Side;
use std::alloc::Global;

/// What comes of looking for the next request of both stagings: there is one, none is left, or there is no memory for it.
#[derive(Drop)]
pub enum Supplied {
    Asks(Supply),
    Rests(Work),
    NoMemory(Work),
}

/// The staging of this work that asks next, alpha's first. Cost: that of a copy of the operation.
pub(crate) fn next_supply(alloc: Global, work: Work) -> Supplied
    ensures { IsSupplied work result }
{
    match work.alpha.next_op(alloc) {
        Err(_) => Supplied::NoMemory(work),
        Ok(Some((side, asked))) => Supplied::Asks(Supply {
            needs: Side::Alpha,
            side,
            asked,
            work,
        }),
        Ok(None) => beta_supply(alloc, work),
    }
}

// The same, if alpha's is at its end.
fn beta_supply(alloc: Global, work: Work) -> Supplied
    requires { next_of work.alpha ≡ None }
    ensures { IsSupplied work result }
{
    match work.beta.next_op(alloc) {
        Err(_) => Supplied::NoMemory(work),
        Ok(Some((side, asked))) => Supplied::Asks(Supply {
            needs: Side::Beta,
            side,
            asked,
            work,
        }),
        Ok(None) => Supplied::Rests(work),
    }
}
