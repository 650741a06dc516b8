//! What one caller has of a cell.
ghost use Rattle.std.specs.Prelude.{◌≡◌, []};
ghost use Rattle.history_cell.specs.declared.view.Stage.TheVariants.{Resting};

use crate::kept::Kept;
use crate::object::Object;
use crate::view::View;
use atomic_table::Seat;

/// A seat at the table of a cell.
pub(crate) type CellSeat<O> = Seat<
    Option<Kept<O, <O as Object>::Op, <O as Object>::Reply>>,
    View<O, <O as Object>::Op, <O as Object>::Reply>,
>;

/// What one caller knows of a cell: the calls that it has seen, and which of them are its own. It has no bytes.
#[derive(Drop)]
pub struct Pass<O: Object> {
    pub(crate) seat: Seat<Option<Kept<O, O::Op, O::Reply>>, View<O, O::Op, O::Reply>>,
    ghost empty_handed: { seat.me.1 ≡ [] },
    ghost resting: { seat.me.0.stage ≡ Resting },
    ghost settled: { seat.me.0.old ≡ [] },
}
