//! The rule of a cell, and what each of its steps tells.
use crate::kept::Kept;
use crate::object::Object;
use crate::view::View;
use atomic_table::{Join, Play, Split, TableRule};
use std::snapshot::Snapshot;

/// Tickets are served in their order, and the calls have one legal history.
pub struct TicketRule;

impl<O: Object> TableRule<Option<Kept<O, O::Op, O::Reply>>, View<O, O::Op, O::Reply>, Snapshot<O>>
    for TicketRule {
    ghost use Rattle.history_cell.specs.Tickets.{IsKept, newcomer};

    ghost holds = { λ key. IsKept O.acts key.value };

    ghost first = { λ key. newcomer key.value };
}

/// A look at the tickets.
pub(crate) struct LookAtTickets;

impl<O, A, B> Play<Option<Kept<O, A, B>>, View<O, A, B>> for LookAtTickets {
    ghost use Rattle.history_cell.specs.Steps.{LooksAtTickets};

    ghost then = { LooksAtTickets };
}

/// A draw of a ticket.
pub(crate) struct Draw;

impl<O, A, B> Play<Option<Kept<O, A, B>>, View<O, A, B>> for Draw {
    ghost use Rattle.history_cell.specs.Steps.{Draws};

    ghost then = { Draws };
}

/// A look at the ticket that is served.
pub(crate) struct LookAtServing;

impl<O, A, B> Play<Option<Kept<O, A, B>>, View<O, A, B>> for LookAtServing {
    ghost use Rattle.history_cell.specs.Steps.{LooksAtServing};

    ghost then = { LooksAtServing };
}

/// The end of a turn.
pub(crate) struct Serve;

impl<O: Object> Play<Option<Kept<O, O::Op, O::Reply>>, View<O, O::Op, O::Reply>> for Serve {
    ghost use Rattle.history_cell.specs.Steps.{Serves};

    ghost then = { Serves O.acts };
}

/// A look after a join.
pub(crate) struct Settle;

impl<O, A, B> Play<Option<Kept<O, A, B>>, View<O, A, B>> for Settle {
    ghost use Rattle.history_cell.specs.Steps.{Settles};

    ghost then = { Settles };
}

/// How a pass is split: both have seen the same, and the new one has made no call.
pub(crate) struct Alike;

impl<O, A, B> Split<View<O, A, B>> for Alike {
    ghost use Rattle.history_cell.specs.Tickets.{split_off};

    ghost left = { λ v. v };

    ghost right = { split_off };
}

/// How passes are joined: the first has seen the longer of both lists.
pub(crate) struct Longer;

impl<O, A, B> Join<View<O, A, B>> for Longer {
    ghost use Rattle.history_cell.specs.Tickets.{joined, gone};

    ghost both = { joined };

    ghost spent = { gone };
}
