//! The shared cell.
ghost use Rattle.std.specs.Prelude.{◌≡◌, ◌<◌, ◌≤◌, [], length, IfOk, OnOk, IfErr, OnErr};
ghost use Rattle.history_cell.specs.declared.cell.TheConstants.{MOST_TICKETS};
ghost use Rattle.history_cell.specs.declared.view.Stage.TheVariants.{Resting, Waiting};
ghost use Rattle.finite_maps.specs.Lists.{BeginsWith};
ghost use Rattle.history_cell.specs.History.{IsLegal, longer};
ghost use Rattle.history_cell.specs.Steps.{knowing_drawn, staged, Turns, IsServing, Goes};

use crate::answer::{Spent, TurnOut};
use crate::kept::{Kept, Said};
use crate::object::Object;
use crate::pass::{CellSeat, Pass};
use crate::rule::{Alike, Draw, Longer, LookAtServing, LookAtTickets, Serve, Settle, TicketRule};
use crate::view::View;
use atomic_table::{Refused, Table};
use std::alloc::{AllocError, Global};
use std::snapshot::Snapshot;
use std::sync::Wait;
use std::thread::yield_now;

/// No ticket is drawn once so many are.
pub const MOST_TICKETS: u64 = 1 << 62;

// The words.
const TICKETS: usize = 0;

const SERVING: usize = 1;

// So often a pass looks for its turn before it yields the processor between two looks.
const LOOKS: u32 = 200;

/// An object that threads share by reference. All its calls have one legal history.
#[derive(Drop)]
pub struct HistoryCell<O: Object> {
    table: Table<
        Option<Kept<O, O::Op, O::Reply>>,
        View<O, O::Op, O::Reply>,
        Snapshot<O>,
        TicketRule,
        Global,
    >,
    ghost sized: { (table.shared.table_id.words ≡ 2) × (table.shared.table_id.slots ≡ 1) },
}

impl<O: Object> HistoryCell<O> {
    ghost use Rattle.history_cell.specs.Passes.{opening, seen, own, drawn, BelongsTo, Called, EndsAt, HasLost};

    /// A cell that holds the object, and its first pass, which has seen no call. Where memory runs out the object
    /// is dropped.
    pub fn new(alloc: Global, object: O) -> Result<(HistoryCell<O>, Pass<O>), AllocError>
        ensures pass { IfOk result (λ r. BelongsTo r.0 r.1) }
        ensures opening { IfOk result (λ r. opening r.0 ≡ object) }
        ensures nothing { IfOk result (λ r. (seen r.1 ≡ []) × (own r.1 ≡ [])) }
    {
        let opening = Snapshot::of(&object);
        let mut slots = Vec::with_capacity(alloc, 1)?;
        slots.push_reserved(Some(Kept { object, last: None }));
        match Table::new(alloc, &[0, 0], slots, &opening) {
            Ok((table, seat)) => Ok((HistoryCell { table }, Pass { seat })),
            Err(Refused { slots: _ }) => Err(AllocError),
        }
    }

    /// Makes one call of the object, for which it may wait until the calls before it are done.
    ///
    /// The reply is the object's at that point of the one legal history, which begins with all that the pass had
    /// seen, ends with this call, and has of the pass's own calls those that it made, each once, in its order. It
    /// takes no memory of its own.
    ///
    /// `Spent` comes exactly where the ticket word looked at was `MOST_TICKETS` or more, and then nothing is done.
    pub fn call<R: Wait>(&self, rt: &R, pass: &mut Pass<O>, op: O::Op) -> Result<O::Reply, Spent>
        requires pass { BelongsTo self.now pass.old }
        ensures pass { BelongsTo self.now pass.new }
        ensures called { IfOk result (λ reply. Called O.acts (opening self.now) (seen pass.old) (own pass.old) op reply (seen pass.new) (own pass.new)) }
        ensures legal { OnOk result (IsLegal O.acts (opening self.now) (seen pass.new)) }

        // The call's place in the history is its ticket.
        ensures ticket { OnOk result (length (seen pass.new) ≤ MOST_TICKETS) }
        ensures spent { IfErr result (λ e. (MOST_TICKETS ≤ e.word) × (drawn pass.new ≡ e.word)) }
        ensures kept { OnErr result ((seen pass.new ≡ seen pass.old) × (own pass.new ≡ own pass.old)) }
    {
        let ticket = self.draw(rt, &mut pass.seat)?;
        self.wait_for(rt, &mut pass.seat, ticket);
        Ok(self.serve(&mut pass.seat, op))
    }

    // Draws a ticket from the number looked at. Where another draw came between, it looks again.
    fn draw<R: Wait>(&self, rt: &R, seat: &mut CellSeat<O>) -> Result<u64, Spent>
        requires seat { (seat.old.table_id ≡ self.now.table.shared.table_id) × (seat.old.me.1 ≡ []) × (seat.old.me.0.stage ≡ Resting) }
        ensures seat { (seat.new.table_id ≡ seat.old.table_id) × (seat.new.id ≡ seat.old.id) }
        ensures drawn { IfOk result (λ ticket. seat.new.me ≡ (staged (knowing_drawn seat.old.me.0 ticket) (Waiting ticket), [])) }
        ensures spent { IfErr result (λ e. (MOST_TICKETS ≤ e.word) × (seat.new.me ≡ (knowing_drawn seat.old.me.0 e.word, []))) }
    {
        let shared = &self.table.shared;
        for _ in rt.forever() {
            let looked = shared.load::<LookAtTickets>(seat, TICKETS);
            if looked >= MOST_TICKETS {
                return Err(Spent { word: looked });
            }
            if shared.compare_exchange::<Draw>(seat, TICKETS, looked, looked + 1) == looked {
                return Ok(looked);
            }
            yield_now();
        }
        unreachable!()
    }

    // Waits until the ticket is served, and takes the slot.
    fn wait_for<R: Wait>(&self, rt: &R, seat: &mut CellSeat<O>, ticket: u64)
        requires seat { (seat.old.table_id ≡ self.now.table.shared.table_id) × (seat.old.me.1 ≡ []) × (seat.old.me.0.stage ≡ Waiting ticket) }
        ensures seat { (seat.new.table_id ≡ seat.old.table_id) × (seat.new.id ≡ seat.old.id) }
        ensures turn { Turns seat.old.me ticket seat.new.me }
    {
        let shared = &self.table.shared;
        let mut looks = 0;
        for _ in rt.forever() {
            if shared.load::<LookAtServing>(seat, SERVING) == ticket {
                return;
            }
            if looks < LOOKS {
                looks += 1;
            } else {
                yield_now();
            }
        }
    }

    // Takes the object, makes the call, gives the object back and ends the turn.
    fn serve(&self, seat: &mut CellSeat<O>, op: O::Op) -> O::Reply
        requires seat { (seat.old.table_id ≡ self.now.table.shared.table_id) × IsServing seat.old.me }
        ensures seat { (seat.new.table_id ≡ seat.old.table_id) × (seat.new.id ≡ seat.old.id) × (seat.new.me.1 ≡ []) }
        ensures goes { Goes O.acts seat.old.me.0 op result seat.new.me.0 }
    {
        let shared = &self.table.shared;
        let Kept {
            mut object,
            last: _,
        } = shared.exchange(seat, 0, None).unwrap();
        let asked = Snapshot::of(&op);
        let reply = object.act(op);
        let said = Said {
            op: asked,
            reply: Snapshot::of(&reply),
        };
        let kept = Kept {
            object,
            last: Some(said),
        };
        drop(shared.exchange(seat, 0, Some(kept)));
        shared.fetch_add::<Serve>(seat, SERVING, 1);
        reply
    }

    /// A pass for another caller, which has seen what this one has, and has made no call. It doesn't wait, and
    /// takes no memory.
    pub fn split(&self, pass: &mut Pass<O>) -> Pass<O>
        requires pass { BelongsTo self.now pass.old }
        ensures new { BelongsTo self.now result × (seen result ≡ seen pass.old) × (own result ≡ []) }
        ensures same { BelongsTo self.now pass.new × (seen pass.new ≡ seen pass.old) × (own pass.new ≡ own pass.old) }
    {
        Pass {
            seat: self.table.shared.split_seat::<Alike>(&mut pass.seat),
        }
    }

    /// Takes in another pass, and has then seen the longer of what both had seen, which begins with the other. It
    /// doesn't wait, and takes no memory.
    pub fn join(&self, pass: &mut Pass<O>, other: Pass<O>)
        requires pass { BelongsTo self.now pass.old × BelongsTo self.now other }
        ensures pass { BelongsTo self.now pass.new }
        ensures seen { seen pass.new ≡ longer (seen pass.old) (seen other) }
        ensures both { BeginsWith (seen pass.new) (seen pass.old) × BeginsWith (seen pass.new) (seen other) }
        ensures own { own pass.new ≡ own pass.old }
    {
        let Pass { seat } = other;
        let shared = &self.table.shared;
        shared.join_seat::<Longer>(&mut pass.seat, seat);
        shared.load::<Settle>(&mut pass.seat, TICKETS);
    }

    /// Ends the cell, and gives the object back. Passes that weren't joined don't hinder it.
    ///
    /// The object is the one after a legal history that begins with all that the pass had seen, and has of the pass
    /// just the calls that it made. `TurnOut` comes exactly where the words differ, which only a pass that was
    /// lost within a call can leave; the object is then dropped, since the lost turn would never end.
    pub fn close(self, pass: Pass<O>) -> Result<O, TurnOut>
        requires pass { BelongsTo self pass }
        ensures ok { IfOk result (EndsAt O.acts (opening self) (seen pass) (own pass)) }
        ensures turn_out { IfErr result (λ e. (length (seen pass) ≤ e.serving) × (e.serving < e.tickets) × (drawn pass ≤ e.tickets) × (e.tickets ≤ MOST_TICKETS)) }
        ensures lost { IfErr result (λ e. HasLost O.acts (opening self) e.tickets e.serving) }
    {
        let Pass { seat } = pass;
        let HistoryCell { table } = self;
        let mut closed = table.close_with(seat);
        let tickets = closed.word(TICKETS);
        let serving = closed.word(SERVING);
        let slot = closed.take(0);
        closed.free();
        if tickets != serving {
            return Err(TurnOut { tickets, serving });
        }
        let Kept { object, last: _ } = slot.unwrap();
        Ok(object)
    }
}
