//! Which answer a root in memory gives.
ghost use Rattle.std.specs.Prelude.{◌≡◌, IfOk};
ghost use Rattle.roots_api.specs.Answers.{IsAnswerTo};
ghost use Rattle.roots_api.specs.Logs.{state_of};
ghost use Rattle.roots_api.specs.Steps.{answer_of};
ghost use Rattle.mem_roots.specs.MemRoot.{decided, has_no_room, id_of, is_to_fail, mem_answer, places_too_much, room_of};

use crate::mem_root::MemRoot;
use crate::sizes::passes;
use roots_api::{Answer, MAX_BYTES_HELD, Op, Room, Who};
use std::alloc::{AllocError, Global};

impl MemRoot {
    /// What the root answers to the session's operation. Nothing is changed.
    pub(crate) fn decide(&self, alloc: Global, who: &Who, op: &Op) -> Result<Answer, AllocError>
        ensures answer { IfOk result (λ answer. answer ≡ mem_answer self.now who.now op.now) }
        ensures row { IfOk result (IsAnswerTo op.now) }
    {
        let id = id_of(who);
        let row = self.row(alloc, id, op)?;
        Ok(self.decided(id, op, row))
    }

    // The row's answer on the root's state.
    fn row(&self, alloc: Global, id: u128, op: &Op) -> Result<Answer, AllocError>
        ensures value { IfOk result (λ answer. answer ≡ answer_of (state_of self.now.log) id op.now) }
        ensures row { IfOk result (IsAnswerTo op.now) }
    {
        let _ = &self.log;
        self.state.answer(alloc, id, op)
    }

    // What is answered where the row answers so.
    fn decided(&self, id: u128, op: &Op, row: Answer) -> Answer
        ensures { result ≡ decided self.now id op.now row }
    {
        if self.has_no_room(op, &row) {
            return Answer::Full(self.room());
        }
        if self.is_to_fail() {
            return Answer::Failed;
        }
        if self.places_too_much(id, op, &row) {
            return Answer::Full(self.room());
        }
        row
    }

    // How full the log is.
    pub(crate) fn room(&self) -> Room
        ensures { result ≡ room_of self.now.log }
    {
        self.sizes.room()
    }

    // Whether the event of an operation with this answer, or the bytes that it stages, would pass a limit.
    fn has_no_room(&self, op: &Op, answer: &Answer) -> bool
        ensures { result ≡ has_no_room self.now.log op.now answer.now }
    {
        self.sizes.has_no_room(op, answer)
    }

    // Whether the next operation is to fail.
    fn is_to_fail(&self) -> bool
        ensures { result ≡ is_to_fail self.now }
    {
        self.fails.has(self.sizes.asked)
    }

    // Whether the bytes that the operation with this answer adds to the ledger would pass the limit.
    fn places_too_much(&self, id: u128, op: &Op, answer: &Answer) -> bool
        ensures { result ≡ places_too_much self.now.log id op.now answer.now }
    {
        let placed = self.state.placed_len(id, op, answer);
        passes(self.sizes.bytes, placed as u128, MAX_BYTES_HELD)
    }
}

/// The identifier of the session.
pub(crate) fn id_of(who: &Who) -> u128
    ensures { result ≡ id_of who.now }
{
    match who {
        Who::Editor => 0,
        Who::Session { id, .. } => *id,
    }
}
