//! What a root's log holds.
ghost use Rattle.std.specs.Prelude.{◌≡◌, IfOk};
ghost use Rattle.roots_api.specs.Told.{call_event, edit_event};

use crate::answer::Answer;
use crate::edit::Edit;
use crate::op::Op;
use crate::who::Who;
use std::alloc::{AllocError, Global};

/// Where the bytes of a piece lie in their file.
#[derive(Clone, Copy, Debug, PartialEq, Eq)]
pub struct Span {
    /// The first byte.
    pub offset: u64,
    /// How many bytes they are.
    pub length: u64,
}

/// What was asked or changed.
#[derive(Debug, Drop)]
pub enum Deed {
    /// A session asked for it.
    Asked(Op),
    /// An editor changed it.
    Edited(Edit),
}

/// One event of a root's log. An edit has the answer `Done(None)`.
#[derive(Debug, Drop)]
pub struct Event {
    /// Who asked.
    pub who: Who,
    /// What was asked.
    pub deed: Deed,
    /// What was answered. Of a piece the log keeps where its bytes are.
    pub answer: Answer<Span>,
}

impl Event {
    /// The event of an operation with its answer. Cost: that of a copy of the operation, and of the rows listed.
    pub fn of_call(alloc: Global, who: &Who, op: &Op, answer: &Answer) -> Result<Event, AllocError>
        ensures { IfOk result (λ event. event ≡ call_event who.now op.now answer.now) }
    {
        let answer = answer.spanned(alloc, op.offset())?;
        let op = op.copy(alloc)?;
        Ok(Event {
            who: *who,
            deed: Deed::Asked(op),
            answer,
        })
    }

    /// The event of an edit that was done. Cost: that of a copy of the edit.
    pub fn of_edit(alloc: Global, edit: &Edit) -> Result<Event, AllocError>
        ensures { IfOk result (λ event. event ≡ edit_event edit.now) }
    {
        let edit = edit.copy(alloc)?;
        Ok(Event {
            who: Who::Editor,
            deed: Deed::Edited(edit),
            answer: Answer::Done(None),
        })
    }
}
