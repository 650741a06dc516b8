//! What a root in memory logs of its operations.
ghost use Rattle.std.specs.Prelude.{◌≡◌, ◌≤◌, ◌-◌, false, length, take, OnOk, OnErr};
ghost use Rattle.roots_api.specs.Answers.{is_full};
ghost use Rattle.roots_api.specs.Logs.{IsLegal};
ghost use Rattle.roots_api.specs.Told.{IsSession, call_event};
ghost use Rattle.mem_roots.specs.MemRoot.{mem_answer, with_event, with_full};

use crate::mem_root::MemRoot;
use crate::mem_root::deciding::id_of;
use fault_count::count_fault;
use roots_api::{Answer, Event, Op, Who};
use std::alloc::{AllocError, Global};

impl MemRoot {
    /// Counts one more answer that was Full.
    pub(crate) fn count_full(&mut self)
        ensures value { self.new ≡ with_full self.old }
        ensures never_falls { self.old.full_answers ≤ self.new.full_answers }
        ensures legal { IsLegal self.new.log }
    {
        count_fault(&mut self.full_answers);
    }

    /// Logs the operation with its answer, and does it. After an `Err` all is as it was.
    pub(crate) fn record(
        &mut self,
        alloc: Global,
        who: &Who,
        op: &Op,
        answer: &Answer,
    ) -> Result<(), AllocError>
        requires session { IsSession who.now }
        requires answer { answer.now ≡ mem_answer self.old who.now op.now }
        requires logged { is_full answer.now ≡ false }
        ensures ok { OnOk result (self.new ≡ with_event self.old (call_event who.now op.now answer.now)) }
        ensures err { OnErr result (self.new ≡ self.old) }
        ensures legal { IsLegal self.new.log }
    {
        let id = id_of(who);
        let placed = self.state.placed_len(id, op, answer);
        let sizes = self.sizes.with(op, answer, placed);
        op.can_be_asked();
        let event = Event::of_call(alloc, who, op, answer)?;
        self.log.push(event)?;
        match self.state.apply(alloc, id, op, answer) {
            Ok(()) => {
                self.sizes = sizes;
                Ok(())
            }
            Err(error) => {
                drop_last(&mut self.log);
                Err(error)
            }
        }
    }
}

/// Takes the last event off. It takes no memory.
pub(crate) fn drop_last(log: &mut Vec<Event>)
    ensures { log.new.items ≡ take (length log.old.items - 1) log.old.items }
{
    let _ = log.pop();
}
