//! A root in memory is an object that threads share.
use crate::mem_root::MemRoot;
use crate::root_ask::{RootAsk, RootTold};
use history_cell::Object;
use roots_api::{EditError, Who};

impl Object for MemRoot {
    ghost use Rattle.mem_roots.specs.Sharing.{Acts};

    type Op = RootAsk;

    type Reply = RootTold;

    ghost acts = { Acts };

    fn act(&mut self, op: RootAsk) -> RootTold {
        let alloc = self.alloc;
        match op {
            RootAsk::Call {
                id,
                run,
                cycle,
                asked,
            } => {
                let who = Who::Session { id, run, cycle };
                asked.can_be_asked();
                match MemRoot::call(self, alloc, &who, &asked) {
                    Ok(answer) => RootTold::Answered(answer),
                    Err(_) => RootTold::NoMemory,
                }
            }
            RootAsk::Change(change) => {
                change.can_be_made();
                match MemRoot::edit(self, alloc, &change) {
                    Err(EditError::Memory) => RootTold::NoMemory,
                    told => RootTold::Changed(told),
                }
            }
        }
    }
}
