//! One root in memory.
ghost use Rattle.std.specs.Prelude.{◌≡◌, ◌==◌, ◌≤◌, ℕ, IfOk, OnOk, OnErr};
ghost use Rattle.std.specs.List.{list_any};
ghost use Rattle.roots_api.specs.Answers.{IsAnswerTo};
ghost use Rattle.roots_api.specs.Logs.{IsLegal, state_of};
ghost use Rattle.roots_api.specs.Told.{IsSession};
ghost use Rattle.roots_api.specs.Views.{view_of};
ghost use Rattle.mem_roots.specs.MemRoot.{Edits, Leads, new_mem};

use crate::fail_list::FailList;
use crate::sizes::Sizes;
use crate::state::State;
use entry_tree::Tree;
use roots_api::{Answer, Edit, EditError, Event, Op, Who};
use std::alloc::{AllocError, Global};
use std::marker::Model;

mod as_object;
mod as_root;
mod deciding;
mod editing;
mod recording;

/// A root in memory. Contracts see its log, which operations are to fail, and how many times it answered Full; its tree,
/// its content ledger and what sessions have staged are the fold of the log.
#[derive(Drop)]
pub struct MemRoot {
    log: Vec<Event>,
    state: State,
    sizes: Sizes,
    fails: FailList,
    full_answers: u64,
    alloc: Global,
}

impl Model for MemRoot {
    ghost use Rattle.mem_roots.specs.MemRoot.{MemState};
    ghost use Rattle.mem_roots.specs.Codes.{mem_code};
    ghost use Rattle.mem_roots.specs.Sizes.{IsOfLog};

    ghost Value = { MemState };

    ghost coded = { mem_code };

    ghost view = { λ r. record { log = r.log.items; fails = r.fails; full_answers = r.full_answers } };

    ghost invariant = { λ r. IsOfLog r.log.items r.state r.sizes };
}

impl MemRoot {
    /// A folder without names, with an empty log.
    pub fn new(alloc: Global) -> Result<MemRoot, AllocError>
        ensures { IfOk result (λ root. root ≡ new_mem) }
    {
        let state = State::new(alloc)?;
        Ok(MemRoot {
            log: Vec::new(alloc),
            state,
            sizes: Sizes::new(),
            fails: FailList::new(alloc),
            full_answers: 0,
            alloc,
        })
    }

    /// The operations with these numbers are to fail, counted from 0 over the log. After an `Err` nothing is changed.
    /// Cost: O(n log n) at n numbers.
    pub fn fail(&mut self, alloc: Global, calls: &[u64]) -> Result<(), AllocError>
        ensures fails { OnOk result ((n : ℕ) → list_any (λ m. n == m) self.new.fails ≡ list_any (λ m. n == m) calls.now) }
        ensures log { self.new.log ≡ self.old.log }
        ensures full_answers { self.new.full_answers ≡ self.old.full_answers }
        ensures err { OnErr result (self.new ≡ self.old) }
    {
        let fails = FailList::of(alloc, calls)?;
        self.fails = fails;
        Ok(())
    }

    /// The events of the log, the oldest first. It takes no memory.
    pub fn log(&self) -> &[Event]
        ensures value { result.now ≡ self.now.log }
        ensures legal { IsLegal self.now.log }
    {
        self.log.as_slice()
    }

    /// Does the session's operation, and answers. Want of memory leaves all as it was.
    ///
    /// Cost: O(log n), and its bytes or rows.
    pub fn call(&mut self, alloc: Global, who: &Who, op: &Op) -> Result<Answer, AllocError>
        requires { IsSession who.now }
        ensures step { Leads self.old who.now op.now result self.new }
        ensures row { IfOk result (IsAnswerTo op.now) }
        ensures legal { IsLegal self.new.log }
        ensures counts { self.old.full_answers ≤ self.new.full_answers }
    {
        let _ = &self.log;
        let answer = self.decide(alloc, who, op)?;
        if answer.is_full() {
            self.count_full();
            return Ok(answer);
        }
        self.record(alloc, who, op, &answer)?;
        Ok(answer)
    }

    /// Makes an editor's change. It is refused where the log is full, where the parent, or else the path, isn't as it has
    /// to be, or where the bytes held and those of the change pass the limit; the first of these. After an `Err` nothing
    /// is changed.
    ///
    /// Cost: O(log n), the bytes put, and what is taken away; a refusal, the bytes of the file that is in the way.
    pub fn edit(&mut self, alloc: Global, change: &Edit) -> Result<(), EditError>
        ensures step { Edits self.old change.now result self.new }
        ensures legal { IsLegal self.new.log }
    {
        let _ = &self.log;
        match self.edit_error(alloc, change) {
            Ok(None) => match self.record_edit(alloc, change) {
                Ok(()) => Ok(()),
                Err(_) => Err(EditError::Memory),
            },
            Ok(Some(error)) => Err(error),
            Err(_) => Err(EditError::Memory),
        }
    }

    /// What the root shows: a file has the digest of its content, and what is never tracked is untracked.
    ///
    /// Cost: O(n log n) comparisons of paths, and the bytes of all files.
    pub fn view(&self, alloc: Global) -> Result<Tree, AllocError>
        ensures { IfOk result (λ tree. tree ≡ view_of (state_of self.now.log)) }
    {
        self.state.view(alloc)
    }
}
