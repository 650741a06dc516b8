//! What sessions have staged on a root.
ghost use Rattle.std.specs.Prelude.{◌≡◌, OnOk, OnErr, unwrap_or};
ghost use Rattle.std.specs.FinMap as map;
ghost use Rattle.std.specs.Option.{option_copied};
ghost use Rattle.roots_api.specs.States.{nothing_staged};
ghost use Rattle.mem_roots.specs.Staging.{staged_after};

use crate::staged::Staged;
use roots_api::Op;
use std::alloc::{AllocError, Global};
use std::collections::BTreeMap;
use std::marker::Model;

/// What each session has staged, by the session's identifier. Contracts see a finite map; a session without a row has
/// staged nothing. A call costs O(log n) at n sessions, beside its bytes.
#[derive(Drop)]
pub(crate) struct Staging {
    sessions: BTreeMap<u128, Staged>,
}

impl Model for Staging {
    ghost use Rattle.std.specs.FinMap as map;
    ghost use Rattle.std.specs.Coded.{coded_ℕ};
    ghost use Rattle.std.specs.Ordering.{nat_cmp};
    ghost use Rattle.roots_api.specs.States.{Staged as StagedFiles};
    ghost use Rattle.mem_roots.specs.Codes.{staged_code};

    ghost Value = { map.FinMap nat_cmp StagedFiles };

    ghost coded = { map.code coded_ℕ staged_code };

    ghost view = { λ s. map.from_entries s.sessions.entries };
}

impl Staging {
    /// No session has staged anything. It takes no memory.
    pub(crate) fn new(alloc: Global) -> Staging
        ensures { result ≡ map.empty }
    {
        Staging {
            sessions: BTreeMap::new(alloc),
        }
    }

    /// What the session has staged, where it has a row. It takes no memory.
    pub(crate) fn get(&self, id: u128) -> Option<&Staged>
        ensures { option_copied result ≡ map.get self.now id }
    {
        self.sessions.get(&id)
    }

    /// Drops all that the session has staged. It takes no memory.
    pub(crate) fn clear(&mut self, id: u128)
        ensures { self.new ≡ map.remove self.old id }
    {
        let _ = self.sessions.remove(&id);
    }

    /// Does the session's operation on what it has staged where it is done, and else drops its unfinished file. After an
    /// `Err` all is as it was.
    pub(crate) fn apply(
        &mut self,
        alloc: Global,
        id: u128,
        op: &Op,
        is_done: bool,
    ) -> Result<(), AllocError>
        ensures ok { OnOk result (self.new ≡ map.insert self.old id (staged_after op.now is_done (unwrap_or (map.get self.old id) nothing_staged))) }
        ensures err { OnErr result (self.new ≡ self.old) }
    {
        match self.sessions.get_mut(&id) {
            Some(staged) => staged.apply(alloc, op, is_done),
            None => self.begin(alloc, id, op, is_done),
        }
    }

    // The same for a session without a row.
    fn begin(&mut self, alloc: Global, id: u128, op: &Op, is_done: bool) -> Result<(), AllocError>
        ensures ok { OnOk result (self.new ≡ map.insert self.old id (staged_after op.now is_done nothing_staged)) }
        ensures err { OnErr result (self.new ≡ self.old) }
    {
        let mut staged = Staged::new(alloc);
        staged.apply(alloc, op, is_done)?;
        self.sessions.insert(id, staged)?;
        Ok(())
    }
}
