//! Several roots in memory.
ghost use Rattle.std.specs.Prelude.{◌≡◌, ◌==◌, ◌<◌, ◌≤◌, ℕ, List, Some, IfOk, OnOk, OnErr, slice_set, replicate};
ghost use Rattle.std.specs.List.{list_any};
ghost use Rattle.roots_api.specs.Answers.{IsAnswerTo};
ghost use Rattle.roots_api.specs.Logs.{IsLegal, state_of};
ghost use Rattle.roots_api.specs.Told.{IsSession};
ghost use Rattle.roots_api.specs.Views.{view_of};
ghost use Rattle.mem_roots.specs.MemRoot.{Edits, Leads, new_mem};
ghost use Rattle.mem_roots.specs.Named.{AreLegalLogs, named_root, root_at};
ghost use Rattle.mem_roots.specs.declared.mem_roots.TheConstants.{ROOTS};

use crate::mem_root::MemRoot;
use entry_tree::Tree;
use roots_api::{Answer, Edit, EditError, Event, Op, RootId, Who};
use std::alloc::{AllocError, Global};
use std::marker::Model;

mod as_roots;

/// How many roots there are.
const ROOTS: usize = 8;

/// The roots A to H in memory, with the numbers 0 to 7. Contracts see the list of them.
#[derive(Drop)]
pub struct MemRoots {
    roots: Vec<MemRoot>,
}

impl Model for MemRoots {
    ghost use Rattle.std.specs.Prelude.{◌≡◌, List, length};
    ghost use Rattle.std.specs.Coded.{coded_list};
    ghost use Rattle.mem_roots.specs.MemRoot.{MemState};
    ghost use Rattle.mem_roots.specs.Codes.{mem_code};
    ghost use Rattle.mem_roots.specs.Named.{AreLegalLogs};
    ghost use Rattle.mem_roots.specs.declared.mem_roots.TheConstants.{ROOTS};

    ghost Value = { List MemState };

    ghost coded = { coded_list mem_code };

    ghost view = { λ r. r.roots.items };

    ghost invariant = { λ r. (length r.roots.items ≡ ROOTS) × AreLegalLogs r.roots.items };
}

impl MemRoots {
    /// The roots A to H, each a folder without names, with an empty log.
    pub fn eight(alloc: Global) -> Result<MemRoots, AllocError>
        ensures { IfOk result (λ roots. roots ≡ replicate ROOTS new_mem) }
    {
        let mut roots = Vec::new(alloc);
        for _made in 0..ROOTS {
            let root = MemRoot::new(alloc)?;
            roots.push(root)?;
        }
        Ok(MemRoots { roots })
    }

    /// The operations of the root with these numbers are to fail, counted from 0 over its log. After an `Err` nothing is
    /// changed. Cost: O(n log n) at n numbers.
    pub fn fail(&mut self, alloc: Global, root: RootId, calls: &[u64]) -> Result<(), AllocError>
        requires { (name : List ℕ) × (named_root name ≡ Some root) }
        ensures fails { OnOk result ((n : ℕ) → list_any (λ m. n == m) (root_at self.new root).fails ≡ list_any (λ m. n == m) calls.now) }
        ensures log { (root_at self.new root).log ≡ (root_at self.old root).log }
        ensures full_answers { (root_at self.new root).full_answers ≡ (root_at self.old root).full_answers }
        ensures others { self.new ≡ slice_set self.old root.0 (root_at self.new root) }
        ensures err { OnErr result (self.new ≡ self.old) }
    {
        let at = &mut self.roots[place_of(root)];
        at.fail(alloc, calls)
    }

    /// The events of the root's log, the oldest first. It takes no memory.
    pub fn log(&self, root: RootId) -> &[Event]
        requires { (name : List ℕ) × (named_root name ≡ Some root) }
        ensures value { result.now ≡ (root_at self.now root).log }
        ensures legal { IsLegal (root_at self.now root).log }
    {
        self.roots[place_of(root)].log()
    }

    /// Does the session's operation on the root, and answers: as `Roots::call`, with what it makes of the root.
    pub fn call(
        &mut self,
        alloc: Global,
        root: RootId,
        who: &Who,
        op: &Op,
    ) -> Result<Answer, AllocError>
        requires found { (name : List ℕ) × (named_root name ≡ Some root) }
        requires session { IsSession who.now }
        ensures step { Leads (root_at self.old root) who.now op.now result (root_at self.new root) }
        ensures row { IfOk result (IsAnswerTo op.now) }
        ensures legal { IsLegal (root_at self.new root).log }
        ensures counts { (root_at self.old root).full_answers ≤ (root_at self.new root).full_answers }
        ensures others { self.new ≡ slice_set self.old root.0 (root_at self.new root) }
    {
        let at = &mut self.roots[place_of(root)];
        at.call(alloc, who, op)
    }

    /// Makes an editor's change of the root: as `Roots::edit`, with what it makes of the root.
    pub fn edit(&mut self, alloc: Global, root: RootId, change: &Edit) -> Result<(), EditError>
        requires { (name : List ℕ) × (named_root name ≡ Some root) }
        ensures step { Edits (root_at self.old root) change.now result (root_at self.new root) }
        ensures legal { IsLegal (root_at self.new root).log }
        ensures others { self.new ≡ slice_set self.old root.0 (root_at self.new root) }
    {
        let at = &mut self.roots[place_of(root)];
        at.edit(alloc, change)
    }

    // Each log is legal. It does nothing.
    fn are_legal(&self)
        ensures { AreLegalLogs self.now }
    {
        let _ = &self.roots;
    }

    // What the root shows.
    fn view_at(&self, alloc: Global, root: RootId) -> Result<Tree, AllocError>
        requires { (name : List ℕ) × (named_root name ≡ Some root) }
        ensures { IfOk result (λ tree. tree ≡ view_of (state_of (root_at self.now root).log)) }
    {
        self.roots[place_of(root)].view(alloc)
    }
}

// Where the root with this number stands.
#[tactic(auto, using(crate::proofs::Naming::number_small))]
fn place_of(root: RootId) -> usize
    requires { (name : List ℕ) × (named_root name ≡ Some root) }
    ensures value { result ≡ root.0 }
    ensures bound { result < ROOTS }
{
    root.0 as usize
}
