//! The state of a root.
ghost use Rattle.std.specs.Prelude.{◌≡◌, ◌⊎◌, true, [], length, IfOk, OnOk, OnErr, None, Bool, IsTrue, unwrap_or};
ghost use Rattle.std.specs.FinMap as map;
ghost use Rattle.std.specs.Option.{option_copied};
ghost use Rattle.entry_tree.specs.Entry.{is_dir};
ghost use Rattle.entry_tree.specs.Tree.{set_at, without_under};
ghost use Rattle.roots_api.specs.Answers.{is_done};
ghost use Rattle.roots_api.specs.Expected.{holds_file};
ghost use Rattle.roots_api.specs.States.{RootState, new_root, kept_by, missing_parent, with_exec, with_file, with_tree};
ghost use Rattle.roots_api.specs.Steps.{after, answer_of, done};
ghost use Rattle.mem_roots.specs.MemRoot.{placed_by};
ghost use Rattle.mem_roots.specs.Stamps.{IsStampOf};

use crate::ledger::Ledger;
use crate::setting::{replace, set_allowed};
use crate::staging::Staging;
use entry_tree::{Digest, Entry, Stamp, TreeOf};
use roots_api::{Answer, Content, Op};
use std::alloc::{AllocError, Global};
use std::marker::Model;
use sync_path::Path;

mod answers;
mod edits;
mod views;

/// The state of a root: its tree, its content ledger, and what sessions have staged. Contracts see a `RootState`.
#[derive(Drop)]
pub(crate) struct State {
    tree: TreeOf<Entry>,
    ledger: Ledger,
    staging: Staging,
}

impl Model for State {
    ghost use Rattle.roots_api.specs.States.{RootState};
    ghost use Rattle.mem_roots.specs.Codes.{state_code};

    ghost Value = { RootState };

    ghost coded = { state_code };

    ghost view = { λ s. record { tree = s.tree; ledger = s.ledger; staging = s.staging } };
}

impl State {
    /// A folder without names.
    pub(crate) fn new(alloc: Global) -> Result<State, AllocError>
        ensures { IfOk result (λ state. state ≡ new_root) }
    {
        let mut tree = TreeOf::new(alloc);
        set_allowed(&mut tree, alloc, &Path::root(alloc), Entry::Dir)?;
        Ok(State {
            tree,
            ledger: Ledger::new(alloc),
            staging: Staging::new(alloc),
        })
    }

    /// Makes of the state what the operation with this answer makes of it. After an `Err` it is as it was.
    ///
    /// Cost: O(log n), and the bytes appended or placed.
    pub(crate) fn apply(
        &mut self,
        alloc: Global,
        id: u128,
        op: &Op,
        answer: &Answer,
    ) -> Result<(), AllocError>
        requires { (answer.now ≡ Answer.Failed) ⊎ (answer.now ≡ answer_of self.old id op.now) }
        ensures ok { OnOk result (self.new ≡ after self.old id op.now answer.now) }
        ensures err { OnErr result (self.new ≡ self.old) }
    {
        if answer.is_done() {
            return self.act(alloc, id, op);
        }
        if answer.is_dropped() {
            return self.staging.apply(alloc, id, op, false);
        }
        Ok(())
    }

    // Does the operation, which is done on this state.
    fn act(&mut self, alloc: Global, id: u128, op: &Op) -> Result<(), AllocError>
        requires { is_done (answer_of self.old id op.now) ≡ true }
        ensures ok { OnOk result (self.new ≡ done self.old id op.now) }
        ensures err { OnErr result (self.new ≡ self.old) }
    {
        match op {
            Op::List { .. } => Ok(()),
            Op::Fetch { .. } => Ok(()),
            Op::StageClear => {
                self.staging.clear(id);
                Ok(())
            }
            Op::StageOpen => self.staging.apply(alloc, id, op, true),
            Op::StageAppend { .. } => self.staging.apply(alloc, id, op, true),
            Op::StageKeep { .. } => self.staging.apply(alloc, id, op, true),
            Op::Place {
                path,
                digest,
                exec,
                ..
            } => self.place(alloc, id, path, digest, *exec),
            Op::MakeDir { path } => self.set(alloc, path, Entry::Dir),
            Op::MakeLink { path, text, .. } => match text.copy(alloc) {
                Ok(text) => self.set(alloc, path, Entry::Link(text)),
                Err(error) => Err(error),
            },
            Op::Remove { path, .. } => {
                self.take_away(path);
                Ok(())
            }
            Op::SetExec { path, expected, on } => {
                let _ = expected.entry();
                self.set_exec(alloc, path, *on);
                Ok(())
            }
        }
    }

    // Makes a file of the bytes that the session keeps under the digest.
    fn place(
        &mut self,
        alloc: Global,
        id: u128,
        path: &Path,
        digest: &Digest,
        exec: bool,
    ) -> Result<(), AllocError>
        requires { missing_parent self.old.tree path.now ≡ None }
        ensures ok { OnOk result (self.new ≡ with_file self.old path.now (unwrap_or (kept_by self.old id digest.now) []) exec) }
        ensures err { OnErr result (self.new ≡ self.old) }
    {
        match self.kept(id, digest) {
            Some(bytes) => match bytes.copy(alloc) {
                Ok(bytes) => self.put(alloc, path, bytes, exec),
                Err(error) => Err(error),
            },
            None => self.put(alloc, path, Content::new(alloc), exec),
        }
    }

    /// How many bytes the operation adds to the ledger. It takes no memory.
    pub(crate) fn placed_len(&self, id: u128, op: &Op, answer: &Answer) -> usize
        ensures { result ≡ length (placed_by self.now id op.now answer.now) }
    {
        match op {
            Op::Place { digest, .. } => {
                if answer.is_done() {
                    self.kept_len(id, digest)
                } else {
                    0
                }
            }
            _ => 0,
        }
    }

    // How many bytes the session keeps under the digest.
    fn kept_len(&self, id: u128, digest: &Digest) -> usize
        ensures { result ≡ length (unwrap_or (kept_by self.now id digest.now) []) }
    {
        match self.kept(id, digest) {
            Some(bytes) => bytes.len(),
            None => 0,
        }
    }

    // The bytes that the session keeps under the digest.
    pub(crate) fn kept(&self, id: u128, digest: &Digest) -> Option<&Content>
        ensures { option_copied result ≡ kept_by self.now id digest.now }
    {
        match self.staging.get(id) {
            Some(staged) => staged.kept(digest),
            None => None,
        }
    }

    // Puts a file of a new content at the path.
    fn put(
        &mut self,
        alloc: Global,
        path: &Path,
        bytes: Content,
        exec: bool,
    ) -> Result<(), AllocError>
        requires { missing_parent self.old.tree path.now ≡ None }
        ensures ok { OnOk result (self.new ≡ with_file self.old path.now bytes exec) }
        ensures err { OnErr result (self.new ≡ self.old) }
    {
        let stamp = self.ledger.next();
        self.ledger.push(bytes)?;
        match set_allowed(&mut self.tree, alloc, path, Entry::File(stamp, exec)) {
            Ok(()) => Ok(()),
            Err(error) => {
                self.ledger.pop();
                Err(error)
            }
        }
    }

    // Takes away all at and below the path. It takes no memory.
    fn take_away(&mut self, path: &Path)
        ensures { self.new ≡ with_tree self.old (without_under self.old.tree path.now) }
    {
        self.tree.remove_under(path);
    }

    // Sets an entry that has no content.
    fn set(&mut self, alloc: Global, path: &Path, entry: Entry) -> Result<(), AllocError>
        requires { missing_parent self.old.tree path.now ≡ None }
        ensures ok { OnOk result (self.new ≡ with_tree self.old (set_at is_dir self.old.tree path.now entry)) }
        ensures err { OnErr result (self.new ≡ self.old) }
    {
        set_allowed(&mut self.tree, alloc, path, entry)
    }

    // Sets or clears the executable bit of the file at the path. It takes no memory.
    fn set_exec(&mut self, alloc: Global, path: &Path, on: bool)
        requires { holds_file (map.get self.old.tree path.now) ≡ true }
        ensures { self.new ≡ with_exec self.old path.now on }
    {
        let stamp = self.stamp_at(path);
        replace(&mut self.tree, alloc, path, Entry::File(stamp, on));
    }

    // The stamp of the file at the path.
    fn stamp_at(&self, path: &Path) -> Stamp
        requires { holds_file (map.get self.now.tree path.now) ≡ true }
        ensures { IsStampOf (map.get self.now.tree path.now) result }
    {
        match self.tree.get(path) {
            Some(Entry::File(stamp, _)) => *stamp,
            _ => unreachable!(),
        }
    }
}
