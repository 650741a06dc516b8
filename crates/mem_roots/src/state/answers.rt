//! What a root answers on its state.
ghost use Rattle.std.specs.Prelude.{◌≡◌, IfOk, Some, is_some, cond};
ghost use Rattle.std.specs.Option.{option_copied};
ghost use Rattle.roots_api.specs.States.{staged_by, content_of, kept_by, next_stamp};
ghost use Rattle.roots_api.specs.Steps.{answer_of, keep_answer};

use crate::checks::{in_folder, listed, removed, where_expected};
use crate::pieces::piece_of;
use crate::state::State;
use entry_tree::{Digest, Entry, Stamp};
use roots_api::{Answer, Content, Leaf, Op, copy_found, has_stamp};
use std::alloc::{AllocError, Global};
use sync_path::Path;

impl State {
    /// What the session's operation answers. Nothing is changed.
    ///
    /// Cost: O(log n), and the rows that are listed, the bytes that are fetched, or those of the file that is to be kept.
    pub(crate) fn answer(&self, alloc: Global, id: u128, op: &Op) -> Result<Answer, AllocError>
        ensures { IfOk result (λ answer. answer ≡ answer_of self.now id op.now) }
    {
        match op {
            Op::List { path } => listed(alloc, &self.tree, path),
            Op::Fetch {
                path,
                stamp,
                offset,
            } => self.fetch(alloc, path, *stamp, *offset),
            Op::StageClear => Ok(Answer::Cleared),
            Op::StageOpen => Ok(Answer::Opened),
            Op::StageAppend { .. } => Ok(self.append(id)),
            Op::StageKeep { digest } => Ok(self.keep(id, digest)),
            Op::Place {
                path,
                digest,
                expected,
                ..
            } => {
                let answer = self.place_answer(id, digest);
                in_folder(alloc, &self.tree, path, leaf_entry(expected), answer)
            }
            Op::MakeDir { path } => in_folder(alloc, &self.tree, path, None, Answer::Done(None)),
            Op::MakeLink { path, expected, .. } => in_folder(
                alloc,
                &self.tree,
                path,
                leaf_entry(expected),
                Answer::Done(None),
            ),
            Op::Remove { path, expected } => {
                let expected = expected.entry();
                let answer = removed(&self.tree, path, expected);
                where_expected(alloc, &self.tree, path, Some(expected), answer)
            }
            Op::SetExec { path, expected, .. } => {
                let expected = expected.entry();
                where_expected(alloc, &self.tree, path, Some(&expected), Answer::Done(None))
            }
        }
    }

    fn fetch(
        &self,
        alloc: Global,
        path: &Path,
        stamp: Stamp,
        offset: u64,
    ) -> Result<Answer, AllocError>
        ensures { IfOk result (λ answer. answer ≡ answer_of self.now 0 (Op.Fetch path.now stamp offset)) }
    {
        let found = self.tree.get(path);
        if has_stamp(found, stamp) {
            return piece_of(alloc, self.content(stamp), offset);
        }
        let found = copy_found(alloc, found)?;
        Ok(Answer::Changed(found))
    }

    // The content that the stamp names.
    pub(crate) fn content(&self, stamp: Stamp) -> &[u8]
        ensures { result.now ≡ content_of self.now.ledger stamp }
    {
        match self.ledger.get(stamp) {
            Some(content) => content.as_slice(),
            None => &[],
        }
    }

    // The unfinished file of the session.
    fn begun(&self, id: u128) -> Option<&Content>
        ensures { option_copied result ≡ (staged_by self.now id).begun }
    {
        match self.staging.get(id) {
            Some(staged) => staged.begun(),
            None => None,
        }
    }

    fn append(&self, id: u128) -> Answer
        ensures { result ≡ cond (is_some (staged_by self.now id).begun) Answer.Opened Answer.NotStaged }
    {
        match self.begun(id) {
            Some(_) => Answer::Opened,
            None => Answer::NotStaged,
        }
    }

    fn keep(&self, id: u128, digest: &Digest) -> Answer
        ensures { result ≡ keep_answer digest.now (staged_by self.now id).begun }
    {
        match self.begun(id) {
            Some(file) => kept_under(digest, file),
            None => Answer::NotStaged,
        }
    }

    // The answer of a Place where nothing in the tree speaks against it.
    fn place_answer(&self, id: u128, digest: &Digest) -> Answer
        ensures { result ≡ cond (is_some (kept_by self.now id digest.now)) (Answer.Done (Some (next_stamp self.now))) Answer.NotStaged }
    {
        match self.kept(id, digest) {
            Some(_) => Answer::Done(Some(self.ledger.next())),
            None => Answer::NotStaged,
        }
    }
}

// The entry that is replaced, where there is one.
fn leaf_entry(leaf: &Option<Leaf>) -> Option<&Entry>
    ensures { option_copied result ≡ leaf.now }
{
    match leaf {
        Some(leaf) => Some(leaf.entry()),
        None => None,
    }
}

// The answer to a digest under which the file is to be kept. Cost: the bytes of the file.
fn kept_under(digest: &Digest, file: &Content) -> Answer
    ensures { result ≡ keep_answer digest.now (Some file.now) }
{
    let got = Digest::of(file.as_slice());
    if got == *digest {
        Answer::Kept
    } else {
        Answer::DigestDiffers {
            wanted: *digest,
            got,
        }
    }
}
