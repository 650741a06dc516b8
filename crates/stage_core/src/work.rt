//! What a staging makes of what it is answered.
ghost use Rattle.std.specs.Prelude.{◌≡◌, ℕ, ◌+◌, ◌≤◌, List, [], ◌∷◌, length, IfOk, OnOk, OnErr, IsTrue};
ghost use Rattle.mode_rules.specs.declared.problem.Cause.TheVariants as cause;
ghost use Rattle.roots_api.specs.declared.limits.TheConstants.{MAX_FETCH};
ghost use Rattle.stage_core.specs.Staging.{asked_for, behind_piece, broke, ended, first_begun, first_done, got, is_copied, is_fetching, is_first_kept, kept_first, missed, new_stand, op_of, passed, pending, turned, went, with_doing, with_piece, without_first};
ghost use Rattle.stage_core.specs.Work.{IsHeard, IsPieceAt, IsWithin};

use crate::digest_set::DigestSet;
use crate::doing::Doing;
use crate::heard::Heard;
use crate::need::Need;
use entry_tree::Side;
use mode_rules::{Cause, Problem};
use roots_api::{Content, Op};
use std::alloc::{AllocError, Global};
use std::collections::VecDeque;
use std::marker::Model;

/// What a staging does next, the files that are left, the digests that were kept, and what became of the files that weren't
/// staged. Contracts see how the staging stands.
#[derive(Drop)]
pub(crate) struct Work {
    doing: Doing,
    left: VecDeque<Need>,
    kept: DigestSet,
    missing: Vec<Problem>,
}

impl Model for Work {
    ghost use Rattle.std.specs.Prelude.{◌+◌, ◌≤◌, length};
    ghost use Rattle.std.specs.Vec.{vec_capacity};
    ghost use Rattle.stage_core.specs.Codes.{stand_code};
    ghost use Rattle.stage_core.specs.Staging.{Stand};
    ghost use Rattle.stage_core.specs.Work.{IsWithin};

    ghost Value = { Stand };

    ghost coded = { stand_code };

    ghost view = { λ w. record { doing = w.doing; left = w.left.items; kept = w.kept; missing = w.missing.items } };

    ghost invariant = { λ w. IsWithin w.doing × (length w.left.items + length w.missing.items ≤ vec_capacity w.missing) };
}

// What is done first with these files.
fn first_done(needs: &Vec<Need>) -> Doing
    ensures first { result ≡ first_done needs.now.items }
    ensures within { IsWithin result }
{
    if needs.is_empty() {
        Doing::Resting
    } else {
        Doing::Clearing
    }
}

// What is done with the first of these files.
fn first_begun(left: &VecDeque<Need>) -> Doing
    ensures first { result ≡ first_begun left.now.items }
    ensures within { IsWithin result }
{
    match left.front() {
        Some(_) => Doing::Opening,
        None => Doing::Resting,
    }
}

// Whether the digest of the first of these files is kept.
fn is_first_kept(left: &VecDeque<Need>, kept: &DigestSet) -> bool
    ensures { result ≡ is_first_kept kept.now left.now.items }
{
    match left.front() {
        Some(need) => kept.contains(&need.digest),
        None => false,
    }
}

// Takes off the files at the front whose digest is kept.
fn skip_kept(left: &mut VecDeque<Need>, kept: &DigestSet)
    ensures left { left.new.items ≡ pending kept.now left.old.items }
    ensures fewer { length left.new.items ≤ length left.old.items }
{
    'turns: for _ in 0..left.len() {
        if !is_first_kept(left, kept) {
            return;
        }
        let _ = left.pop_front();
    }
}

// What is done behind a piece.
fn behind_piece(end: u64, last: bool) -> Doing
    requires { end ≤ MAX_FETCH }
    ensures value { result ≡ behind_piece end last }
    ensures within { IsWithin result }
{
    if last {
        Doing::Keeping
    } else {
        Doing::Fetching(end)
    }
}

// What is done with a piece that reaches up to this byte.
fn with_piece(bytes: Content, end: u64, last: bool) -> Doing
    requires { end ≤ MAX_FETCH }
    ensures value { result ≡ with_piece bytes end last }
    ensures within { IsWithin result }
{
    if bytes.is_empty() {
        behind_piece(end, last)
    } else {
        Doing::Appending { bytes, end, last }
    }
}

// The operation for the file in hand.
fn asked_for(alloc: Global, doing: &Doing, need: &Need) -> Result<Option<Op>, AllocError>
    ensures value { IfOk result (λ op. op ≡ asked_for doing.now need.now) }
    ensures memory { OnErr result (IsTrue (is_copied (asked_for doing.now need.now))) }
{
    match doing {
        Doing::Clearing => Ok(Some(Op::StageClear)),
        Doing::Opening => Ok(Some(Op::StageOpen)),
        Doing::Fetching(offset) => {
            let path = need.path.copy(alloc)?;
            Ok(Some(Op::Fetch {
                path,
                stamp: need.stamp,
                offset: *offset,
            }))
        }
        Doing::Appending { bytes, .. } => {
            let bytes = bytes.copy(alloc)?;
            Ok(Some(Op::StageAppend { bytes }))
        }
        Doing::Keeping => Ok(Some(Op::StageKeep {
            digest: need.digest,
        })),
        Doing::Resting => Ok(None),
    }
}

impl Work {
    /// The work on these files, of which nothing is done.
    pub(crate) fn new(alloc: Global, needs: Vec<Need>) -> Result<Work, AllocError>
        ensures { IfOk result (λ work. work ≡ new_stand needs.items) }
    {
        let missing = Vec::with_capacity(alloc, needs.len())?;
        let doing = first_done(&needs);
        Ok(Work {
            doing,
            left: VecDeque::from_vec(needs),
            kept: DigestSet::new(alloc),
            missing,
        })
    }

    /// The operation that is asked next. Cost: a copy of its path or of its piece.
    pub(crate) fn next_op(&self, alloc: Global) -> Result<Option<Op>, AllocError>
        ensures value { IfOk result (λ op. op ≡ op_of self.now) }
        ensures memory { OnErr result (IsTrue (is_copied (op_of self.now))) }
    {
        match self.left.front() {
            Some(need) => asked_for(alloc, &self.doing, need),
            None => Ok(None),
        }
    }

    /// Whether a piece is fetched next. It takes no memory.
    pub(crate) fn is_fetching(&self) -> bool
        ensures { result ≡ is_fetching self.now.doing }
    {
        match &self.doing {
            Doing::Fetching(_) => true,
            _ => false,
        }
    }

    /// What became of the files that weren't staged. It takes no memory.
    pub(crate) fn missing(&self) -> &[Problem]
        ensures { result.now ≡ self.now.missing }
    {
        self.missing.as_slice()
    }

    // This is done next with the same files.
    fn turn_to(&mut self, doing: Doing)
        requires { IsWithin doing }
        ensures { self.new ≡ with_doing self.old doing }
    {
        self.doing = doing;
    }

    // Nothing further is asked.
    fn end(&mut self)
        ensures { self.new ≡ ended self.old }
    {
        self.turn_to(Doing::Resting);
    }

    // Goes on to the first file whose digest isn't kept.
    fn pass(&mut self)
        ensures { self.new ≡ passed self.old.kept self.old.missing self.old.left }
    {
        skip_kept(&mut self.left, &self.kept);
        let doing = first_begun(&self.left);
        self.turn_to(doing);
    }

    // Goes on behind a piece.
    fn go_behind(&mut self, end: u64, last: bool)
        requires { end ≤ MAX_FETCH }
        ensures { self.new ≡ with_doing self.old (behind_piece end last) }
    {
        let doing = behind_piece(end, last);
        self.turn_to(doing);
    }

    // The file in hand is kept. After an `Err` nothing is changed.
    fn keep(&mut self) -> Result<(), AllocError>
        ensures ok { OnOk result (self.new ≡ kept_first self.old self.old.left) }
        ensures err { OnErr result (self.new ≡ self.old) }
    {
        match self.left.front() {
            None => {
                self.end();
                Ok(())
            }
            Some(need) => {
                self.kept.insert(&need.digest)?;
                let _ = self.left.pop_front();
                self.pass();
                Ok(())
            }
        }
    }

    // The file in hand can't be staged, for this cause.
    fn leave_out(&mut self, side: Side, cause: Cause)
        ensures { self.new ≡ without_first side self.old cause self.old.left }
    {
        match self.left.pop_front() {
            None => self.end(),
            Some(need) => {
                let Need { path, .. } = need;
                self.missing.push_reserved(Problem { side, path, cause });
                self.pass();
            }
        }
    }

    // The operation is done. After an `Err` nothing is changed.
    fn go_on(&mut self) -> Result<(), AllocError>
        ensures ok { OnOk result (self.new ≡ went self.old self.old.doing) }
        ensures err { OnErr result (self.new ≡ self.old) }
    {
        match &self.doing {
            Doing::Clearing => {
                self.pass();
                Ok(())
            }
            Doing::Opening => {
                self.turn_to(Doing::Fetching(0));
                Ok(())
            }
            Doing::Appending { end, last, .. } => {
                let (end, last) = (*end, *last);
                self.go_behind(end, last);
                Ok(())
            }
            Doing::Keeping => self.keep(),
            _ => {
                self.end();
                Ok(())
            }
        }
    }

    // A piece was fetched.
    fn take_piece(&mut self, bytes: Content, last: bool)
        requires { IsPieceAt self.old.doing bytes last }
        ensures { self.new ≡ got self.old bytes last self.old.doing }
    {
        match &self.doing {
            Doing::Fetching(offset) => {
                let end = *offset + bytes.len() as u64;
                let doing = with_piece(bytes, end, last);
                self.turn_to(doing);
            }
            _ => self.end(),
        }
    }

    // The operation wasn't done, for this cause.
    fn miss(&mut self, side: Side, cause: Cause)
        ensures { self.new ≡ missed side self.old cause self.old.doing }
    {
        match &self.doing {
            Doing::Fetching(_) => self.leave_out(side, cause),
            Doing::Appending { end, last, .. } => {
                let (end, last) = (*end, *last);
                self.go_behind(end, last);
            }
            Doing::Keeping => self.leave_out(side, cause),
            _ => self.end(),
        }
    }

    // The root that was asked failed.
    fn break_off(&mut self, side: Side)
        ensures { self.new ≡ broke side self.old self.old.doing }
    {
        if self.is_fetching() {
            self.leave_out(side, Cause::Failed);
        } else {
            self.end();
        }
    }

    /// Takes up what was heard of the operation that was asked, for the side that needs the files. After an `Err` nothing is changed.
    pub(crate) fn take(&mut self, side: Side, heard: Heard) -> Result<(), AllocError>
        requires { IsHeard self.old.doing heard }
        ensures ok { OnOk result (self.new ≡ turned side self.old heard) }
        ensures err { OnErr result (self.new ≡ self.old) }
    {
        match heard {
            Heard::Went => self.go_on(),
            Heard::Got { bytes, last } => {
                self.take_piece(bytes, last);
                Ok(())
            }
            Heard::Missed(cause) => {
                self.miss(side, cause);
                Ok(())
            }
            Heard::Broke => {
                self.break_off(side);
                Ok(())
            }
            Heard::Filled => {
                self.end();
                Ok(())
            }
        }
    }
}
