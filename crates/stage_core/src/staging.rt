//! A staging.
ghost use Rattle.std.specs.Prelude.{◌≡◌, map, IfOk, OnOk, OnErr, IsTrue};
ghost use Rattle.std.specs.Option.{option_map};
ghost use Rattle.stage_core.specs.Needs.{needs_of};
ghost use Rattle.stage_core.specs.Staging.{asked, asked_side, is_copied, new_stand, op_of};
ghost use Rattle.stage_core.specs.Told.{IsAnswered, new_staging, state_of, with_answer};
ghost use Rattle.stage_core.specs.Turns.{Stages, Turn, turns_of};

use crate::heard::Heard;
use crate::needs::needs_of;
use crate::told::{Answers, Needs};
use crate::work::Work;
use entry_tree::Side;
use mode_rules::{Change, Problem};
use roots_api::{Answer, Op, Stamps};
use std::alloc::{AllocError, Global};
use std::marker::Model;

/// The staging of the files that a side needs. Contracts see the side, the files, and each answer that it took; `state_of` of
/// `specs/Told.antt` says what it comes to.
#[derive(Drop)]
pub struct Staging {
    side: Side,
    needs: Needs,
    answers: Answers,
    work: Work,
}

impl Model for Staging {
    ghost use Rattle.stage_core.specs.Codes.{staging_code};
    ghost use Rattle.stage_core.specs.Told.{StagingTold, IsStaging};

    ghost Value = { StagingTold };

    ghost coded = { staging_code };

    ghost view = { λ s. record { side = s.side; needs = s.needs; answers = s.answers } };

    ghost invariant = { λ s. IsStaging s.side s.needs s.answers s.work };
}

impl Staging {
    /// The staging of the files that the side's changes among these place, of which nothing is asked yet. The stamps are those of
    /// the other side; a file that has none there is left alone.
    ///
    /// Cost: the entries of the changes, the lengths of these files' paths, and O(log n) for each.
    pub fn of(
        alloc: Global,
        side: Side,
        changes: &[Change],
        stamps: &Stamps,
    ) -> Result<Staging, AllocError>
        ensures { IfOk result (λ staging. staging ≡ new_staging side (needs_of side stamps.now changes.now)) }
    {
        let needs = needs_of(alloc, side, changes, stamps)?;
        let told = Needs::of(&needs);
        let work = Work::new(alloc, needs)?;
        Ok(Staging {
            side,
            needs: told,
            answers: Answers::new(alloc),
            work,
        })
    }

    /// The operation that is asked next, and the side that is asked; none where the staging is at its end. Only a Fetch and a
    /// StageAppend take memory. Cost: a copy of the path, or of the piece that is held.
    pub fn next_op(&self, alloc: Global) -> Result<Option<(Side, Op)>, AllocError>
        ensures value { IfOk result (λ next. next ≡ asked self.now.side (state_of self.now)) }
        ensures op { IfOk result (λ next. op_of (state_of self.now) ≡ option_map (λ n. n.1) next) }
        ensures memory { OnErr result (IsTrue (is_copied (op_of (state_of self.now)))) }
    {
        match self.work.next_op(alloc)? {
            Some(op) => Ok(Some((self.asked_side(), op))),
            None => Ok(None),
        }
    }

    // The side that is asked next.
    fn asked_side(&self) -> Side
        ensures { result ≡ asked_side self.now.side (state_of self.now).doing }
    {
        if self.work.is_fetching() {
            self.side.other()
        } else {
            self.side
        }
    }

    /// Takes the answer to what is asked next. A piece is moved, and not copied. After an `Err` nothing is changed.
    ///
    /// Cost: O(log n), and as much for each file that is passed over since its digest is kept.
    pub fn take(&mut self, answer: Answer) -> Result<(), AllocError>
        requires { IsAnswered (op_of (state_of self.old)) answer }
        ensures ok { OnOk result (self.new ≡ with_answer self.old answer) }
        ensures err { OnErr result (self.new ≡ self.old) }
    {
        self.answers.push(&answer)?;
        match self.work.take(self.side, Heard::of(answer)) {
            Ok(()) => Ok(()),
            Err(_) => {
                self.answers.drop_last();
                Err(AllocError)
            }
        }
    }

    /// What it was told follows what it asked. It does nothing.
    pub fn follows(&self)
        ensures course { Stages self.now.side self.now.needs (turns_of self.now.side (new_stand self.now.needs) self.now.answers) }
        ensures answers { map (λ (t : Turn). t.answer) (turns_of self.now.side (new_stand self.now.needs) self.now.answers) ≡ self.now.answers }
    {
        let _ = &self.work;
    }

    /// What became of the files that weren't staged, in order: for each a problem at its path, of the side that needs it.
    /// It takes no memory.
    pub fn missing(&self) -> &[Problem]
        ensures { result.now ≡ (state_of self.now).missing }
    {
        self.work.missing()
    }
}
