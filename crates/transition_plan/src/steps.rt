//! The machine that goes through the operations of a change.
ghost use Rattle.std.specs.Prelude.{◌≡◌, ◌∷◌, IfOk, Some, length};
ghost use Rattle.std.specs.Option.{option_copied};
ghost use Rattle.mode_rules.specs.declared.problem.Cause.{Cause};
ghost use Rattle.transition_plan.specs.Courses.{course_of, met, next_op, problems_of, taken, without_unstaged};
ghost use Rattle.transition_plan.specs.declared.fate.Fate.TheVariants.{Landed, Ended, Missed};

use crate::blocking::skip_blocked;
use crate::fate::Fate;
use crate::holding::folder_with;
use crate::planning::steps_of;
use crate::reports::problems_of;
use crate::step::Step;
use crate::undone::{Undone, not_done};
use crate::unstaged::{is_whole_unstaged, keep_staged};
use entry_tree::Side;
use mode_rules::{AncestorLine, Cause, Change, Problem};
use roots_api::{Answer, Op, Stamps};
use sqlite_items::Items;
use std::alloc::{AllocError, Global};
use std::collections::VecDeque;
use std::marker::Model;
use sync_path::Path;

/// The operations of a change, one after the other, and what became of those that were answered. Contracts see the course of
/// the change.
#[derive(Drop)]
pub struct Steps {
    side: Side,
    at: Path,
    rest: VecDeque<Step>,
    landed: Vec<AncestorLine>,
    undone: Vec<Undone>,
    // Where among these the last folder is that rests on none before it.
    folder: usize,
}

impl Model for Steps {
    ghost use Rattle.std.specs.Prelude.{◌+◌, ◌≤◌, length};
    ghost use Rattle.std.specs.Vec.{vec_capacity};
    ghost use Rattle.transition_plan.specs.Courses.{Course};
    ghost use Rattle.transition_plan.specs.Order.{AreInOrder};

    ghost Value = { Course };

    ghost view = { λ s. record { side = s.side; at = s.at; rest = s.rest.items; landed = s.landed.items; undone = s.undone.items } };

    ghost invariant = { λ s. (length s.rest.items + length s.landed.items ≤ vec_capacity s.landed) × (length s.rest.items + length s.undone.items ≤ vec_capacity s.undone) × AreInOrder s.undone.items s.folder s.rest.items };
}

impl Steps {
    /// The operations of the change, of which none is asked yet. The stamps are those of the change's side; a file of `old` that has
    /// none there is left alone.
    ///
    /// It makes the room for all that is written down later. Cost: the change's entries and the lengths of their paths, and
    /// O(log n) for each stamp.
    pub fn of(alloc: Global, change: &Change, stamps: &Stamps) -> Result<Steps, AllocError>
        ensures { IfOk result (λ steps. steps ≡ course_of stamps.now change.now) }
    {
        let steps = steps_of(alloc, change, stamps)?;
        let landed = Vec::with_capacity(alloc, steps.len())?;
        let undone = Vec::with_capacity(alloc, steps.len())?;
        let at = change.at.copy(alloc)?;
        Ok(Steps {
            side: change.side,
            at,
            rest: VecDeque::from_vec(steps),
            landed,
            undone,
            folder: 0,
        })
    }

    /// Takes up which files of the side weren't staged: their Places aren't made, and where the file at the change's own path is among
    /// them, no operation is. It is told once, before the first operation is asked. It takes no memory.
    ///
    /// Cost: the change's operations times the number of these files.
    pub fn unstaged(&mut self, missing: &[Problem])
        ensures { self.new ≡ without_unstaged self.old missing.now }
    {
        if is_whole_unstaged(missing, &self.at, &self.rest) {
            self.rest.clear();
        } else {
            keep_staged(missing, &mut self.rest);
        }
    }

    /// The side on which the change is made. It takes no memory.
    pub fn side(&self) -> Side
        ensures { result ≡ self.now.side }
    {
        self.side
    }

    /// How many operations are left: neither answered nor skipped. It takes no memory.
    pub fn left(&self) -> usize
        ensures { result ≡ length self.now.rest }
    {
        self.rest.len()
    }

    /// The operation that is asked next; none where all are answered or skipped. It takes no memory. Cost: O(1).
    pub fn next(&self) -> Option<&Op>
        ensures { option_copied result ≡ next_op self.now }
    {
        match self.rest.front() {
            Some(step) => Some(&step.op),
            None => None,
        }
    }

    /// Takes up what the operation asked next was answered; none stands for want of memory of it. It takes no memory.
    ///
    /// Where nothing is asked it changes nothing. Cost: two comparisons of paths, and as much for each operation that is skipped.
    pub fn take(&mut self, answer: Option<&Answer>)
        ensures { self.new ≡ taken self.old (option_copied answer.entry) }
    {
        match Fate::of(answer) {
            Fate::Landed => self.land(),
            Fate::Ended => self.end(),
            Fate::Missed(cause) => self.miss(cause),
        }
    }

    /// The lines of the operations that are done, in order. It takes no memory.
    pub fn landed(&self) -> &[AncestorLine]
        ensures { result.now ≡ self.now.landed }
    {
        self.landed.as_slice()
    }

    /// The lines of the operations that are done, in order; each is moved. It takes no memory.
    pub fn into_landed(self) -> Vec<AncestorLine>
        ensures { result.items ≡ self.landed }
    {
        self.landed
    }

    /// The problems of the operations that weren't done, in order. Cost: the lengths of their paths, and for each that was
    /// skipped the operations that weren't done before the one that it follows.
    pub fn problems(&self, alloc: Global) -> Result<Items<Problem>, AllocError>
        ensures { IfOk result (λ problems. problems ≡ problems_of self.now) }
    {
        problems_of(alloc, self.side, self.undone.as_slice())
    }

    // The next operation is done.
    fn land(&mut self)
        ensures { self.new ≡ met self.old self.old.rest Landed }
    {
        if let Some(step) = self.rest.pop_front() {
            self.landed.push_reserved(into_line(step));
            skip_blocked(&mut self.rest, &mut self.undone, self.folder);
        }
    }

    // The root is full or has failed.
    fn end(&mut self)
        ensures { self.new ≡ met self.old self.old.rest Ended }
    {
        self.rest.clear();
    }

    // The next operation wasn't done.
    fn miss(&mut self, cause: Cause)
        ensures { self.new ≡ met self.old self.old.rest (Missed cause) }
    {
        if let Some(step) = self.rest.pop_front() {
            self.folder = folder_with(self.undone.as_slice(), self.folder, &step.op);
            self.undone.push_reserved(not_done(step, Some(cause)));
            skip_blocked(&mut self.rest, &mut self.undone, self.folder);
        }
    }
}

// The line of a step.
fn into_line(step: Step) -> AncestorLine
    ensures { result ≡ step.line }
{
    step.line
}
