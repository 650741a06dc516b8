//! What is under way once a plan stands.
ghost use Rattle.std.specs.Prelude.{◌≡◌, ◌++◌, IfOk, OnOk};
ghost use Rattle.std.specs.Option.{option_copied};
ghost use Rattle.cycle_core.specs.UnderWay.{problems_of, with_changed, with_outcome, with_staged};

use crate::changing::Changing;
use entry_tree::Side;
use mode_rules::{AncestorLine, Conflict, Outcome, Problem};
use roots_api::Answer;
use sqlite_items::Items;
use stage_core::Staging;
use std::alloc::{AllocError, Global};
use std::marker::Model;

/// What is to be done by a plan, and what became of it. Contracts see [`UnderWay`] of `specs/UnderWay.antt`. There is room for all
/// lines that may still land.
#[derive(Drop)]
pub struct Work {
    pub outcome: Outcome,
    pub conflicts: Items<Conflict>,
    pub seen: Items<Problem>,
    pub lines: Vec<AncestorLine>,
    pub alpha: Staging,
    pub beta: Staging,
    pub alpha_asked: bool,
    pub beta_asked: bool,
    pub changing: Changing,
}

impl Model for Work {
    ghost use Rattle.cycle_core.specs.Codes.{under_way_code};
    ghost use Rattle.cycle_core.specs.UnderWay.{UnderWay};
    ghost use Rattle.cycle_core.specs.Rooms.{HasRoom};

    ghost Value = { UnderWay };

    ghost coded = { under_way_code };

    ghost view = { λ w. record { outcome = w.outcome; conflicts = w.conflicts; seen = w.seen; agreed = w.lines.items; alpha = w.alpha; beta = w.beta; alpha_asked = w.alpha_asked; beta_asked = w.beta_asked; courses = w.changing } };

    ghost invariant = { λ w. HasRoom w.lines w.changing };
}

impl Work {
    /// The work once the next operation of a change is answered; none stands for want of memory of it. It takes no memory.
    pub(crate) fn changed(self, answer: Option<&Answer>) -> Work
        ensures { result ≡ with_changed self (option_copied answer.entry) }
    {
        let mut work = self;
        work.changing.take(answer);
        work
    }

    /// The work once the changes begin: it is known which files weren't staged. It takes no memory.
    pub(crate) fn staged(self) -> Work
        ensures { result ≡ with_staged self }
    {
        let mut work = self;
        work.changing.unstaged(Side::Alpha, work.alpha.missing());
        work.changing.unstaged(Side::Beta, work.beta.missing());
        work
    }

    /// The work with this outcome. It takes no memory.
    pub(crate) fn with_outcome(self, outcome: Outcome) -> Work
        ensures { result ≡ with_outcome self outcome }
    {
        let mut work = self;
        work.outcome = outcome;
        work
    }

    /// All problems so far. Cost: what they hold.
    pub(crate) fn problems(&self, alloc: Global) -> Result<Items<Problem>, AllocError>
        ensures { IfOk result (λ problems. problems ≡ problems_of self.now) }
    {
        let mut problems = Items::new(alloc);
        add_copies(alloc, &mut problems, self.seen.as_slice())?;
        add_copies(alloc, &mut problems, self.alpha.missing())?;
        add_copies(alloc, &mut problems, self.beta.missing())?;
        self.changing.report(alloc, &mut problems)?;
        Ok(problems)
    }
}

// Puts copies of these problems behind those.
fn add_copies(
    alloc: Global,
    problems: &mut Items<Problem>,
    more: &[Problem],
) -> Result<(), AllocError>
    ensures { OnOk result (problems.new ≡ problems.old ++ more.now) }
{
    for problem in more {
        problems.push(problem.copy(alloc)?)?;
    }
    Ok(())
}
