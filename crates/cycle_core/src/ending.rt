//! How a cycle comes to its end: phases without requests are passed over.
ghost use Rattle.std.specs.Prelude.{◌≡◌, ◌+◌, ◌≤◌, length, unwrap_or};
ghost use Rattle.cycle_core.specs.Ending.{GoesBy, broken, committed, ended_early, report, to_changes, to_clear, to_clear_beta, to_commit, to_stages};
ghost use Rattle.cycle_core.specs.UnderWay.{lines_of};

use crate::spec::Tag;
use crate::stand::{Applying, Next, Stand};
use crate::supplying::{Supplied, next_supply};
use crate::work::Work;
use entry_tree::Side;
use frame_text::{AgreedLines, Frame};
use mode_rules::{AncestorLine, CycleReport, Outcome, Problem};
use roots_api::Op;
use sqlite_items::Items;
use std::alloc::Global;

/// A cycle ends before its plan stands.
pub(crate) fn ended_early(alloc: Global, tag: Tag, outcome: Outcome) -> Next
    ensures { result ≡ ended_early tag.run tag.cycle outcome }
{
    Next::Ends(CycleReport {
        cycle: tag.cycle,
        outcome,
        conflicts: Items::new(alloc),
        problems: Items::new(alloc),
    })
}

// The frame is kept, if it has lines.
fn committed(tag: Tag, lines: Vec<AncestorLine>, report: CycleReport) -> Next
    ensures { result ≡ committed tag.run tag.cycle lines.items report }
{
    let run = tag.run;
    let cycle = tag.cycle;
    match AgreedLines::of(Items::from_vec(lines)) {
        Some(lines) => Next::Goes(Stand::Commits {
            frame: Frame::Agree { run, cycle, lines },
            report,
        }),
        None => Next::Ends(report),
    }
}

/// All is cleared: the frame is kept.
pub(crate) fn to_commit(alloc: Global, tag: Tag, work: Work) -> Next
    ensures { GoesBy (λ memory. to_commit tag.run tag.cycle memory work) result }
{
    match work.problems(alloc) {
        Ok(problems) => {
            let outcome = work.outcome;
            with_report(tag, work, outcome, Some(problems))
        }
        Err(_) => with_report(tag, work, Outcome::NoMemory, None),
    }
}

// The report is made: its outcome and its problems, or those of the scans alone.
fn with_report(tag: Tag, work: Work, outcome: Outcome, problems: Option<Items<Problem>>) -> Next
    ensures { result ≡ committed tag.run tag.cycle (lines_of work) (report tag.run tag.cycle outcome work.conflicts (unwrap_or problems work.seen)) }
{
    let Work {
        conflicts,
        seen,
        mut lines,
        changing,
        ..
    } = work;
    changing.land(&mut lines);
    let problems = problems.unwrap_or(seen);
    committed(
        tag,
        lines,
        CycleReport {
            cycle: tag.cycle,
            outcome,
            conflicts,
            problems,
        },
    )
}

/// All changes are ended: alpha is cleared, then beta.
pub(crate) fn to_clear(alloc: Global, tag: Tag, work: Work) -> Next
    ensures { GoesBy (λ memory. to_clear tag.run tag.cycle memory work) result }
{
    if work.alpha_asked {
        return Next::Goes(Stand::Clears {
            side: Side::Alpha,
            op: Op::StageClear,
            work,
        });
    }
    to_clear_beta(alloc, tag, work)
}

/// Alpha is cleared: beta is, too.
pub(crate) fn to_clear_beta(alloc: Global, tag: Tag, work: Work) -> Next
    ensures { GoesBy (λ memory. to_clear_beta tag.run tag.cycle memory work) result }
{
    if work.beta_asked {
        return Next::Goes(Stand::Clears {
            side: Side::Beta,
            op: Op::StageClear,
            work,
        });
    }
    to_commit(alloc, tag, work)
}

/// All is staged, or an operation is answered: the next operation is asked, if there is one.
pub(crate) fn to_changes(alloc: Global, tag: Tag, work: Work) -> Next
    ensures { GoesBy (λ memory. to_changes tag.run tag.cycle memory work) result }
{
    if work.changing.asks() {
        return Next::Goes(Stand::Changes(Applying { work }));
    }
    to_clear(alloc, tag, work)
}

/// The remaining operations are dropped, since this came.
pub(crate) fn broken(alloc: Global, tag: Tag, work: Work, outcome: Outcome) -> Next
    ensures { GoesBy (λ memory. broken tag.run tag.cycle memory work outcome) result }
{
    to_clear(alloc, tag, work.with_outcome(outcome))
}

/// The plan stands, or an operation of a staging is answered: the next one is asked, if there is one, alpha's first.
pub(crate) fn to_stages(alloc: Global, tag: Tag, work: Work) -> Next
    ensures { GoesBy (λ memory. to_stages tag.run tag.cycle memory work) result }
{
    match next_supply(alloc, work) {
        Supplied::Asks(supply) => Next::Goes(Stand::Stages(supply)),
        Supplied::Rests(work) => to_changes(alloc, tag, work.staged()),
        Supplied::NoMemory(work) => broken(alloc, tag, work, Outcome::NoMemory),
    }
}
