//! What a cycle makes of what it is told, and of a stop.
ghost use Rattle.std.specs.Prelude.{◌≡◌, ◌≤◌};
ghost use Rattle.entry_tree.specs.declared.side.Side.TheVariants.{Alpha, Beta};
ghost use Rattle.roots_api.specs.declared.limits.TheConstants.{MAX_FETCH};
ghost use Rattle.scan_core.specs.Scan.{IsAnswered};
ghost use Rattle.stage_core.specs.Told.{IsAnswered as IsStaged};
ghost use Rattle.cycle_core.specs.Changing.{asked as changing_asked};
ghost use Rattle.cycle_core.specs.Ending.{GoesBy};
ghost use Rattle.cycle_core.specs.Going.{MayBeTold, ScansTo, TurnsTo, changed, changed_by, cleared, kept, outcome_asked, refused, staged, staged_by, stopped, unasked};
ghost use Rattle.cycle_core.specs.Looks.{looks_next};
ghost use Rattle.cycle_core.specs.UnderWay.{staging_op};
ghost use Rattle.cycle_core.specs.declared.request.Taken.TheVariants.{Answered};
ghost use Rattle.cycle_core.specs.declared.stand.Stand.TheVariants.{Scans};

use crate::ending::{broken, ended_early, to_changes, to_clear_beta, to_commit, to_stages};
use crate::outcome::{outcome_by, outcome_of, refused_report};
use crate::request::Taken;
use crate::scanning::{Scanning, after_scan};
use crate::spec::{Caches, Setup};
use crate::stand::{Applying, Next, Stand};
use crate::supply::Supply;
use crate::work::Work;
use entry_tree::{Side, Tree};
use mode_rules::Outcome;
use roots_api::Answer;
use scan_cache::Cache;
use std::alloc::Global;

/// Takes what came of the request.
pub(crate) fn turned(
    alloc: Global,
    setup: &Setup,
    caches: &mut Caches,
    stand: Stand,
    told: Taken,
) -> Next
    requires told { MayBeTold stand told }
    requires size { setup.now.size ≤ MAX_FETCH }
    ensures { TurnsTo setup.now caches.old stand told result caches.new }
{
    match told {
        Taken::Answered(answer) => answered(alloc, setup, caches, stand, answer),
        Taken::Kept => kept(alloc, setup, stand),
        Taken::KeepFailed => refused(alloc, setup, stand),
        Taken::NoMemory => unasked(alloc, setup, stand),
    }
}

// Takes a root's answer.
fn answered(alloc: Global, setup: &Setup, caches: &mut Caches, stand: Stand, answer: Answer) -> Next
    requires { MayBeTold stand (Answered answer) }
    ensures { TurnsTo setup.now caches.old stand (Answered answer) result caches.new }
{
    match stand {
        Stand::Forgets(frame) => Next::Goes(Stand::Forgets(frame)),
        Stand::Scans(scanning) => scanned(alloc, setup, caches, scanning, answer),
        Stand::Stages(supply) => staged(alloc, setup, supply, answer),
        Stand::Changes(applying) => changed(alloc, setup, applying, answer),
        Stand::Clears { side, work, .. } => cleared(alloc, setup, side, work),
        Stand::Commits { frame, report } => Next::Goes(Stand::Commits { frame, report }),
    }
}

// Takes an answer to a scan, and what the side's cache learns of it.
fn scanned(
    alloc: Global,
    setup: &Setup,
    caches: &mut Caches,
    scanning: Scanning,
    answer: Answer,
) -> Next
    requires { IsAnswered (looks_next scanning.side scanning.looks) answer }
    ensures { TurnsTo setup.now caches.old (Scans scanning) (Answered answer) result caches.new }
{
    match scanning.side {
        Side::Alpha => scanned_on(alloc, setup, &mut caches.alpha, scanning, answer),
        Side::Beta => scanned_on(alloc, setup, &mut caches.beta, scanning, answer),
    }
}

// The same with the side's cache.
fn scanned_on(
    alloc: Global,
    setup: &Setup,
    cache: &mut Cache,
    scanning: Scanning,
    answer: Answer,
) -> Next
    requires { IsAnswered (looks_next scanning.side scanning.looks) answer }
    ensures { ScansTo setup.now cache.old scanning answer result cache.new }
{
    let Scanning {
        side,
        mut looks,
        asked,
    } = scanning;
    drop(asked);
    match looks.take(alloc, side, answer, &setup.rules, cache) {
        Ok(()) => after_scan(alloc, setup, side, looks),
        Err(end) => {
            drop(looks);
            ended_early(alloc, setup.tag, outcome_of(side, end))
        }
    }
}

// Takes an answer to a staging.
fn staged(alloc: Global, setup: &Setup, supply: Supply, answer: Answer) -> Next
    requires { IsStaged (staging_op supply) answer }
    ensures { GoesBy (λ memory. staged setup.now memory supply answer) result }
{
    let outcome = outcome_by(supply.side, &supply.asked, &answer);
    match supply.take(answer) {
        Ok(work) => staged_by(alloc, setup, work, outcome),
        Err(work) => broken(alloc, setup.tag, work, Outcome::NoMemory),
    }
}

// An answer to a staging brings this outcome, or it goes on.
fn staged_by(alloc: Global, setup: &Setup, work: Work, outcome: Option<Outcome>) -> Next
    ensures { GoesBy (λ memory. staged_by setup.now memory work outcome) result }
{
    match outcome {
        None => to_stages(alloc, setup.tag, work),
        Some(outcome) => broken(alloc, setup.tag, work, outcome),
    }
}

// Takes an answer to a change.
fn changed(alloc: Global, setup: &Setup, applying: Applying, answer: Answer) -> Next
    ensures { GoesBy (λ memory. changed setup.now memory applying answer) result }
{
    let outcome = outcome_asked(&applying.work, &answer);
    changed_by(alloc, setup, applying.work.changed(Some(&answer)), outcome)
}

// The outcome that an answer to the change in course brings, if any.
fn outcome_asked(work: &Work, answer: &Answer) -> Option<Outcome>
    ensures { result ≡ outcome_asked (changing_asked work.now.courses) answer.now }
{
    match work.changing.next() {
        Some((side, op)) => outcome_by(side, op, answer),
        None => None,
    }
}

// An answer to a change brings this outcome, or it goes on.
fn changed_by(alloc: Global, setup: &Setup, work: Work, outcome: Option<Outcome>) -> Next
    ensures { GoesBy (λ memory. changed_by setup.now memory work outcome) result }
{
    match outcome {
        None => to_changes(alloc, setup.tag, work),
        Some(outcome) => broken(alloc, setup.tag, work, outcome),
    }
}

// A side's staging is taken away.
fn cleared(alloc: Global, setup: &Setup, side: Side, work: Work) -> Next
    ensures { GoesBy (λ memory. cleared setup.now memory side work) result }
{
    match side {
        Side::Alpha => to_clear_beta(alloc, setup.tag, work),
        Side::Beta => to_commit(alloc, setup.tag, work),
    }
}

// The frame is kept.
fn kept(alloc: Global, setup: &Setup, stand: Stand) -> Next
    requires { setup.now.size ≤ MAX_FETCH }
    ensures { result ≡ kept setup.now stand }
{
    match stand {
        Stand::Forgets(_) => Next::Goes(Stand::Scans(Scanning::first(
            alloc,
            setup.entries,
            setup.size,
            Tree::new(alloc),
        ))),
        Stand::Scans(scanning) => Next::Goes(Stand::Scans(scanning)),
        Stand::Stages(supply) => Next::Goes(Stand::Stages(supply)),
        Stand::Changes(applying) => Next::Goes(Stand::Changes(applying)),
        Stand::Clears { side, op, work } => Next::Goes(Stand::Clears { side, op, work }),
        Stand::Commits { report, .. } => Next::Ends(report),
    }
}

// The frame isn't kept.
fn refused(alloc: Global, setup: &Setup, stand: Stand) -> Next
    ensures { result ≡ refused setup.now stand }
{
    match stand {
        Stand::Forgets(_) => ended_early(alloc, setup.tag, Outcome::KeeperFault),
        Stand::Scans(scanning) => Next::Goes(Stand::Scans(scanning)),
        Stand::Stages(supply) => Next::Goes(Stand::Stages(supply)),
        Stand::Changes(applying) => Next::Goes(Stand::Changes(applying)),
        Stand::Clears { side, op, work } => Next::Goes(Stand::Clears { side, op, work }),
        Stand::Commits { report, .. } => Next::Ends(refused_report(report, Outcome::KeeperFault)),
    }
}

// There was no memory for the request.
fn unasked(alloc: Global, setup: &Setup, stand: Stand) -> Next
    ensures { GoesBy (λ memory. unasked setup.now memory stand) result }
{
    match stand {
        Stand::Forgets(frame) => {
            drop(frame);
            ended_early(alloc, setup.tag, Outcome::NoMemory)
        }
        Stand::Scans(scanning) => {
            drop(scanning);
            ended_early(alloc, setup.tag, Outcome::NoMemory)
        }
        Stand::Stages(supply) => broken(alloc, setup.tag, supply.into_asked(), Outcome::NoMemory),
        Stand::Changes(applying) => to_changes(alloc, setup.tag, applying.work.changed(None)),
        Stand::Clears { side, work, .. } => cleared(alloc, setup, side, work),
        Stand::Commits { report, .. } => Next::Ends(refused_report(report, Outcome::NoMemory)),
    }
}

/// The session is to be stopped: before its plan stands the cycle ends, and else it clears what was staged and keeps what landed.
pub(crate) fn stopped(alloc: Global, setup: &Setup, stand: Stand) -> Next
    ensures { GoesBy (λ memory. stopped setup.now memory stand) result }
{
    match stand {
        Stand::Forgets(frame) => {
            drop(frame);
            ended_early(alloc, setup.tag, Outcome::Stopped)
        }
        Stand::Scans(scanning) => {
            drop(scanning);
            ended_early(alloc, setup.tag, Outcome::Stopped)
        }
        Stand::Stages(supply) => broken(alloc, setup.tag, supply.work, Outcome::Stopped),
        Stand::Changes(applying) => broken(alloc, setup.tag, applying.work, Outcome::Stopped),
        Stand::Clears { side, op, work } => Next::Goes(Stand::Clears { side, op, work }),
        Stand::Commits { frame, report } => Next::Goes(Stand::Commits { frame, report }),
    }
}
