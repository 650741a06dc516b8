//! Which outcome an answer or a refusal brings.
ghost use Rattle.std.specs.Prelude.{◌≡◌};
ghost use Rattle.cycle_core.specs.Going.{outcome_by, outcome_of, refused_report, unless_other};
ghost use Rattle.stage_core.specs.Turns.{is_fetch, stops_by};

use entry_tree::Side;
use mode_rules::{CycleReport, Outcome};
use roots_api::{Answer, Op};
use scan_core::ScanEnd;

/// Why a scan's end ends the cycle.
pub(crate) fn outcome_of(side: Side, end: ScanEnd) -> Outcome
    ensures { result ≡ outcome_of side end }
{
    match end {
        ScanEnd::TooMany => Outcome::TooMany(side),
        ScanEnd::Fault => Outcome::Fault(side),
        ScanEnd::RootFull(_) => Outcome::RootFull(side),
        ScanEnd::Memory => Outcome::NoMemory,
    }
}

// Whether an operation is a Fetch.
fn is_fetch(op: &Op) -> bool
    ensures { result ≡ is_fetch op.now }
{
    match op {
        Op::Fetch { .. } => true,
        _ => false,
    }
}

// Whether an answer ends staging and changes: the root was full, or failed at anything but a Fetch.
fn stops_by(op: &Op, answer: &Answer) -> bool
    ensures { result ≡ stops_by op.now answer.now }
{
    answer.is_full() || (answer.is_failed() && !is_fetch(op))
}

/// The outcome that an answer of staging or changing brings, if any.
pub(crate) fn outcome_by(side: Side, op: &Op, answer: &Answer) -> Option<Outcome>
    ensures { result ≡ outcome_by side op.now answer.now }
{
    if answer.is_full() {
        return Some(Outcome::RootFull(side));
    }
    if stops_by(op, answer) {
        return Some(Outcome::Fault(side));
    }
    None
}

// A refusal of the frame is the outcome only if none came before.
fn unless_other(outcome: Outcome, refusal: Outcome) -> Outcome
    ensures { result ≡ unless_other outcome refusal }
{
    match outcome {
        Outcome::Done => refusal,
        other => other,
    }
}

/// The report where the frame isn't kept for this reason.
pub(crate) fn refused_report(report: CycleReport, refusal: Outcome) -> CycleReport
    ensures { result ≡ refused_report report refusal }
{
    CycleReport {
        cycle: report.cycle,
        outcome: unless_other(report.outcome, refusal),
        conflicts: report.conflicts,
        problems: report.problems,
    }
}
