//! The plan of a cycle, once both sides are seen.
ghost use Rattle.std.specs.Prelude.{◌≡◌, ◌++◌, ◌+◌, ◌<◌, ◌≤◌, ◌^◌, IfOk, OnOk, length, reverse};
ghost use Rattle.std.specs.FinMap as map;
ghost use Rattle.std.specs.List.{filter_map};
ghost use Rattle.std.specs.Vec.{vec_capacity};
ghost use Rattle.cycle_core.specs.Ending.{GoesBy};
ghost use Rattle.cycle_core.specs.Planning.{all_seen, cause_of, made, plan, planned, seen_problem, under_way};

use crate::changing::Changing;
use crate::ending::{ended_early, to_stages};
use crate::looks::Looks;
use crate::spec::Tag;
use crate::stand::Next;
use crate::work::Work;
use entry_tree::{Atom, ProblemKind, Side, Tree};
use mode_rules::{AncestorLine, Cause, CycleReport, Halt, Mode, Outcome, Plan, Problem};
use reconcile::reconcile;
use sqlite_items::Items;
use stage_core::Staging;
use std::alloc::{AllocError, Global};

// So many lines fit into no memory.
const MOST_LINES: usize = 9_223_372_036_854_775_807;

/// What is made of a plan: it is halted, and the scans have these problems, or this is to be done.
#[derive(Drop)]
pub enum Made {
    Halts(Halt, Items<Problem>),
    Works(Work),
}

// Why a path was seen as a problem.
fn cause_of(kind: ProblemKind) -> Cause
    ensures { result ≡ cause_of kind }
{
    match kind {
        ProblemKind::Changed => Cause::Changed,
        ProblemKind::TooLarge => Cause::TooLarge,
        ProblemKind::Failed => Cause::Failed,
    }
}

// Adds the paths of a side that were seen as problems.
fn add_seen(
    alloc: Global,
    problems: &mut Items<Problem>,
    side: Side,
    seen: &Tree,
) -> Result<(), AllocError>
    ensures { OnOk result (problems.new ≡ problems.old ++ filter_map (seen_problem side) (map.entries seen.now)) }
{
    for (path, atom) in seen.iter() {
        if let Atom::Problem(kind) = atom {
            let path = path.copy(alloc)?;
            let cause = cause_of(*kind);
            problems.push(Problem { side, path, cause })?;
        }
    }
    Ok(())
}

// The problems of both scans.
fn all_seen(alloc: Global, looks: &Looks) -> Result<Items<Problem>, AllocError>
    ensures { IfOk result (λ problems. problems ≡ all_seen looks.now) }
{
    let mut problems = Items::new(alloc);
    add_seen(alloc, &mut problems, Side::Alpha, looks.alpha.seen())?;
    add_seen(alloc, &mut problems, Side::Beta, looks.beta.seen())?;
    Ok(problems)
}

// The lines, with room for as many more.
fn with_room(
    alloc: Global,
    lines: Items<AncestorLine>,
    more: usize,
) -> Result<Vec<AncestorLine>, AllocError>
    ensures lines { IfOk result (λ out. out.items ≡ lines) }
    ensures room { IfOk result (λ out. (length lines + more ≤ vec_capacity out) × (more < 2 ^ 63)) }
{
    let wanted = lines.len().saturating_add(more);
    if wanted > MOST_LINES {
        return Err(AllocError);
    }
    let mut out = Vec::with_capacity(alloc, wanted)?;
    move_back(lines, &mut out);
    out.as_mut_slice().reverse();
    Ok(out)
}

// Moves these lines behind those, the last one first.
fn move_back(lines: Items<AncestorLine>, out: &mut Vec<AncestorLine>)
    requires { length out.old.items + length lines ≤ vec_capacity out.old }
    ensures lines { out.new.items ≡ out.old.items ++ reverse lines }
    ensures room { vec_capacity out.new ≡ vec_capacity out.old }
{
    let mut lines = lines;
    for _ in 0..lines.len() {
        if let Some(line) = lines.pop() {
            out.push_reserved(line);
        }
    }
}

// The plan of both scans, and the problems that they saw.
fn plan(alloc: Global, mode: Mode, looks: &Looks) -> Result<Plan, AllocError>
    ensures { IfOk result (λ p. p ≡ plan mode looks.now) }
{
    reconcile(
        alloc,
        mode,
        &looks.ancestor,
        looks.alpha.seen(),
        looks.beta.seen(),
    )
}

// What is under way by a plan.
fn under_way(
    alloc: Global,
    seen: Items<Problem>,
    looks: &Looks,
    plan: Plan,
) -> Result<Work, AllocError>
    ensures { IfOk result (λ work. seen ≡ all_seen looks.now → work ≡ under_way looks.now plan) }
{
    let Plan {
        halt: _,
        changes,
        agreed,
        conflicts,
    } = plan;
    let alpha = Staging::of(alloc, Side::Alpha, changes.as_slice(), looks.beta.stamps())?;
    let beta = Staging::of(alloc, Side::Beta, changes.as_slice(), looks.alpha.stamps())?;
    let changing = Changing::of(
        alloc,
        changes.as_slice(),
        looks.alpha.stamps(),
        looks.beta.stamps(),
    )?;
    let lines = with_room(alloc, agreed, changing.most())?;
    Ok(Work {
        outcome: Outcome::Done,
        conflicts,
        seen,
        lines,
        alpha,
        beta,
        alpha_asked: false,
        beta_asked: false,
        changing,
    })
}

// What is made of both scans.
fn made_of(alloc: Global, mode: Mode, looks: &Looks) -> Result<Made, AllocError>
    ensures { IfOk result (λ m. m ≡ made mode looks.now) }
{
    let plan = plan(alloc, mode, looks)?;
    let seen = all_seen(alloc, looks)?;
    match plan.halt {
        Some(halt) => Ok(Made::Halts(halt, seen)),
        None => Ok(Made::Works(under_way(alloc, seen, looks, plan)?)),
    }
}

/// Both scans are whole: the plan is made, and what it asks for is begun.
pub(crate) fn planned(alloc: Global, mode: Mode, tag: Tag, looks: Looks) -> Next
    ensures { GoesBy (λ memory. planned tag.run tag.cycle memory (made mode looks)) result }
{
    let made = made_of(alloc, mode, &looks);
    drop(looks);
    match made {
        Err(_) => ended_early(alloc, tag, Outcome::NoMemory),
        Ok(Made::Halts(halt, problems)) => Next::Ends(CycleReport {
            cycle: tag.cycle,
            outcome: Outcome::Halted(halt),
            conflicts: Items::new(alloc),
            problems,
        }),
        Ok(Made::Works(work)) => to_stages(alloc, tag, work),
    }
}
