//! Lists of sessions.
ghost use Rattle.std.specs.Prelude.{◌≡◌, ◌++◌, ◌&&◌, IfOk, OnOk, bytes_eq};
ghost use Rattle.std.specs.List.{list_any};
ghost use Rattle.session_table.specs.Lists.{conflicts_in, forward_row, forward_rows, has_label, if_not_halted, problems_in, state_of, sync_row, sync_rows, rows_for, forward_for};
ghost use Rattle.command_words.specs.declared.label.Label.{Label};

use crate::create::{Create, ForwardCreate, SyncCreate, copied_name};
use crate::reply::{ForwardRow, SyncRow, SyncState};
use crate::session::Session;
use crate::sessions::Sessions;
use command_words::Label;
use mode_rules::CycleReport;
use session_control::{Standing, Wish};
use sqlite_items::Items;
use std::alloc::{AllocError, Global};

/// The sessions that keep two roots the same, in order of creation, or those with the label.
pub(crate) fn sync_rows(
    alloc: Global,
    sessions: &Sessions,
    label: &Option<Label>,
) -> Result<Items<SyncRow>, AllocError>
    ensures { IfOk result (λ rows. rows ≡ sync_rows label.now sessions.now.live) }
{
    let mut rows = Items::new(alloc);
    for (id, session) in sessions.iter() {
        add_sync_row(alloc, &mut rows, label, *id, session)?;
    }
    Ok(rows)
}

// Adds the row of a session, if it keeps two roots the same, and has the label.
fn add_sync_row(
    alloc: Global,
    rows: &mut Items<SyncRow>,
    label: &Option<Label>,
    id: u128,
    session: &Session,
) -> Result<(), AllocError>
    ensures { OnOk result (rows.new ≡ rows.old ++ rows_for label.now id session.now) }
{
    match &session.row.create {
        Create::Sync(create) => {
            if has_label(label, create.labels.as_slice()) {
                rows.push(sync_row(alloc, id, create, session)?)?;
            }
            Ok(())
        }
        Create::Forward(_) => Ok(()),
    }
}

// Whether a session has the label, where one is asked for.
fn has_label(label: &Option<Label>, labels: &[Label]) -> bool
    ensures { result ≡ has_label label.now labels.now }
{
    match label {
        Some(label) => is_among(label, labels),
        None => true,
    }
}

// Whether the label is one of these.
fn is_among(label: &Label, labels: &[Label]) -> bool
    ensures { result ≡ list_any (λ (l : Label). bytes_eq l.key label.now.key && bytes_eq l.value label.now.value) labels.now }
{
    labels.iter().any(|other| other.key == label.key && other.value == label.value)
}

// The row of a session that keeps two roots the same.
fn sync_row(
    alloc: Global,
    id: u128,
    create: &SyncCreate,
    session: &Session,
) -> Result<SyncRow, AllocError>
    ensures { IfOk result (λ row. row ≡ sync_row id create.now session.now) }
{
    Ok(SyncRow {
        id,
        name: copied_name(alloc, &create.name)?,
        mode: create.mode,
        alpha: create.alpha.copy(alloc)?,
        beta: create.beta.copy(alloc)?,
        state: state_of(session.standing),
        cycles: session.standing.finished,
        conflicts: conflicts_in(&session.report),
        problems: problems_in(&session.report),
        labels: create.labels.copy(alloc)?,
    })
}

// The state of a session: the first that holds.
fn state_of(standing: Standing) -> SyncState
    ensures { result ≡ state_of standing }
{
    if let Some(halt) = standing.halted {
        return SyncState::Halted(halt);
    }
    if let Wish::Paused = standing.wish {
        return SyncState::Paused;
    }
    if standing.finished < standing.begun {
        return SyncState::Cycling;
    }
    if standing.finished < standing.wanted {
        return SyncState::Due;
    }
    SyncState::Resting
}

// How many conflicts the last report has.
fn conflicts_in(report: &Option<CycleReport>) -> u64
    ensures { result ≡ conflicts_in report.now }
{
    match report {
        Some(report) => report.conflicts.len() as u64,
        None => 0,
    }
}

// How many problems the last report has.
fn problems_in(report: &Option<CycleReport>) -> u64
    ensures { result ≡ problems_in report.now }
{
    match report {
        Some(report) => report.problems.len() as u64,
        None => 0,
    }
}

/// The sessions that carry streams, in order of creation.
pub(crate) fn forward_rows(
    alloc: Global,
    sessions: &Sessions,
) -> Result<Items<ForwardRow>, AllocError>
    ensures { IfOk result (λ rows. rows ≡ forward_rows sessions.now.live) }
{
    let mut rows = Items::new(alloc);
    for (id, session) in sessions.iter() {
        add_forward_row(alloc, &mut rows, *id, session)?;
    }
    Ok(rows)
}

// Adds the row of a session, if it carries streams.
fn add_forward_row(
    alloc: Global,
    rows: &mut Items<ForwardRow>,
    id: u128,
    session: &Session,
) -> Result<(), AllocError>
    ensures { OnOk result (rows.new ≡ rows.old ++ forward_for id session.now) }
{
    match &session.row.create {
        Create::Sync(_) => Ok(()),
        Create::Forward(create) => {
            rows.push(forward_row(alloc, id, create, session)?)?;
            Ok(())
        }
    }
}

// The row of a session that carries streams.
fn forward_row(
    alloc: Global,
    id: u128,
    create: &ForwardCreate,
    session: &Session,
) -> Result<ForwardRow, AllocError>
    ensures { IfOk result (λ row. row ≡ forward_row id create.now session.now) }
{
    Ok(ForwardRow {
        id,
        name: copied_name(alloc, &create.name)?,
        source: create.source.copy(alloc)?,
        dest: create.dest.copy(alloc)?,
        wish: session.standing.wish,
    })
}
