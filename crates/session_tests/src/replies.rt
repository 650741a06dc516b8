//! Replies as words, each with a space before it.
use command_words::{Identifier, SessionKind, halt_word};
use mode_rules::{CycleReport, Halt, Outcome};
use session_control::{Standing, Wish};
use session_table::{
    CommandReply, ForwardRow, Order, SyncRow, SyncState, TableRefusal, TableReply,
};
use std::alloc::{AllocError, Global};

fn push_word(text: &mut String, word: &str) -> Result<(), AllocError> {
    text.push_str(" ")?;
    text.push_str(word)
}

fn push_number(alloc: Global, text: &mut String, number: u64) -> Result<(), AllocError> {
    let digits = format!(in alloc; " {number}")?;
    text.push_str(digits.as_str())
}

// A word and a number.
fn push_counted(
    alloc: Global,
    text: &mut String,
    word: &str,
    number: u64,
) -> Result<(), AllocError> {
    push_word(text, word)?;
    push_number(alloc, text, number)
}

fn push_id(alloc: Global, text: &mut String, mark: &str, id: u128) -> Result<(), AllocError> {
    let digits = format!(in alloc; "{id}")?;
    push_word(text, mark)?;
    text.push_str(digits.as_str())
}

// A word and an identifier.
fn push_session(
    alloc: Global,
    text: &mut String,
    word: &str,
    session: Identifier,
) -> Result<(), AllocError> {
    push_word(text, word)?;
    match session.kind {
        SessionKind::Sync => push_id(alloc, text, "#", session.id),
        SessionKind::Forward => push_id(alloc, text, "~", session.id),
    }
}

fn push_halted(text: &mut String, halt: Halt) -> Result<(), AllocError> {
    push_word(text, "halted")?;
    push_word(text, halt_word(halt))
}

fn push_refusal(alloc: Global, text: &mut String, refusal: TableRefusal) -> Result<(), AllocError> {
    match refusal {
        TableRefusal::NoSession => push_word(text, "no-session"),
        TableRefusal::SameRoot => push_word(text, "same-root"),
        TableRefusal::TableFull => push_word(text, "table-full"),
        TableRefusal::NameTaken(session) => push_session(alloc, text, "name-taken", session),
        TableRefusal::IdTaken(session) => push_session(alloc, text, "id-taken", session),
        TableRefusal::OldNumber(last) => push_counted(alloc, text, "old-number", last),
        TableRefusal::ClientsFull => push_word(text, "clients-full"),
        TableRefusal::Halted(halt) => push_halted(text, halt),
        TableRefusal::Paused => push_word(text, "paused"),
        TableRefusal::OldRun(run) => push_counted(alloc, text, "old-run", run as u64),
    }
}

fn order_word(order: Order) -> &'static str {
    match order {
        Order::Pause => "pause",
        Order::Resume => "resume",
        Order::Reset => "reset",
        Order::Terminate => "terminate",
    }
}

fn push_awaited(
    alloc: Global,
    text: &mut String,
    id: u128,
    run: u32,
    cycle: u64,
) -> Result<(), AllocError> {
    push_word(text, "awaits")?;
    push_id(alloc, text, "", id)?;
    push_counted(alloc, text, "run", run as u64)?;
    push_counted(alloc, text, "cycle", cycle)
}

fn push_command(alloc: Global, text: &mut String, reply: CommandReply) -> Result<(), AllocError> {
    match reply {
        CommandReply::Created(session) => push_session(alloc, text, "create", session),
        CommandReply::Awaits { id, run, cycle } => push_awaited(alloc, text, id, run, cycle),
        CommandReply::Ordered(order, session) => {
            push_session(alloc, text, order_word(order), session)
        }
        CommandReply::Refused(refusal) => push_refusal(alloc, text, refusal),
    }
}

fn outcome_word(outcome: Outcome) -> &'static str {
    match outcome {
        Outcome::Done => "done",
        Outcome::Halted(halt) => halt_word(halt),
        _ => "stopped",
    }
}

fn state_word(state: SyncState) -> &'static str {
    match state {
        SyncState::Halted(halt) => halt_word(halt),
        SyncState::Paused => "paused",
        SyncState::Cycling => "cycling",
        SyncState::Due => "due",
        SyncState::Resting => "resting",
    }
}

fn wish_word(wish: Wish) -> &'static str {
    match wish {
        Wish::Run => "running",
        Wish::Paused => "paused",
    }
}

fn push_sync_row(alloc: Global, text: &mut String, row: &SyncRow) -> Result<(), AllocError> {
    push_id(alloc, text, "", row.id)?;
    push_counted(alloc, text, state_word(row.state), row.cycles)
}

fn push_sync_list(alloc: Global, text: &mut String, rows: &[SyncRow]) -> Result<(), AllocError> {
    push_word(text, "list")?;
    for row in rows {
        push_sync_row(alloc, text, row)?;
    }
    Ok(())
}

fn push_forward_row(alloc: Global, text: &mut String, row: &ForwardRow) -> Result<(), AllocError> {
    push_id(alloc, text, "", row.id)?;
    push_word(text, wish_word(row.wish))
}

fn push_forward_list(
    alloc: Global,
    text: &mut String,
    rows: &[ForwardRow],
) -> Result<(), AllocError> {
    push_word(text, "list")?;
    for row in rows {
        push_forward_row(alloc, text, row)?;
    }
    Ok(())
}

// A word, a session, and the number and the outcome of its report.
fn push_report(
    alloc: Global,
    text: &mut String,
    word: &str,
    id: u128,
    report: &CycleReport,
) -> Result<(), AllocError> {
    push_word(text, word)?;
    push_id(alloc, text, "", id)?;
    push_number(alloc, text, report.cycle)?;
    push_word(text, outcome_word(report.outcome))
}

fn push_reported(
    alloc: Global,
    text: &mut String,
    id: u128,
    report: &Option<CycleReport>,
) -> Result<(), AllocError> {
    match report {
        Some(report) => push_report(alloc, text, "report", id, report),
        None => {
            push_word(text, "report")?;
            push_id(alloc, text, "", id)?;
            push_word(text, "none")
        }
    }
}

fn push_counts(alloc: Global, text: &mut String, standing: &Standing) -> Result<(), AllocError> {
    push_counted(alloc, text, "begun", standing.begun)?;
    push_counted(alloc, text, "finished", standing.finished)?;
    push_counted(alloc, text, "wanted", standing.wanted)?;
    push_counted(alloc, text, "resets", standing.resets)
}

fn push_standing(alloc: Global, text: &mut String, standing: &Standing) -> Result<(), AllocError> {
    push_word(text, wish_word(standing.wish))?;
    push_counts(alloc, text, standing)?;
    match standing.halted {
        Some(halt) => push_word(text, halt_word(halt)),
        None => push_word(text, "-"),
    }
}

fn push_looked(
    alloc: Global,
    text: &mut String,
    standing: &Option<Standing>,
) -> Result<(), AllocError> {
    match standing {
        Some(standing) => push_standing(alloc, text, standing),
        None => push_word(text, "gone"),
    }
}

fn push_begun(alloc: Global, text: &mut String, cycle: Option<u64>) -> Result<(), AllocError> {
    match cycle {
        Some(cycle) => push_counted(alloc, text, "begun", cycle),
        None => push_word(text, "gone"),
    }
}

fn push_pending(
    alloc: Global,
    text: &mut String,
    finished: u64,
    cycle: u64,
) -> Result<(), AllocError> {
    push_counted(alloc, text, "pending", finished)?;
    push_number(alloc, text, cycle)
}

fn noted_word(noted: bool) -> &'static str {
    if noted { "noted" } else { "gone" }
}

/// Writes a reply.
pub fn push_reply(alloc: Global, text: &mut String, reply: &TableReply) -> Result<(), AllocError> {
    match reply {
        TableReply::Command(reply) => push_command(alloc, text, *reply),
        TableReply::SyncList(rows) => push_sync_list(alloc, text, rows.as_slice()),
        TableReply::ForwardList(rows) => push_forward_list(alloc, text, rows.as_slice()),
        TableReply::Reported { id, report } => push_reported(alloc, text, *id, report),
        TableReply::Flushed { id, report } => push_report(alloc, text, "flush", *id, report),
        TableReply::Pending { finished, cycle } => push_pending(alloc, text, *finished, *cycle),
        TableReply::Refused(refusal) => push_refusal(alloc, text, *refusal),
        TableReply::Looked(standing) => push_looked(alloc, text, standing),
        TableReply::Begun(cycle) => push_begun(alloc, text, *cycle),
        TableReply::Noted(noted) => push_word(text, noted_word(*noted)),
        TableReply::NoMemory => push_word(text, "no-memory"),
    }
}
