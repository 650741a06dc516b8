//! Operations as words, behind the two of the client: `COMMAND KIND SESSION`, `create KIND NAME ROOTS MORE DRAWN`, `query KIND LABEL`,
//! `query report SESSION`, `wait ID CYCLE`, `look ID`, `begin ID`, `ended ID CYCLE OUTCOME`.
use crate::creates::create;
use crate::words::{client, id, kind, number, session, word};
use command_words::read_label;
use mode_rules::{CycleReport, Halt, Outcome};
use session_table::{TableOp, TableQuery, TableRequest};
use sqlite_items::Items;
use std::alloc::Global;
use std::test::Fail;

// A command of a session that is there.
fn order(alloc: Global, row: &str) -> Result<TableRequest, Fail> {
    let kind = kind(word(row, 3));
    let session = session(alloc, word(row, 4))?;
    match word(row, 2) {
        "flush" => Ok(TableRequest::Flush(session)),
        "pause" => Ok(TableRequest::Pause(kind, session)),
        "resume" => Ok(TableRequest::Resume(kind, session)),
        "reset" => Ok(TableRequest::Reset(session)),
        _ => Ok(TableRequest::Terminate(kind, session)),
    }
}

fn request(alloc: Global, row: &str) -> Result<TableRequest, Fail> {
    match word(row, 2) {
        "create" => Ok(TableRequest::Create(create(alloc, row)?)),
        _ => order(alloc, row),
    }
}

// The identifier that was drawn, if one is written.
fn drawn(word: &str) -> Option<u128> {
    let number: Option<u64> = word.parse().ok();
    match number {
        Some(number) => Some(number as u128),
        None => None,
    }
}

fn ask(alloc: Global, row: &str) -> Result<TableOp, Fail> {
    let client = client(alloc, word(row, 0), word(row, 1))?;
    let request = request(alloc, row)?;
    Ok(TableOp::Ask {
        client,
        request,
        drawn: drawn(word(row, 7)),
    })
}

fn query(alloc: Global, row: &str) -> Result<TableOp, Fail> {
    match word(row, 3) {
        "sync" => {
            let label = read_label(alloc, word(row, 4).as_bytes())?;
            Ok(TableOp::Query(TableQuery::SyncList(label)))
        }
        "forward" => Ok(TableOp::Query(TableQuery::ForwardList)),
        _ => {
            let session = session(alloc, word(row, 4))?;
            Ok(TableOp::Query(TableQuery::Report(session)))
        }
    }
}

fn wait(row: &str) -> Result<TableOp, Fail> {
    Ok(TableOp::Wait {
        id: id(word(row, 3))?,
        run: 1,
        cycle: number(word(row, 4))?,
    })
}

fn outcome(word: &str) -> Outcome {
    match word {
        "halted" => Outcome::Halted(Halt::RootEmptied),
        "stopped" => Outcome::Stopped,
        _ => Outcome::Done,
    }
}

fn report(alloc: Global, cycle: u64, outcome: Outcome) -> CycleReport {
    CycleReport {
        cycle,
        outcome,
        conflicts: Items::new(alloc),
        problems: Items::new(alloc),
    }
}

fn ended(alloc: Global, row: &str) -> Result<TableOp, Fail> {
    let id = id(word(row, 3))?;
    let cycle = number(word(row, 4))?;
    Ok(TableOp::Ended {
        id,
        report: report(alloc, cycle, outcome(word(row, 5))),
    })
}

// What the daemon asks of a session by its identifier.
fn turn(alloc: Global, row: &str) -> Result<TableOp, Fail> {
    match word(row, 2) {
        "look" => Ok(TableOp::Look {
            id: id(word(row, 3))?,
        }),
        "begin" => Ok(TableOp::Begin {
            id: id(word(row, 3))?,
        }),
        _ => ended(alloc, row),
    }
}

/// The operation of a row.
pub fn operation(alloc: Global, row: &str) -> Result<TableOp, Fail> {
    match word(row, 2) {
        "query" => query(alloc, row),
        "wait" => wait(row),
        "look" | "begin" | "ended" => turn(alloc, row),
        _ => ask(alloc, row),
    }
}
