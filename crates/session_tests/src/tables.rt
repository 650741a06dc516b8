//! Tables of operations and replies.
use crate::rows::{BLOCKS, FIRST_RUN, FULL, SECOND_RUN};
use crate::runs::{Way, reply_to, wrong_rows};
use command_words::SessionKind;
use session_table::{Row, Table};
use std::alloc::Global;
use std::test::Fail;

// The wrong rows of a block on a table of its own.
fn wrong_block(alloc: Global, block: &str, way: Way) -> Result<String, Fail> {
    let mut table = Table::new(alloc, 1);
    wrong_rows(alloc, &mut table, block, way)
}

#[test]
fn each_row_has_its_reply(rt: HostRuntime) -> Result<(), Fail> {
    let alloc = rt.alloc();
    for block in BLOCKS.split("\n\n") {
        assert_eq!(rt; wrong_block(alloc, block, Way::Whole)?.as_str(), "");
    }
    Ok(())
}

#[test]
fn each_row_has_its_reply_in_parts(rt: HostRuntime) -> Result<(), Fail> {
    let alloc = rt.alloc();
    for block in BLOCKS.split("\n\n") {
        assert_eq!(rt; wrong_block(alloc, block, Way::InParts)?.as_str(), "");
    }
    Ok(())
}

fn make(alloc: Global, table: &mut Table, number: u64) -> Result<(), Fail> {
    let row = format!(in alloc; "- - create sync - A+B - {number}")?;
    let _ = reply_to(alloc, table, row.as_str(), Way::Whole)?;
    Ok(())
}

fn ask_first(alloc: Global, table: &mut Table, number: u64) -> Result<(), Fail> {
    let row = format!(in alloc; "c{number} 1 pause sync nope")?;
    let _ = reply_to(alloc, table, row.as_str(), Way::Whole)?;
    Ok(())
}

// Makes 256 sessions, and lets 64 clients ask.
fn fill(alloc: Global, table: &mut Table) -> Result<(), Fail> {
    for number in 0..256u64 {
        make(alloc, table, number)?;
    }
    for number in 0..64u64 {
        ask_first(alloc, table, number)?;
    }
    Ok(())
}

fn wrong_when_full(alloc: Global) -> Result<String, Fail> {
    let mut table = Table::new(alloc, 1);
    fill(alloc, &mut table)?;
    wrong_rows(alloc, &mut table, FULL, Way::Whole)
}

#[test]
fn sessions_and_clients_are_bounded(rt: HostRuntime) -> Result<(), Fail> {
    assert_eq!(rt; wrong_when_full(rt.alloc())?.as_str(), "");
    Ok(())
}

// A table in its second run, and the wrong rows of both.
fn second_run(alloc: Global, wrong: &mut String) -> Result<Table, Fail> {
    let mut table = Table::new(alloc, 1);
    let first = wrong_rows(alloc, &mut table, FIRST_RUN, Way::Whole)?;
    wrong.push_str(first.as_str())?;
    table.set_run(2);
    let second = wrong_rows(alloc, &mut table, SECOND_RUN, Way::InParts)?;
    wrong.push_str(second.as_str())?;
    Ok(table)
}

// Whether a row is that of session 5.
fn is_fifth(row: Option<&Row>) -> bool {
    match row {
        Some(row) => row.id == 5,
        None => false,
    }
}

// Whether session 5 is found by its name and by its identifier, and by no other kind.
fn is_found(table: &Table) -> bool {
    let identifier = "sync_00000000-0000-0000-0000-000000000005";
    table.find(SessionKind::Sync, "s") == Some(5)
        && table.find(SessionKind::Sync, identifier) == Some(5)
        && table.find(SessionKind::Forward, "s").is_none()
}

// Whether session 5 is the one row.
fn is_only(table: &Table) -> bool {
    is_fifth(table.row(5)) && is_fifth(table.at(0)) && table.at(1).is_none()
}

#[test]
fn a_new_run_refuses_those_who_wait(rt: HostRuntime) -> Result<(), Fail> {
    let mut wrong = String::new(rt.alloc());
    let table = second_run(rt.alloc(), &mut wrong)?;
    assert_eq!(rt; wrong.as_str(), "");
    assert!(rt; is_found(&table));
    assert!(rt; is_only(&table));
    Ok(())
}
