//! Rows that are done on a table.
use crate::operations::operation;
use crate::replies::push_reply;
use session_table::{Table, TableOp, TableReply};
use std::alloc::{AllocError, Global};
use std::test::Fail;

/// How an operation is done: in one step, or prepared and then applied.
#[derive(Clone, Copy)]
pub enum Way {
    Whole,
    InParts,
}

/// Does an operation in two parts: prepares it, and applies what was prepared.
pub fn in_parts(alloc: Global, table: &mut Table, op: &TableOp) -> Result<TableReply, AllocError> {
    let prepared = table.prepare(alloc, op)?;
    Ok(table.apply(prepared))
}

fn done(alloc: Global, table: &mut Table, op: TableOp, way: Way) -> Result<TableReply, AllocError> {
    match way {
        Way::Whole => Ok(table.step(alloc, op)),
        Way::InParts => in_parts(alloc, table, &op),
    }
}

/// Does the operation of a row, and gives its reply in words.
pub fn reply_to(alloc: Global, table: &mut Table, row: &str, way: Way) -> Result<String, Fail> {
    let mut text = String::new(alloc);
    let op = operation(alloc, row)?;
    let reply = done(alloc, table, op, way)?;
    push_reply(alloc, &mut text, &reply)?;
    Ok(text)
}

// Does a row, and writes it with its reply if that isn't the wanted one.
fn compare(
    alloc: Global,
    table: &mut Table,
    line: &str,
    way: Way,
    wrong: &mut String,
) -> Result<(), Fail> {
    let (row, wanted) = line.split_once(" =").unwrap_or((line, ""));
    let reply = reply_to(alloc, table, row, way)?;
    if reply.as_str() != wanted {
        wrong.push_str(row)?;
        wrong.push_str(" =")?;
        wrong.push_str(reply.as_str())?;
    }
    Ok(())
}

/// Does the rows of a block, and gives those whose reply isn't the wanted one, with their replies.
pub fn wrong_rows(alloc: Global, table: &mut Table, block: &str, way: Way) -> Result<String, Fail> {
    let mut wrong = String::new(alloc);
    for line in block.lines() {
        compare(alloc, table, line, way, &mut wrong)?;
    }
    Ok(wrong)
}
