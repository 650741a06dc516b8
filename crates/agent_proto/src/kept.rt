//! What the types of a message's fields keep, so that what is written is a message. These calls do nothing.
ghost use Rattle.std.specs.Prelude.{◌<◌, ◌≤◌, ◌^◌, length, IsTrue};
ghost use Rattle.std.specs.List.{AllByRecursion};
ghost use Rattle.roots_api.specs.Told.{IsSession};
ghost use Rattle.agent_proto.specs.Fields.{rows_field};
ghost use Rattle.agent_proto.specs.Messages.{op_fields, answer_fields, may_be_replaced, IsStamp, IsEntry, IsFound, IsAsking, IsOp, IsRow, IsTellable, IsAnswer};

use crate::limits::MAX_MESSAGE;
use entry_tree::{Entry, Stamp};
use roots_api::{Answer, Leaf, Op, Rows, Who};
use sync_path::Name;

/// Who asks, where it is a session.
pub(crate) fn kept_who(who: &Who)
    requires { IsSession who.now }
    ensures { IsAsking who.now }
{
    match who {
        Who::Editor => {}
        Who::Session { id, run, cycle } => {
            kept_id(*id);
            kept_run(*run);
            kept_number(*cycle);
        }
    }
}

/// The fields of a request that isn't too long.
pub(crate) fn kept_op(op: &Op)
    requires { length (op_fields op.now) ≤ MAX_MESSAGE }
    ensures { IsOp op.now }
{
    match op {
        Op::List { path } => {
            let _ = path.names();
        }
        Op::Fetch {
            path,
            stamp,
            offset,
        } => {
            let _ = path.names();
            kept_stamp(*stamp);
            kept_number(*offset);
        }
        Op::StageClear => {}
        Op::StageOpen => {}
        Op::StageAppend { bytes } => {
            let _ = bytes.as_slice();
        }
        Op::StageKeep { digest } => {
            let _ = digest.as_bytes();
        }
        Op::Place {
            path,
            digest,
            expected,
            ..
        } => {
            let _ = path.names();
            let _ = digest.as_bytes();
            kept_expected(expected);
        }
        Op::MakeDir { path } => {
            let _ = path.names();
        }
        Op::MakeLink {
            path,
            text,
            expected,
        } => {
            let _ = path.names();
            let _ = text.as_str();
            kept_expected(expected);
        }
        Op::Remove { path, expected } => {
            let _ = path.names();
            kept_entry(expected.entry());
        }
        Op::SetExec { path, expected, .. } => {
            let _ = path.names();
            kept_entry(&expected.entry());
        }
    }
}

/// The fields of an answer that isn't too long, where a piece keeps its limit.
pub(crate) fn kept_answer(answer: &Answer)
    requires { length (answer_fields answer.now) ≤ MAX_MESSAGE }
    ensures { IsTellable answer.now → IsAnswer answer.now }
{
    match answer {
        Answer::Listed(rows) => kept_rows(rows),
        Answer::Held(found) => kept_found(found),
        Answer::Piece { .. } => {}
        Answer::Changed(found) => kept_found(found),
        Answer::TooLarge(bytes) => kept_number(*bytes),
        Answer::Cleared => {}
        Answer::Opened => {}
        Answer::NotStaged => {}
        Answer::Kept => {}
        Answer::DigestDiffers { wanted, got } => {
            let _ = wanted.as_bytes();
            let _ = got.as_bytes();
        }
        Answer::Done(stamp) => {
            if let Some(stamp) = stamp {
                kept_stamp(*stamp);
            }
        }
        Answer::NoParent(found) => kept_found(found),
        Answer::Differs(found) => kept_found(found),
        Answer::NotEmpty => {}
        Answer::NoExec => {}
        Answer::Full(room) => {
            kept_number(room.log);
            kept_number(room.bytes);
        }
        Answer::Failed => {}
        Answer::NoLink => {}
    }
}

// The rows of a listing that isn't too long.
fn kept_rows(rows: &Rows)
    requires { length (rows_field rows.now) ≤ MAX_MESSAGE }
    ensures each { AllByRecursion IsRow rows.now }
    ensures few { length rows.now < 2 ^ 32 }
{
    for (name, entry) in rows.as_slice() {
        kept_row(name, entry);
    }
}

// A row.
fn kept_row(name: &Name, entry: &Entry)
    ensures { IsRow (name.now, entry.now) }
{
    let _ = name.as_str();
    kept_entry(entry);
}

// The bound of an identifier.
fn kept_id(id: u128)
    ensures { id < 2 ^ 128 }
{
    let _ = id;
}

// The bound of a run.
fn kept_run(run: u32)
    ensures { run < 2 ^ 32 }
{
    let _ = run;
}

// The bound of a number of eight bytes.
fn kept_number(number: u64)
    ensures { number < 2 ^ 64 }
{
    let _ = number;
}

// The bound of a stamp.
fn kept_stamp(stamp: Stamp)
    ensures { IsStamp stamp }
{
    kept_id(stamp.0);
}

// An entry.
fn kept_entry(entry: &Entry)
    ensures { IsEntry entry.now }
{
    match entry {
        Entry::Dir => {}
        Entry::File(stamp, _) => kept_stamp(*stamp),
        Entry::Link(text) => {
            let _ = text.as_str();
        }
        Entry::Other => {}
    }
}

// What stands at a path.
fn kept_found(found: &Option<Entry>)
    ensures { IsFound found.now }
{
    if let Some(entry) = found {
        kept_entry(entry);
    }
}

// What may be expected where a file or a link is put.
fn kept_expected(expected: &Option<Leaf>)
    ensures found { IsFound expected.now }
    ensures replaced { IsTrue (may_be_replaced expected.now) }
{
    if let Some(leaf) = expected {
        kept_entry(leaf.entry());
    }
}
