//! Tests of what no clause says: the bytes of each kind, written by hand from the table.

use crate::tables::{BODIES, BROKEN, KINDS, bytes_of};
use agent_proto::{
    Message, MessageReader, WriteFault, read_body, write_answer, write_ask, write_no_memory,
    write_too_long,
};
use bytes::Bytes;
use roots_api::{Answer, Content, Op, Who};
use std::alloc::Global;
use std::test::*;

/// The bytes of a session's request.
fn asked(alloc: Global, id: u128, run: u32, cycle: u64, op: &Op) -> Option<Bytes> {
    let who = Who::Session { id, run, cycle };
    write_ask(alloc, &who, op).ok()
}

/// The bytes of the message.
pub(crate) fn written(alloc: Global, message: &Message) -> Result<Vec<u8>, Fail> {
    let bytes = match message {
        Message::Ask(Who::Session { id, run, cycle }, op) => asked(alloc, *id, *run, *cycle, op),
        Message::Ask(Who::Editor, _) => None,
        Message::Answer(answer) => write_answer(alloc, answer).ok(),
        Message::NoMemory => write_no_memory(alloc).ok(),
        Message::TooLong(size) => write_too_long(alloc, *size).ok(),
    };
    let bytes = bytes.ok_or("a message that is written")?;
    Ok(Vec::from_slice(alloc, bytes.as_slice())?)
}

#[test]
fn each_kind_has_the_bytes_of_the_table(rt: HostRuntime) -> Result<(), Fail> {
    for digits in BODIES.lines() {
        let body = bytes_of(rt.alloc(), digits)?;
        let message = read_body(rt.alloc(), body.as_slice())?.ok_or("a message")?;
        let spelled = written(rt.alloc(), &message)?;
        let (length, behind) = spelled.split_at_checked(4).ok_or("a length")?;
        assert_eq!(rt; behind, body.as_slice());
        assert_eq!(rt; length, (body.len() as u32).to_be_bytes().as_slice());
    }
    Ok(())
}

/// The name of a request.
fn op_name(op: &Op) -> &'static str {
    match op {
        Op::List { .. } => "list",
        Op::Fetch { .. } => "fetch",
        Op::StageClear => "stage-clear",
        Op::StageOpen => "stage-open",
        Op::StageAppend { .. } => "stage-append",
        Op::StageKeep { .. } => "stage-keep",
        Op::Place { .. } => "place",
        Op::MakeDir { .. } => "make-dir",
        Op::MakeLink { .. } => "make-link",
        Op::Remove { .. } => "remove",
        Op::SetExec { .. } => "set-exec",
    }
}

/// The name of an answer.
fn answer_name(answer: &Answer) -> &'static str {
    match answer {
        Answer::Listed(_) => "listed",
        Answer::Held(_) => "held",
        Answer::Piece { .. } => "piece",
        Answer::Changed(_) => "changed",
        Answer::TooLarge(_) => "too-large",
        Answer::Cleared => "cleared",
        Answer::Opened => "opened",
        Answer::NotStaged => "not-staged",
        Answer::Kept => "kept",
        Answer::DigestDiffers { .. } => "digest-differs",
        Answer::Done(_) => "done",
        Answer::NoParent(_) => "no-parent",
        Answer::Differs(_) => "differs",
        Answer::NotEmpty => "not-empty",
        Answer::NoExec => "no-exec",
        Answer::Full(_) => "full",
        Answer::Failed => "failed",
        Answer::NoLink => "no-link",
    }
}

/// The name of a message.
fn message_name(message: &Message) -> &'static str {
    match message {
        Message::Ask(_, op) => op_name(op),
        Message::Answer(answer) => answer_name(answer),
        Message::NoMemory => "no-memory",
        Message::TooLong(_) => "too-long",
    }
}

#[test]
fn each_kind_is_the_message_of_the_table(rt: HostRuntime) -> Result<(), Fail> {
    for row in KINDS.lines() {
        let (name, digits) = row.split_once(' ').ok_or("a name")?;
        let body = bytes_of(rt.alloc(), digits)?;
        let message = read_body(rt.alloc(), body.as_slice())?.ok_or("a message")?;
        assert_eq!(rt; message_name(&message), name);
    }
    Ok(())
}

#[test]
fn other_bytes_are_no_message(rt: HostRuntime) -> Result<(), Fail> {
    for digits in BROKEN.lines() {
        let body = bytes_of(rt.alloc(), digits)?;
        assert!(rt;
            read_body(rt.alloc(), body.as_slice())?.is_none(),
            "{digits}"
        );
    }
    Ok(())
}

#[test]
fn a_request_is_written_and_read(rt: HostRuntime) -> Result<(), Fail> {
    let who = Who::Session {
        id: 7,
        run: 1,
        cycle: 2,
    };
    let bytes = write_ask(rt.alloc(), &who, &Op::StageClear)?;
    assert_eq!(rt; bytes.len(), 33);
    let mut reader = MessageReader::new();
    let messages = reader.feed(rt.alloc(), bytes.as_slice())?;
    assert!(rt; matches!(messages.as_slice(), [Message::Ask(_, Op::StageClear)]));
    Ok(())
}

/// How long the message would be that stages so many bytes.
fn staging(alloc: Global, size: usize) -> Result<Option<u64>, Fail> {
    let bytes = Content::from_vec(vec![in alloc; 7u8; size]?);
    let who = Who::Session {
        id: 7,
        run: 1,
        cycle: 2,
    };
    match write_ask(alloc, &who, &Op::StageAppend { bytes }) {
        Ok(message) => Ok(Some(message.len() as u64)),
        Err(WriteFault::TooLong(size)) => Ok(Some(size)),
        Err(WriteFault::Memory) => Ok(None),
    }
}

#[test]
fn the_longest_message_and_one_byte_more(rt: HostRuntime) -> Result<(), Fail> {
    assert_eq!(rt; staging(rt.alloc(), 67_108_831)?, Some(67_108_868));
    assert_eq!(rt; staging(rt.alloc(), 67_108_832)?, Some(67_108_865));
    Ok(())
}
