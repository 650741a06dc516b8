//! Tests of the reader: messages in any pieces, and the places of bad bytes.
ghost use Rattle.std.specs.Prelude.{◌<◌};

use crate::bodies::written;
use crate::tables::{BAD, BODIES, bytes_of};
use agent_proto::{FeedError, Message, MessageReader, write_ask};
use roots_api::{Content, Op, Who};
use std::alloc::{AllocError, Global};
use std::test::*;

/// The messages of the bytes, fed in pieces of this size.
fn fed(alloc: Global, bytes: &[u8], size: usize) -> Result<Vec<Message>, FeedError>
    requires { 0 < size }
{
    let mut reader = MessageReader::new();
    let mut all = Vec::new(alloc);
    for piece in bytes.chunks(size) {
        for message in reader.feed(alloc, piece)? {
            all.push(message).map_err(AllocError::from)?;
        }
    }
    Ok(all)
}

/// The bytes of the messages, one behind the other.
fn spelled(alloc: Global, messages: &[Message]) -> Result<Vec<u8>, Fail> {
    let mut bytes = Vec::new(alloc);
    for message in messages {
        bytes.extend_from_slice(written(alloc, message)?.as_slice())?;
    }
    Ok(bytes)
}

/// A message of each kind, one behind the other.
fn stream(alloc: Global) -> Result<Vec<u8>, Fail> {
    let mut bytes = Vec::new(alloc);
    for digits in BODIES.lines() {
        let body = bytes_of(alloc, digits)?;
        let size = u32::try_from(body.len()).ok().ok_or("a short body")?;
        bytes.extend_from_slice(size.to_be_bytes().as_slice())?;
        bytes.extend_from_slice(body.as_slice())?;
    }
    Ok(bytes)
}

#[test]
fn a_stream_of_all_kinds_is_read_in_pieces_of_any_size(rt: HostRuntime) -> Result<(), Fail> {
    let bytes = stream(rt.alloc())?;
    let count = BODIES.lines().count();
    for size in [1, 2, 3, 5, 8, 13, 36, 37, 38, 100, 4096] {
        let got = fed(rt.alloc(), bytes.as_slice(), size)?;
        assert_eq!(rt; got.len(), count, "pieces of {size}");
        let again = spelled(rt.alloc(), got.as_slice())?;
        assert_eq!(rt; again.as_slice(), bytes.as_slice(), "pieces of {size}");
    }
    Ok(())
}

/// The place of the bad byte, where that is the answer.
fn place_of(answer: Result<Vec<Message>, FeedError>) -> Option<u64> {
    match answer {
        Err(FeedError::BadMessage { place }) => Some(place),
        _ => None,
    }
}

/// The place that a reader answers at the last byte, fed behind the others one by one, and again at a message behind it.
fn bad_at_last(alloc: Global, front: &[u8], last: u8) -> Option<u64> {
    let mut reader = MessageReader::new();
    for byte in front {
        if place_of(reader.feed(alloc, &[*byte])).is_some() {
            return None;
        }
    }
    let place = place_of(reader.feed(alloc, &[last]));
    if place_of(reader.feed(alloc, &[0, 0, 0, 1, 0x86])) == place {
        place
    } else {
        None
    }
}

#[test]
fn a_bad_byte_is_found_at_its_place_and_the_answer_stays(rt: HostRuntime) -> Result<(), Fail> {
    for digits in BAD.lines() {
        let bytes = bytes_of(rt.alloc(), digits)?;
        let (last, front) = bytes.as_slice().split_last().ok_or("a byte")?;
        let place = Some(front.len() as u64);
        let whole = place_of(fed(rt.alloc(), bytes.as_slice(), 4096));
        assert!(rt; whole == place, "{digits}");
        assert!(rt; bad_at_last(rt.alloc(), front, *last) == place, "{digits}");
    }
    Ok(())
}

/// The number of bytes that this message stages.
fn staged(message: &Message) -> Option<usize> {
    match message {
        Message::Ask(_, Op::StageAppend { bytes }) => Some(bytes.len()),
        _ => None,
    }
}

/// A message that stages so many bytes.
fn staging(alloc: Global, size: usize) -> Result<Vec<u8>, Fail> {
    let bytes = Content::from_vec(vec![in alloc; 7u8; size]?);
    let who = Who::Session {
        id: 7,
        run: 1,
        cycle: 2,
    };
    let message = write_ask(alloc, &who, &Op::StageAppend { bytes })?;
    Ok(Vec::from_slice(alloc, message.as_slice())?)
}

#[test]
fn the_longest_message_is_read_in_pieces(rt: HostRuntime) -> Result<(), Fail> {
    let bytes = staging(rt.alloc(), 67_108_831)?;
    let got = fed(rt.alloc(), bytes.as_slice(), 65_536)?;
    let message = got.as_slice().first().ok_or("a message")?;
    assert_eq!(rt; staged(message), Some(67_108_831));
    assert_eq!(rt; got.len(), 1);
    Ok(())
}
