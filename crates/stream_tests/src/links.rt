//! Tests of what no clause says: runs of credit and ends, and whole frames at a reader of a link that is cut.
use mux_core::ReadAnswer;
use mux_link::Side2::{Far, Near};
use mux_link::{LinkBytes, LinkOp, LinkReply, MuxPair, Side2};
use std::alloc::Global;
use std::test::*;

/// Something that happens at a pair.
enum Action {
    Open,
    /// So many times this byte is written.
    Fill(Side2, u32, usize, u8),
    Read(Side2, u32, usize),
    CloseWrite(Side2, u32),
    Close(Side2, u32),
    Move(Side2, u64),
    Cut,
}

/// What was answered.
#[derive(Clone, Copy, Debug, PartialEq, Eq)]
enum Answer {
    Opened(u32),
    Wrote(usize),
    /// So many bytes, each of which is this one.
    Got(usize, u8),
    /// Bytes that aren't all the same.
    Mixed,
    Empty,
    End,
    Broken,
    Done,
    Moved(u64),
    Full(u32),
    Cut,
    NoStream,
    WriteClosed,
    /// None of the others.
    Other,
}

fn op_of(alloc: Global, action: &Action) -> Result<LinkOp, Fail> {
    let op = match action {
        Action::Open => LinkOp::OpenStream,
        Action::Fill(side, stream, count, byte) => {
            let bytes = vec![in alloc; *byte; *count]?;
            LinkOp::Write(*side, *stream, LinkBytes::new(bytes))
        }
        Action::Read(side, stream, most) => LinkOp::Read(*side, *stream, *most),
        Action::CloseWrite(side, stream) => LinkOp::CloseWrite(*side, *stream),
        Action::Close(side, stream) => LinkOp::Close(*side, *stream),
        Action::Move(side, count) => LinkOp::Move(*side, *count),
        Action::Cut => LinkOp::Cut,
    };
    Ok(op)
}

fn bytes_of(bytes: &[u8]) -> Answer {
    let first = match bytes.first() {
        Some(first) => *first,
        None => 0,
    };
    if bytes.iter().all(|byte| *byte == first) {
        Answer::Got(bytes.len(), first)
    } else {
        Answer::Mixed
    }
}

fn answer_of(reply: &LinkReply) -> Answer {
    match reply {
        LinkReply::Opened(number) => Answer::Opened(*number),
        LinkReply::Wrote(count) => Answer::Wrote(*count),
        LinkReply::Read(ReadAnswer::Got(bytes)) => bytes_of(bytes.as_slice()),
        LinkReply::Read(ReadAnswer::Empty) => Answer::Empty,
        LinkReply::Read(ReadAnswer::End) => Answer::End,
        LinkReply::Read(ReadAnswer::Broken) => Answer::Broken,
        LinkReply::Done => Answer::Done,
        LinkReply::Moved(count) => Answer::Moved(*count),
        LinkReply::StreamsFull(live) => Answer::Full(*live),
        LinkReply::Cut => Answer::Cut,
        LinkReply::NoStream => Answer::NoStream,
        LinkReply::WriteClosed => Answer::WriteClosed,
        _ => Answer::Other,
    }
}

/// The first row whose answer is another one.
fn differs(
    alloc: Global,
    pair: &mut MuxPair,
    rows: &[(Action, Answer)],
) -> Result<Option<usize>, Fail> {
    for (index, (action, want)) in rows.iter().enumerate() {
        let reply = pair.step(op_of(alloc, action)?);
        if answer_of(&reply) != *want {
            return Ok(Some(index));
        }
    }
    Ok(None)
}

/// A credit of 65,536 bytes, used up and given back in part, and what a cut leaves.
const CREDIT: [(Action, Answer); 14] = [
    (Action::Open, Answer::Opened(1)),
    (Action::Fill(Near, 1, 100_000, b'x'), Answer::Wrote(65_536)),
    (Action::Fill(Near, 1, 1, b'x'), Answer::Wrote(0)),
    // 5 bytes of Open and four frames of 16,391
    (Action::Move(Near, 70_000), Answer::Moved(65_569)),
    (Action::Read(Far, 1, 16_384), Answer::Got(16_384, b'x')),
    // Accept and Window
    (Action::Move(Far, 100), Answer::Moved(14)),
    (Action::Fill(Near, 1, 100_000, b'y'), Answer::Wrote(16_384)),
    (Action::Cut, Answer::Done),
    (Action::Read(Far, 1, 65_536), Answer::Got(49_152, b'x')),
    (Action::Read(Far, 1, 1), Answer::Broken),
    (Action::Open, Answer::Cut),
    (Action::Read(Far, 9, 1), Answer::NoStream),
    (Action::Move(Near, 100), Answer::Moved(0)),
    (Action::Fill(Near, 1, 1, b'x'), Answer::WriteClosed),
];

/// Both directions of a stream, each ended by its writer, and one that is closed.
const ENDS: [(Action, Answer); 23] = [
    (Action::Open, Answer::Opened(1)),
    (Action::Open, Answer::Opened(2)),
    (Action::Read(Far, 1, 1), Answer::NoStream),
    (Action::Move(Near, 10), Answer::Moved(10)),
    (Action::Move(Far, 10), Answer::Moved(10)),
    (Action::Fill(Near, 1, 3, b'a'), Answer::Wrote(3)),
    (Action::Fill(Near, 1, 2, b'b'), Answer::Wrote(2)),
    (Action::CloseWrite(Near, 1), Answer::Done),
    (Action::CloseWrite(Near, 1), Answer::WriteClosed),
    (Action::Fill(Near, 1, 0, b'b'), Answer::WriteClosed),
    (Action::Read(Far, 1, 9), Answer::Empty),
    (Action::Move(Near, u64::MAX), Answer::Moved(24)),
    (Action::Read(Far, 1, 4), Answer::Mixed),
    (Action::Read(Far, 1, 4), Answer::Got(1, b'b')),
    (Action::Read(Far, 1, 4), Answer::End),
    (Action::Fill(Far, 1, 1, b'c'), Answer::Wrote(1)),
    (Action::CloseWrite(Far, 1), Answer::Done),
    (Action::Read(Far, 1, 1), Answer::NoStream),
    (Action::Close(Far, 2), Answer::Done),
    (Action::Close(Far, 2), Answer::NoStream),
    (Action::Move(Far, u64::MAX), Answer::Moved(36)),
    (Action::Read(Near, 1, 2), Answer::Got(1, b'c')),
    (Action::Read(Near, 2, 1), Answer::Broken),
];

/// A write of no bytes and a read of at most none, at a stream that is live and at one that isn't.
const NOTHING: [(Action, Answer); 7] = [
    (Action::Fill(Near, 1, 0, b'x'), Answer::NoStream),
    (Action::Read(Near, 1, 0), Answer::NoStream),
    (Action::Open, Answer::Opened(1)),
    (Action::Fill(Near, 1, 0, b'x'), Answer::Wrote(0)),
    (Action::Read(Near, 1, 0), Answer::Got(0, 0)),
    (Action::Move(Near, 0), Answer::Moved(0)),
    (Action::Move(Near, 100), Answer::Moved(5)),
];

/// The last number, at a pair made with the one before it.
const LAST: [(Action, Answer); 2] = [
    (Action::Open, Answer::Opened(4_294_967_295)),
    (Action::Open, Answer::Full(1)),
];

#[test]
fn each_step_answers_as_it_should(rt: HostRuntime) -> Result<(), Fail> {
    for (run, rows) in [&CREDIT[..], &ENDS[..], &NOTHING[..]].iter().enumerate() {
        let mut pair = MuxPair::new(rt.alloc());
        assert_eq!(rt; differs(rt.alloc(), &mut pair, rows)?, None, "run {run}");
    }
    let mut pair = MuxPair::after(rt.alloc(), 4_294_967_294);
    assert_eq!(rt; differs(rt.alloc(), &mut pair, &LAST)?, None);
    Ok(())
}

/// How many Data frames carry a write of 65,536 bytes, and how many bytes each has.
const FRAMES: usize = 4;

const FRAME_SIZE: u64 = 16_391;

/// How many bytes an Open has.
const OPEN_SIZE: u64 = 5;

/// Moves the bytes of one frame one by one; before the last of them, the reader is answered as before.
fn moves_frame(pair: &mut MuxPair, size: u64, before: Answer) -> bool {
    for _ in 0..size {
        let early = pair.step(LinkOp::Read(Far, 1, 65_536));
        if answer_of(&early) != before {
            return false;
        }
        let moved = pair.step(LinkOp::Move(Near, 1));
        if answer_of(&moved) != Answer::Moved(1) {
            return false;
        }
    }
    true
}

#[test]
fn a_reader_gets_whole_frames_wherever_the_link_is_cut(rt: HostRuntime) -> Result<(), Fail> {
    let mut pair = MuxPair::new(rt.alloc());
    assert_eq!(rt; differs(rt.alloc(), &mut pair, &CREDIT[..2])?, None);
    assert!(rt; moves_frame(&mut pair, OPEN_SIZE, Answer::NoStream));
    for _ in 0..FRAMES {
        assert!(rt; moves_frame(&mut pair, FRAME_SIZE, Answer::Empty));
        let reply = pair.step(LinkOp::Read(Far, 1, 65_536));
        assert_eq!(rt; answer_of(&reply), Answer::Got(16_384, b'x'));
    }
    Ok(())
}
