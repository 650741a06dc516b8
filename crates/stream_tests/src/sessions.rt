//! Tests of what no clause says: runs of sessions that are paused, cut and resumed.
use forward_core::{Forward, ForwardOp};
use mux_core::ReadAnswer;
use mux_link::Side2::{Far, Near};
use mux_link::{LinkBytes, LinkOp, LinkReply, Side2};
use std::alloc::Global;
use std::test::*;

/// Something that happens to a session.
enum Action {
    Open,
    /// So many bytes are written.
    Write(Side2, u32, usize),
    Read(Side2, u32, usize),
    Move(Side2, u64),
    Cut,
    Pause,
    Resume,
}

/// What was answered.
#[derive(Clone, Copy, Debug, PartialEq, Eq)]
enum Answer {
    Opened(u32),
    Wrote(usize),
    Got(usize),
    Empty,
    Broken,
    Done,
    Moved(u64),
    Paused,
    Cut,
    NoStream,
    /// None of the others.
    Other,
}

fn op_of(alloc: Global, action: &Action) -> Result<ForwardOp, Fail> {
    let op = match action {
        Action::Open => ForwardOp::Link(LinkOp::OpenStream),
        Action::Write(side, stream, count) => {
            let bytes = LinkBytes::new(vec![in alloc; 7u8; *count]?);
            ForwardOp::Link(LinkOp::Write(*side, *stream, bytes))
        }
        Action::Read(side, stream, most) => ForwardOp::Link(LinkOp::Read(*side, *stream, *most)),
        Action::Move(side, count) => ForwardOp::Link(LinkOp::Move(*side, *count)),
        Action::Cut => ForwardOp::Link(LinkOp::Cut),
        Action::Pause => ForwardOp::Pause,
        Action::Resume => ForwardOp::Resume,
    };
    Ok(op)
}

fn answer_of(reply: &LinkReply) -> Answer {
    match reply {
        LinkReply::Opened(number) => Answer::Opened(*number),
        LinkReply::Wrote(count) => Answer::Wrote(*count),
        LinkReply::Read(ReadAnswer::Got(bytes)) => Answer::Got(bytes.len()),
        LinkReply::Read(ReadAnswer::Empty) => Answer::Empty,
        LinkReply::Read(ReadAnswer::Broken) => Answer::Broken,
        LinkReply::Done => Answer::Done,
        LinkReply::Moved(count) => Answer::Moved(*count),
        LinkReply::Paused => Answer::Paused,
        LinkReply::Cut => Answer::Cut,
        LinkReply::NoStream => Answer::NoStream,
        _ => Answer::Other,
    }
}

/// The first row whose answer is another one.
fn differs(
    alloc: Global,
    session: &mut Forward,
    rows: &[(Action, Answer)],
) -> Result<Option<usize>, Fail> {
    for (index, (action, want)) in rows.iter().enumerate() {
        let reply = session.step(op_of(alloc, action)?);
        if answer_of(&reply) != *want {
            return Ok(Some(index));
        }
    }
    Ok(None)
}

/// A pause, what it leaves to be read, and two resumes, of which the second finds the session running.
const PAUSED: [(Action, Answer); 18] = [
    (Action::Open, Answer::Opened(1)),
    (Action::Write(Near, 1, 3), Answer::Wrote(3)),
    (Action::Move(Near, 100), Answer::Moved(15)),
    (Action::Write(Near, 1, 2), Answer::Wrote(2)),
    (Action::Pause, Answer::Done),
    (Action::Open, Answer::Paused),
    (Action::Move(Near, 100), Answer::Moved(0)),
    (Action::Read(Far, 1, 9), Answer::Got(3)),
    (Action::Cut, Answer::Done),
    (Action::Open, Answer::Paused),
    (Action::Read(Far, 1, 9), Answer::Broken),
    (Action::Resume, Answer::Done),
    (Action::Read(Near, 1, 9), Answer::NoStream),
    (Action::Open, Answer::Opened(2)),
    (Action::Resume, Answer::Done),
    (Action::Move(Near, 100), Answer::Moved(5)),
    (Action::Read(Far, 2, 9), Answer::Empty),
    (Action::Open, Answer::Opened(3)),
];

/// A cut is ended by a resume too, also where no stream was opened since the last one.
const CUT: [(Action, Answer); 8] = [
    (Action::Open, Answer::Opened(1)),
    (Action::Cut, Answer::Done),
    (Action::Open, Answer::Cut),
    (Action::Resume, Answer::Done),
    (Action::Pause, Answer::Done),
    (Action::Resume, Answer::Done),
    (Action::Open, Answer::Opened(2)),
    (Action::Read(Near, 1, 1), Answer::NoStream),
];

/// A session that begins paused.
const BEGUN: [(Action, Answer); 5] = [
    (Action::Open, Answer::Paused),
    (Action::Read(Near, 1, 1), Answer::NoStream),
    (Action::Move(Far, 1), Answer::Moved(0)),
    (Action::Resume, Answer::Done),
    (Action::Open, Answer::Opened(1)),
];

/// The first row of a new session's run whose answer is another one.
fn run(alloc: Global, paused: bool, rows: &[(Action, Answer)]) -> Result<Option<usize>, Fail> {
    let mut session = Forward::new(alloc, paused);
    differs(alloc, &mut session, rows)
}

#[test]
fn a_session_is_paused_and_resumed(rt: HostRuntime) -> Result<(), Fail> {
    assert_eq!(rt; run(rt.alloc(), false, &PAUSED)?, None);
    assert_eq!(rt; run(rt.alloc(), false, &CUT)?, None);
    assert_eq!(rt; run(rt.alloc(), true, &BEGUN)?, None);
    Ok(())
}
