//! Tests of what no clause says: the limits of writes and opens, frames that come, and how streams end.
use mux_core::{MuxEnd, MuxError, OpenError, ReadAnswer};
use mux_frames::FrameReader;
use std::alloc::Global;
use std::test::*;

/// Something that happens at an end.
enum Action {
    /// So many streams are opened.
    Open(u32),
    /// So many bytes are written on a stream.
    Write(u32, usize),
    /// Up to so many bytes are read from a stream.
    Read(u32, usize),
    CloseWrite(u32),
    Close(u32),
    /// Frames of these bytes come.
    Frames(&'static [u8]),
    /// Up to so many waiting bytes are taken.
    Outgoing(u64),
    Cut,
    /// The stream's credit is asked.
    Credit(u32),
}

/// What was answered.
#[derive(Clone, Copy, Debug, PartialEq, Eq)]
enum Answer {
    Number(u64),
    /// So many bytes, the first of which is this.
    Bytes(usize, u8),
    Done,
    Empty,
    End,
    Broken,
    Full(u32),
    NoStream,
    WriteClosed,
    /// The frame of this index breaks a rule.
    Protocol(usize),
    Memory,
}

fn refusal(error: MuxError, index: usize) -> Answer {
    match error {
        MuxError::NoStream => Answer::NoStream,
        MuxError::WriteClosed => Answer::WriteClosed,
        MuxError::Protocol(_) => Answer::Protocol(index),
        MuxError::Memory => Answer::Memory,
    }
}

fn open(end: &mut MuxEnd, count: u32) -> Answer {
    let mut last = 0;
    for _ in 0..count {
        if !end.is_near() || end.is_cut() {
            return Answer::Broken;
        }
        match end.open_stream() {
            Ok(number) => last = number,
            Err(OpenError::StreamsFull { live }) => return Answer::Full(live),
            Err(OpenError::Memory) => return Answer::Memory,
        }
    }
    Answer::Number(last as u64)
}

fn write(end: &mut MuxEnd, stream: u32, bytes: &[u8]) -> Answer {
    match end.write(stream, bytes) {
        Ok(count) => Answer::Number(count as u64),
        Err(error) => refusal(error, 0),
    }
}

fn bytes_of(bytes: &[u8]) -> Answer {
    match bytes.first() {
        Some(first) => Answer::Bytes(bytes.len(), *first),
        None => Answer::Bytes(0, 0),
    }
}

fn read(end: &mut MuxEnd, stream: u32, most: usize) -> Answer {
    if most == 0 {
        return Answer::Memory;
    }
    match end.read(stream, most) {
        Ok(ReadAnswer::Got(bytes)) => bytes_of(bytes.as_slice()),
        Ok(ReadAnswer::Empty) => Answer::Empty,
        Ok(ReadAnswer::End) => Answer::End,
        Ok(ReadAnswer::Broken) => Answer::Broken,
        Err(error) => refusal(error, 0),
    }
}

fn done(told: Result<(), MuxError>) -> Answer {
    match told {
        Ok(()) => Answer::Done,
        Err(error) => refusal(error, 0),
    }
}

fn frames(alloc: Global, end: &mut MuxEnd, bytes: &[u8]) -> Result<Answer, Fail> {
    let mut index = 0usize;
    for frame in FrameReader::new().feed(alloc, bytes)? {
        if end.is_cut() {
            return Ok(Answer::Broken);
        }
        if let Err(error) = end.on_frame(frame) {
            return Ok(refusal(error, index));
        }
        index = index.saturating_add(1);
    }
    Ok(Answer::Done)
}

fn act(alloc: Global, end: &mut MuxEnd, action: &Action) -> Result<Answer, Fail> {
    let answer = match action {
        Action::Open(count) => open(end, *count),
        Action::Write(stream, size) => {
            let bytes = vec![in alloc; 120u8; *size]?;
            write(end, *stream, &bytes)
        }
        Action::Read(stream, most) => read(end, *stream, *most),
        Action::CloseWrite(stream) => done(end.close_write(*stream)),
        Action::Close(stream) => done(end.close(*stream)),
        Action::Frames(bytes) => frames(alloc, end, bytes)?,
        Action::Outgoing(most) => bytes_of(end.outgoing(*most)?.as_slice()),
        Action::Cut => {
            end.cut();
            Answer::Number(end.waiting())
        }
        Action::Credit(stream) => match end.credit(*stream) {
            Some(credit) => Answer::Number(credit as u64),
            None => Answer::NoStream,
        },
    };
    Ok(answer)
}

/// The first row whose answer is another one.
fn differs(
    alloc: Global,
    end: &mut MuxEnd,
    rows: &[(Action, Answer)],
) -> Result<Option<usize>, Fail> {
    for (index, (action, want)) in rows.iter().enumerate() {
        if act(alloc, end, action)? != *want {
            return Ok(Some(index));
        }
    }
    Ok(None)
}

/// A stream's credit, and a Window beyond it. A write of 65,536 bytes has four frames, with seven bytes
/// before the 16,384 of each.
const CREDIT: [(Action, Answer); 11] = [
    (Action::Open(1), Answer::Number(1)),
    (Action::Outgoing(5), Answer::Bytes(5, 1)),
    (Action::Write(1, 65_536), Answer::Number(65_536)),
    (Action::Credit(1), Answer::Number(0)),
    (Action::Write(1, 1), Answer::Number(0)),
    (Action::Outgoing(100_000), Answer::Bytes(65_564, 3)),
    (Action::Frames(&[4, 0, 0, 0, 1, 0, 0, 0, 9]), Answer::Done),
    (Action::Credit(1), Answer::Number(9)),
    (
        Action::Frames(&[4, 0, 0, 0, 1, 0, 0, 255, 248]),
        Answer::Protocol(0),
    ),
    (Action::Credit(1), Answer::Number(9)),
    (Action::Credit(2), Answer::NoStream),
];

/// As many streams as may be live, and one more.
const FULL: [(Action, Answer); 5] = [
    (Action::Open(4_096), Answer::Number(4_096)),
    (Action::Open(1), Answer::Full(4_096)),
    (Action::Close(7), Answer::Done),
    (Action::Open(1), Answer::Number(4_097)),
    (Action::Open(1), Answer::Full(4_096)),
];

/// The last number, at an end made with the one before it.
const LAST: [(Action, Answer); 2] = [
    (Action::Open(1), Answer::Number(4_294_967_295)),
    (Action::Open(1), Answer::Full(1)),
];

#[test]
fn no_more_is_written_or_opened_than_is_allowed(rt: HostRuntime) -> Result<(), Fail> {
    let mut end = MuxEnd::new(rt.alloc(), true);
    assert_eq!(rt; differs(rt.alloc(), &mut end, &CREDIT)?, None);
    let mut end = MuxEnd::new(rt.alloc(), true);
    assert_eq!(rt; differs(rt.alloc(), &mut end, &FULL)?, None);
    let mut end = MuxEnd::after(rt.alloc(), true, 4_294_967_294);
    assert_eq!(rt; differs(rt.alloc(), &mut end, &LAST)?, None);
    Ok(())
}

/// Streams behind the number 3: 4 is live, and 5 was closed.
const NEAR: [(Action, Answer); 2] = [
    (Action::Open(2), Answer::Number(5)),
    (Action::Close(5), Answer::Done),
];

const FAR: [(Action, Answer); 2] = [
    (
        Action::Frames(&[1, 0, 0, 0, 4, 1, 0, 0, 0, 5]),
        Answer::Done,
    ),
    (Action::Close(5), Answer::Done),
];

fn with_two(alloc: Global, near: bool) -> Result<MuxEnd, Fail> {
    let mut end = MuxEnd::after(alloc, near, 3);
    let rows = if near { &NEAR } else { &FAR };
    match differs(alloc, &mut end, rows)? {
        None => Ok(end),
        Some(_) => Err(Fail::from("two streams")),
    }
}

/// Frames that come at such an end, and which of them breaks a rule, if one does.
const ARRIVALS: [(bool, &[u8], Answer); 27] = [
    // Open: at the far end with the next number alone
    (true, &[1, 0, 0, 0, 6], Answer::Protocol(0)),
    (false, &[1, 0, 0, 0, 6, 1, 0, 0, 0, 7], Answer::Done),
    (false, &[1, 0, 0, 0, 7], Answer::Protocol(0)),
    (false, &[1, 0, 0, 0, 5], Answer::Protocol(0)),
    // Accept: at the near end, once; ignored there of a stream that isn't live
    (true, &[2, 0, 0, 0, 4, 2, 0, 0, 0, 4], Answer::Protocol(1)),
    (true, &[2, 0, 0, 0, 5, 2, 0, 0, 0, 5], Answer::Done),
    (false, &[2, 0, 0, 0, 4], Answer::Protocol(0)),
    (false, &[2, 0, 0, 0, 5], Answer::Protocol(0)),
    // of a stream that was never opened, and of one up to the number that the end was made with
    (true, &[2, 0, 0, 0, 6], Answer::Protocol(0)),
    (true, &[3, 0, 0, 0, 6, 0, 1, 9], Answer::Protocol(0)),
    (true, &[4, 0, 0, 0, 6, 0, 0, 0, 1], Answer::Protocol(0)),
    (true, &[5, 0, 0, 0, 6], Answer::Protocol(0)),
    (true, &[6, 0, 0, 0, 6], Answer::Protocol(0)),
    (false, &[3, 0, 0, 0, 3, 0, 1, 9], Answer::Protocol(0)),
    (true, &[6, 0, 0, 0, 3], Answer::Protocol(0)),
    // ignored of a stream that isn't live any more
    (false, &[3, 0, 0, 0, 5, 0, 1, 9], Answer::Done),
    (true, &[4, 0, 0, 0, 5, 0, 1, 0, 0], Answer::Done),
    (true, &[5, 0, 0, 0, 5, 5, 0, 0, 0, 5], Answer::Done),
    (true, &[6, 0, 0, 0, 5, 6, 0, 0, 0, 5], Answer::Done),
    // Data and CloseWrite: before the CloseWrite and the Close alone; a second Close is none of the faults
    (
        true,
        &[5, 0, 0, 0, 4, 3, 0, 0, 0, 4, 0, 1, 9],
        Answer::Protocol(1),
    ),
    (true, &[5, 0, 0, 0, 4, 5, 0, 0, 0, 4], Answer::Protocol(1)),
    (
        true,
        &[6, 0, 0, 0, 4, 3, 0, 0, 0, 4, 0, 1, 9],
        Answer::Protocol(1),
    ),
    (true, &[6, 0, 0, 0, 4, 5, 0, 0, 0, 4], Answer::Protocol(1)),
    (
        true,
        &[5, 0, 0, 0, 4, 6, 0, 0, 0, 4, 6, 0, 0, 0, 4],
        Answer::Done,
    ),
    // a Window above the credit, and a Heartbeat
    (false, &[4, 0, 0, 0, 4, 0, 0, 0, 1], Answer::Protocol(0)),
    (true, &[7, 0, 0, 0, 0], Answer::Done),
    (false, &[7, 0, 0, 0, 0], Answer::Done),
];

#[test]
fn each_frame_is_taken_or_refused_by_the_rules(rt: HostRuntime) -> Result<(), Fail> {
    for (row, (near, bytes, want)) in ARRIVALS.iter().enumerate() {
        let mut end = with_two(rt.alloc(), *near)?;
        let got = frames(rt.alloc(), &mut end, bytes)?;
        assert_eq!(rt; got, *want, "row {row}");
    }
    Ok(())
}

/// What comes behind the bytes `abc`, whether the link is cut then, and what two reads behind them answer.
const ENDINGS: [(&[u8], bool, Answer, Answer); 8] = [
    (&[7, 0, 0, 0, 0], false, Answer::Empty, Answer::Empty),
    (&[5, 0, 0, 0, 4], false, Answer::End, Answer::End),
    (&[6, 0, 0, 0, 4], false, Answer::Broken, Answer::NoStream),
    (&[7, 0, 0, 0, 0], true, Answer::Broken, Answer::NoStream),
    (
        &[5, 0, 0, 0, 4, 6, 0, 0, 0, 4],
        false,
        Answer::End,
        Answer::End,
    ),
    (&[5, 0, 0, 0, 4], true, Answer::End, Answer::End),
    (&[6, 0, 0, 0, 4], true, Answer::Broken, Answer::NoStream),
    (
        &[5, 0, 0, 0, 4, 6, 0, 0, 0, 4],
        true,
        Answer::End,
        Answer::End,
    ),
];

#[test]
fn each_way_to_end_is_read_to_its_end(rt: HostRuntime) -> Result<(), Fail> {
    for (row, (bytes, is_cut, first, second)) in ENDINGS.iter().enumerate() {
        let mut end = with_two(rt.alloc(), row % 2 == 0)?;
        frames(rt.alloc(), &mut end, &[3, 0, 0, 0, 4, 0, 3, 97, 98, 99])?;
        frames(rt.alloc(), &mut end, bytes)?;
        if *is_cut {
            end.cut();
        }
        assert_eq!(rt; read(&mut end, 4, 2), Answer::Bytes(2, 97), "row {row}");
        assert_eq!(rt; read(&mut end, 4, 2), Answer::Bytes(1, 99), "row {row}");
        assert_eq!(rt; read(&mut end, 4, 2), *first, "row {row}");
        assert_eq!(rt; read(&mut end, 4, 2), *second, "row {row}");
    }
    Ok(())
}

const CLOSE_WRITE: &[u8] = &[5, 0, 0, 0, 4];

/// The other end's writing ends first, this end's first, and a cut.
const BOTH: [[(Action, Answer); 7]; 3] = [
    [
        (Action::Frames(CLOSE_WRITE), Answer::Done),
        (Action::Read(4, 1), Answer::End),
        (Action::Write(4, 2), Answer::Number(2)),
        (Action::CloseWrite(4), Answer::Done),
        (Action::Read(4, 1), Answer::NoStream),
        (Action::CloseWrite(4), Answer::NoStream),
        (Action::Frames(&[4, 0, 0, 0, 4, 0, 0, 0, 2]), Answer::Done),
    ],
    [
        (Action::CloseWrite(4), Answer::Done),
        (Action::Write(4, 2), Answer::WriteClosed),
        (Action::CloseWrite(4), Answer::WriteClosed),
        (Action::Frames(CLOSE_WRITE), Answer::Done),
        (Action::Read(4, 1), Answer::End),
        (Action::Read(4, 1), Answer::NoStream),
        (Action::Close(4), Answer::NoStream),
    ],
    [
        (
            Action::Frames(&[5, 0, 0, 0, 4, 6, 0, 0, 0, 4]),
            Answer::Done,
        ),
        (Action::Write(4, 1), Answer::WriteClosed),
        (Action::Cut, Answer::Number(0)),
        (Action::CloseWrite(4), Answer::WriteClosed),
        (Action::Read(4, 1), Answer::End),
        (Action::Close(4), Answer::Done),
        (Action::Outgoing(9), Answer::Bytes(0, 0)),
    ],
];

#[test]
fn a_stream_is_live_until_both_directions_have_ended(rt: HostRuntime) -> Result<(), Fail> {
    for (index, rows) in BOTH.iter().enumerate() {
        let mut end = with_two(rt.alloc(), true)?;
        assert_eq!(rt; differs(rt.alloc(), &mut end, rows)?, None, "run {index}");
    }
    Ok(())
}
