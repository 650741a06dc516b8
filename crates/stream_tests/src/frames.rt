//! Tests of what no clause says: the bytes of each kind of frame, readings of cut streams, and the places of bad bytes.
ghost use Rattle.std.specs.Prelude.{◌<◌};

use bytes::Bytes;
use mux_frames::{
    DataBytes, FeedError, FrameReader, MuxFrame, StreamId, WindowAmount, append_data, write_frame,
};
use std::alloc::Global;
use std::test::*;

fn stream(number: u32) -> Result<StreamId, Fail> {
    Ok(StreamId::new(number).ok_or("a stream's number")?)
}

/// A frame of each kind.
fn kinds(alloc: Global) -> Result<Vec<MuxFrame>, Fail> {
    let payload = DataBytes::new(Bytes::copy_from_slice(alloc, b"abc")?).ok_or("a payload")?;
    let amount = WindowAmount::new(16_384).ok_or("an amount")?;
    let mut frames = Vec::new(alloc);
    frames.push(MuxFrame::OpenStream(stream(1)?))?;
    frames.push(MuxFrame::Accept(stream(1)?))?;
    frames.push(MuxFrame::Payload(stream(1)?, payload))?;
    frames.push(MuxFrame::Window(stream(1)?, amount))?;
    frames.push(MuxFrame::CloseWrite(stream(1)?))?;
    frames.push(MuxFrame::Close(stream(u32::MAX)?))?;
    frames.push(MuxFrame::Heartbeat)?;
    Ok(frames)
}

/// The bytes of a frame of each kind, by the table of the format.
const KINDS: [u8; 44] = [
    1, 0, 0, 0, 1, // Open
    2, 0, 0, 0, 1, // Accept
    3, 0, 0, 0, 1, 0, 3, 97, 98, 99, // Data
    4, 0, 0, 0, 1, 0, 0, 64, 0, // Window
    5, 0, 0, 0, 1, // CloseWrite
    6, 255, 255, 255, 255, // Close
    7, 0, 0, 0, 0, // Heartbeat
];

#[test]
fn each_kind_has_the_bytes_of_the_table(rt: HostRuntime) -> Result<(), Fail> {
    let mut all = Vec::new(rt.alloc());
    for frame in &kinds(rt.alloc())? {
        let bytes = write_frame(rt.alloc(), frame)?;
        all.extend_from_slice(bytes.as_slice())?;
        assert!(rt; frame.copy()? == *frame);
    }
    assert_eq!(rt; all.as_slice(), KINDS.as_slice());
    let mut one = Vec::new(rt.alloc());
    append_data(&mut one, stream(1)?, b"abc")?;
    assert_eq!(rt; one.as_slice(), &KINDS[10..20]);
    Ok(())
}

/// What a reader answers to these pieces, one behind the other.
fn fed(rt: &HostRuntime, pieces: &[&[u8]]) -> Result<Vec<MuxFrame>, FeedError> {
    let mut reader = FrameReader::new();
    let mut all = Vec::new(rt.alloc());
    for piece in pieces {
        for frame in reader.feed(rt.alloc(), piece)? {
            all.push(frame).map_err(std::alloc::AllocError::from)?;
        }
    }
    Ok(all)
}

#[test]
fn a_stream_of_all_kinds_is_the_same_cut_at_each_byte(rt: HostRuntime) -> Result<(), Fail> {
    let want = kinds(rt.alloc())?;
    for at in 0..=KINDS.len() {
        let (front, back) = KINDS.split_at(at);
        let got = fed(&rt, &[front, back])?;
        assert!(rt; got.as_slice() == want.as_slice(), "cut at {at}");
    }
    Ok(())
}

/// Bytes of which the last is the first wrong one, and its place.
const BAD: [(&[u8], u64); 20] = [
    // no such kind
    (&[0], 0),
    (&[8], 0),
    (&[9], 0),
    (&[7, 0, 0, 0, 0, 9], 5),
    // stream 0, and a Heartbeat with a stream
    (&[1, 0, 0, 0, 0], 4),
    (&[2, 0, 0, 0, 0], 4),
    (&[3, 0, 0, 0, 0], 4),
    (&[4, 0, 0, 0, 0], 4),
    (&[6, 0, 0, 0, 0], 4),
    (&[7, 1], 1),
    (&[7, 0, 0, 1], 3),
    (&[7, 0, 0, 0, 1], 4),
    // a length of 0, of 16,385 and above
    (&[3, 0, 0, 0, 1, 0, 0], 6),
    (&[3, 0, 0, 0, 1, 64, 1], 6),
    (&[3, 0, 0, 0, 1, 65], 5),
    // an amount of 0, of 65,537 and above
    (&[4, 0, 0, 0, 1, 0, 0, 0, 0], 8),
    (&[4, 0, 0, 0, 1, 0, 1, 0, 1], 8),
    (&[4, 0, 0, 0, 1, 0, 1, 1], 7),
    (&[4, 0, 0, 0, 1, 0, 2], 6),
    (&[4, 0, 0, 0, 1, 1], 5),
];

#[test]
fn a_bad_byte_is_found_at_its_place_and_the_answer_stays(rt: HostRuntime) -> Result<(), Fail> {
    for (bytes, place) in BAD {
        let want = Some(FeedError::BadFrame { place });
        assert!(rt; fed(&rt, &[bytes]).err() == want, "whole, at {place}");
        let mut reader = FrameReader::new();
        let (last, front) = bytes.split_last().ok_or("a byte")?;
        for byte in front {
            assert!(rt; reader.feed(rt.alloc(), &[*byte]).is_ok(), "before {place}");
        }
        assert!(rt;
            reader.feed(rt.alloc(), &[*last]).err() == want,
            "byte by byte, at {place}"
        );
        assert!(rt;
            reader.feed(rt.alloc(), &KINDS).err() == want,
            "after {place}"
        );
    }
    Ok(())
}

fn filled(alloc: Global, size: usize) -> Result<DataBytes, Fail> {
    let bytes = Bytes::from_vec(vec![in alloc; 7u8; size]?)?;
    Ok(DataBytes::new(bytes).ok_or("a payload")?)
}

/// The frames of the bytes, fed in pieces of this size.
fn in_pieces(alloc: Global, bytes: &[u8], size: usize) -> Result<Vec<MuxFrame>, Fail>
    requires { 0 < size }
{
    let mut reader = FrameReader::new();
    let mut frames = Vec::new(alloc);
    for piece in bytes.chunks(size) {
        for got in reader.feed(alloc, piece).ok().ok_or("sound bytes")? {
            frames.push(got)?;
        }
    }
    Ok(frames)
}

#[test]
fn the_longest_frame_is_read_in_pieces_of_any_size(rt: HostRuntime) -> Result<(), Fail> {
    let frame = MuxFrame::Payload(stream(9)?, filled(rt.alloc(), 16_384)?);
    let bytes = write_frame(rt.alloc(), &frame)?;
    assert_eq!(rt; bytes.len(), 16_391);
    for size in [1, 5, 4_096, 16_390, 16_391] {
        let frames = in_pieces(rt.alloc(), bytes.as_slice(), size)?;
        assert_eq!(rt; frames.len(), 1);
        assert!(rt; frames[0] == frame, "in pieces of {size}");
    }
    Ok(())
}

#[test]
fn what_has_no_spelling_is_no_value(rt: HostRuntime) -> Result<(), Fail> {
    assert!(rt; StreamId::new(0).is_none());
    for (count, is_one) in [(0, false), (1, true), (65_536, true), (65_537, false)] {
        assert_eq!(rt; WindowAmount::new(count).is_some(), is_one);
    }
    for (size, is_one) in [(0, false), (1, true), (16_384, true), (16_385, false)] {
        let bytes = Bytes::from_vec(vec![in rt.alloc(); 0u8; size]?)?;
        assert_eq!(rt; DataBytes::new(bytes).is_some(), is_one);
    }
    Ok(())
}
