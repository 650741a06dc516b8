//! Tests of what no clause says: lines of cut inputs, faults of reads and writes, adapters, dice, ticks and identifiers.
ghost use Rattle.std.specs.Prelude.{map, IfOk, OnErr, OnOk};
ghost use Rattle.outside_io.specs.MemInput.{HasNoEmpty};

use outside_io::{
    CountDice, Dice, Failed, Line, LineFault, LineReader, MOST_LINE_BYTES, MemDice, MemSink,
    MemSource, MemTick, StdSink, StdSource, SystemDice, Tick, make_identifier, send,
};
use std::alloc::{AllocError, Global};
use std::io;
use std::io::{Error, ErrorKind, Read};
use std::test::Fail;
use uuid::Uuid;

// Adds a piece, if it has bytes.
fn add_piece(alloc: Global, pieces: &mut Vec<Vec<u8>>, piece: &[u8]) -> Result<(), AllocError>
    requires { HasNoEmpty (map (λ p. p.items) pieces.old.items) }
    ensures { HasNoEmpty (map (λ p. p.items) pieces.new.items) }
{
    if !piece.is_empty() {
        let piece = Vec::from_slice(alloc, piece)?;
        pieces.push(piece)?;
    }
    Ok(())
}

// The input in two pieces, the first of `first` bytes, and a source of them whose calls with these
// numbers fail.
fn source_of(
    alloc: Global,
    input: &[u8],
    first: usize,
    calls: &[u64],
) -> Result<MemSource, AllocError> {
    let mut pieces = Vec::new(alloc);
    let (front, back) = input.split_at(first.min(input.len()));
    add_piece(alloc, &mut pieces, front)?;
    add_piece(alloc, &mut pieces, back)?;
    MemSource::new(alloc, pieces, calls)
}

// The lines of a source, each with a newline behind it, and then how it ended. A line that is too
// long is a single byte 0. After want of memory it goes on.
fn lines_of(
    alloc: Global,
    source: &mut MemSource,
) -> Result<(Vec<u8>, Option<LineFault>), AllocError> {
    let mut reader = LineReader::new(alloc);
    let mut text = Vec::new(alloc);
    for _ in 0..100 {
        match reader.next(alloc, source) {
            Ok(Some(Line::Full(line))) => text.extend_from_slice(line.as_slice())?,
            Ok(Some(Line::TooLong)) => text.push(0)?,
            Ok(None) => return Ok((text, None)),
            Err(LineFault::Memory) => continue,
            Err(fault) => return Ok((text, Some(fault))),
        }
        text.push(b'\n')?;
    }
    Ok((text, None))
}

#[test]
fn lines_however_the_input_is_cut(rt: HostRuntime) -> Result<(), Fail> {
    let inputs: [(&[u8], &[u8]); 5] = [
        (b"", b""),
        (b"\n", b"\n"),
        (b"one\r\ntwo\n", b"one\ntwo\n"),
        (b"\r\n\na\rb\r\r\nlast", b"\n\na\rb\r\nlast\n"),
        (b"x\ny\r", b"x\ny\r\n"),
    ];
    for (input, want) in inputs {
        for first in 0..input.len() + 1 {
            let mut source = source_of(rt.alloc(), input, first, &[])?;
            let (text, fault) = lines_of(rt.alloc(), &mut source)?;
            assert_eq!(rt; text.as_slice(), want, "cut at {first}");
            assert_eq!(rt; fault, None);
        }
    }
    Ok(())
}

#[test]
fn a_line_is_too_long_from_65537_bytes_on(rt: HostRuntime) -> Result<(), Fail> {
    let ends: [(&[u8], usize, bool); 8] = [
        (b"", 0, false),
        (b"", 1, true),
        (b"\n", 0, false),
        (b"\n", 1, true),
        (b"\r\n", 0, false),
        (b"\r\n", 1, true),
        (b"\r", 0, true),
        (b"\nnext\n", 70_000, true),
    ];
    for (end, more, too_long) in ends {
        let mut input = vec![in rt.alloc(); b'x'; MOST_LINE_BYTES + more]?;
        input.extend_from_slice(end)?;
        let mut source = source_of(rt.alloc(), input.as_slice(), 5, &[])?;
        let mut reader = LineReader::new(rt.alloc());
        let line = reader
            .next(rt.alloc(), &mut source)
            .expect(&rt, "a line")
            .expect(&rt, "a line");
        match line {
            Line::TooLong => assert!(rt; too_long, "{more} more"),
            Line::Full(line) => {
                assert!(rt; !too_long, "{more} more");
                assert_eq!(rt; line.len(), MOST_LINE_BYTES);
            }
        }
    }
    Ok(())
}

#[test]
fn a_read_fault_stays(rt: HostRuntime) -> Result<(), Fail> {
    let mut source = source_of(rt.alloc(), b"one\ntwo\nth", 6, &[1])?;
    let mut reader = LineReader::new(rt.alloc());
    assert!(rt;
        matches!(
            reader.next(rt.alloc(), &mut source),
            Ok(Some(Line::Full(_)))
        )
    );
    for _ in 0..3 {
        match reader.next(rt.alloc(), &mut source) {
            Err(fault) => assert_eq!(rt; fault, LineFault::ReadFault),
            Ok(_) => assert!(rt; false, "an answer behind a fault"),
        }
    }
    Ok(())
}

#[test]
fn what_was_sent_before_a_write_failed_stands(rt: HostRuntime) -> Result<(), Fail> {
    let mut sink = MemSink::new(rt.alloc(), &[1])?;
    assert_eq!(rt; send(&mut sink, b"one\n"), Ok(()));
    assert_eq!(rt; send(&mut sink, b""), Ok(()));
    assert_eq!(rt; send(&mut sink, b"two\n"), Err(Failed));
    assert_eq!(rt; sink.bytes(), b"one\n".as_slice());
    Ok(())
}

// A reader that is interrupted, and then gives what it has.
#[derive(Drop)]
struct Interrupted<'a> {
    first: bool,
    bytes: &'a [u8],
}

impl Read for Interrupted<'_> {
    fn read(&mut self, buf: &mut [u8]) -> io::Result<usize> {
        if self.first {
            self.first = false;
            return Err(Error::from(ErrorKind::Interrupted));
        }
        self.bytes.read(buf)
    }
}

#[test]
fn adapters(rt: HostRuntime) -> Result<(), Fail> {
    let mut source = StdSource::new(b"one\ntwo".as_slice());
    let mut reader = LineReader::new(rt.alloc());
    let line = reader.next(rt.alloc(), &mut source).expect(&rt, "a line");
    assert_eq!(rt;
        line,
        Some(Line::Full(Vec::from_slice(rt.alloc(), b"one")?))
    );
    assert_eq!(rt; source.into_inner(), b"".as_slice());

    let mut source = StdSource::new(Interrupted {
        first: true,
        bytes: b"one\n",
    });
    let mut reader = LineReader::new(rt.alloc());
    assert!(rt;
        matches!(
            reader.next(rt.alloc(), &mut source),
            Err(LineFault::ReadFault)
        )
    );

    let mut sink = StdSink::new(Vec::new(rt.alloc()));
    assert_eq!(rt; send(&mut sink, b"one\n"), Ok(()));
    assert_eq!(rt; sink.into_inner().as_slice(), b"one\n".as_slice());

    // Room for two bytes: the third write takes nothing.
    let mut room = [0u8; 2];
    let mut sink = StdSink::new(room.as_mut_slice());
    assert_eq!(rt; send(&mut sink, b"one"), Err(Failed));
    drop(sink);
    assert_eq!(rt; room, *b"on");
    Ok(())
}

#[test]
fn dice_and_ticks_give_what_they_hold(rt: HostRuntime) -> Result<(), Fail> {
    let words = vec![in rt.alloc(); [1; 16], [2; 16]]?;
    let mut dice = MemDice::new(rt.alloc(), words, &[1])?;
    for want in [Ok([1; 16]), Err(Failed), Ok([2; 16]), Err(Failed)] {
        assert_eq!(rt; dice.sixteen(), want);
    }
    let moments = vec![in rt.alloc(); 0, 5]?;
    let mut tick = MemTick::new(rt.alloc(), moments, &[0])?;
    for want in [Err(Failed), Ok(0), Ok(5), Err(Failed)] {
        assert_eq!(rt; tick.tick(), want);
    }
    Ok(())
}

#[test]
fn dice_count_in_big_endian(rt: HostRuntime) -> Result<(), Fail> {
    let mut dice = CountDice::new();
    for want in 0..300u64 {
        assert_eq!(rt; dice.sixteen(), Ok((want as u128).to_be_bytes()));
    }
    let mut system = SystemDice::new(&rt);
    assert_ne!(rt; system.sixteen(), system.sixteen());
    Ok(())
}

#[test]
fn identifiers_are_of_version_4(rt: HostRuntime) -> Result<(), Fail> {
    for (byte, text) in [
        (0x00, "00000000-0000-4000-8000-000000000000"),
        (0xff, "ffffffff-ffff-4fff-bfff-ffffffffffff"),
        (0x5a, "5a5a5a5a-5a5a-4a5a-9a5a-5a5a5a5a5a5a"),
    ] {
        let mut buffer = Uuid::encode_buffer();
        let identifier = make_identifier([byte; 16]);
        assert_eq!(rt; identifier.hyphenated().encode_lower(&mut buffer), text);
    }
    Ok(())
}
