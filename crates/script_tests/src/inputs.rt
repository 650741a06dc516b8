//! How a run reads its input, and how it ends.
use crate::playing::{output_of, replies_to};
use outside_io::StdSource;
use script_engine::{FlatRoots, Status};
use std::alloc::Global;
use std::io;
use std::io::Read;
use std::test::Fail;

const PUT_AND_SHOWN: &str = "ok edit\nok show A 2\n  . dir\n  \
    a file ba7816bf8f01cfea414140de5dae2223b00361a396177a9cb410ff61f20015ad\n";

#[test]
fn lines_end_with_newlines_or_with_the_input(rt: HostRuntime) -> Result<(), Fail> {
    let alloc = rt.alloc();
    for (script, wanted) in [
        ("", ""),
        ("\n\r\n\n", ""),
        ("show A", "ok show A 1\n  . dir\n"),
        ("show A\r\n", "ok show A 1\n  . dir\n"),
        ("show A\r", "refused 39 not-yet\n"),
    ] {
        let (text, status) = replies_to(alloc, script.as_bytes())?;
        assert_eq!(rt; text.as_str(), wanted, "of {script:?}");
        assert_eq!(rt; status.number(), 0);
    }
    Ok(())
}

#[test]
fn a_line_too_long_is_no_form(rt: HostRuntime) -> Result<(), Fail> {
    let alloc = rt.alloc();
    for (letters, wanted) in [(65_520, "ok edit\n"), (65_521, "refused 39 not-yet\n")] {
        let mut script = String::from_str(alloc, "edit A put abc =")?;
        for _ in 0..letters {
            script.push_str("x")?;
        }
        let (text, _) = replies_to(alloc, script.as_bytes())?;
        assert_eq!(rt; text.as_str(), wanted);
    }
    Ok(())
}

#[test]
fn other_words_read_and_write_nothing(rt: HostRuntime) -> Result<(), Fail> {
    let alloc = rt.alloc();
    let cases: [&[&str]; 5] = [
        &[],
        &["scrip"],
        &["script", "extra"],
        &["--help"],
        &["Script"],
    ];
    for words in cases {
        let mut source = StdSource::new(b"show A\n".as_slice());
        let mut roots = FlatRoots::two(alloc);
        let (text, status) = output_of(alloc, words, &mut source, &[], &mut roots)?;
        assert_eq!(rt; text.as_str(), "");
        assert_eq!(rt; status.number(), 2);
    }
    Ok(())
}

// A reader that gives its bytes in two pieces, and then ends or fails.
#[derive(Drop)]
struct TwoPieces<'a> {
    first: &'a [u8],
    second: &'a [u8],
    fails: bool,
}

impl<'a> Read for TwoPieces<'a> {
    fn read(&mut self, buf: &mut [u8]) -> io::Result<usize> {
        if self.first.is_empty() {
            self.first = self.second;
            self.second = &[];
        }
        let count = self.first.len().min(buf.len());
        if count == 0 && self.fails {
            return Err(io::Error::from(io::ErrorKind::Other));
        }
        buf[..count].copy_from_slice(&self.first[..count]);
        self.first = &self.first[count..];
        Ok(count)
    }
}

// What a run writes that reads these pieces, and how it ends. The writes with these numbers fail.
fn output_of_pieces(
    alloc: Global,
    reader: TwoPieces,
    failing: &[u64],
) -> Result<(String, Status), Fail> {
    let mut roots = FlatRoots::two(alloc);
    output_of(
        alloc,
        &["script"],
        &mut StdSource::new(reader),
        failing,
        &mut roots,
    )
}

#[test]
fn pieces_end_where_they_like(rt: HostRuntime) -> Result<(), Fail> {
    let alloc = rt.alloc();
    let script = "edit A put a =abc\r\n\nshow A\nshow Z";
    let wanted = format!(in alloc; "{PUT_AND_SHOWN}refused 13 no-root Z\n")?;
    for cut in 0..=script.len() {
        let (first, second) = script.as_bytes().split_at(cut.min(script.len()));
        let reader = TwoPieces {
            first,
            second,
            fails: false,
        };
        let (text, status) = output_of_pieces(alloc, reader, &[])?;
        assert_eq!(rt; text.as_str(), wanted.as_str(), "cut at {cut}");
        assert_eq!(rt; status, Status::Ok);
    }
    Ok(())
}

#[test]
fn a_failed_read_ends_the_run_behind_the_lines_that_ended(rt: HostRuntime) -> Result<(), Fail> {
    let reader = TwoPieces {
        first: b"edit A put a =abc\nshow A\n",
        second: b"show ",
        fails: true,
    };
    let (text, status) = output_of_pieces(rt.alloc(), reader, &[])?;
    assert_eq!(rt; text.as_str(), PUT_AND_SHOWN);
    assert_eq!(rt; status.number(), 3);
    Ok(())
}

#[test]
fn a_failed_write_ends_the_run_behind_the_replies_before(rt: HostRuntime) -> Result<(), Fail> {
    let reader = TwoPieces {
        first: b"edit A put a =\nshow A\nshow B\n",
        second: b"",
        fails: false,
    };
    let (text, status) = output_of_pieces(rt.alloc(), reader, &[1])?;
    assert_eq!(rt; text.as_str(), "ok edit\n");
    assert_eq!(rt; status.number(), 4);
    Ok(())
}
