//! Where a line goes wrong: at the first word with which no request line begins any more, or at its end.
use crate::forms::FORMS;
use request_text::{BadLine, LineError, read_request, write_request};
use std::alloc::{AllocError, Global};
use std::test::Fail;

/// What a line is read as: its canonical line, or the place at which it is bad.
pub fn answer(alloc: Global, line: &str) -> Result<String, AllocError> {
    match read_request(alloc, line.as_bytes()) {
        Ok(asked) => write_request(alloc, &asked),
        Err(LineError::Bad(BadLine { place })) => bad(alloc, place),
        Err(LineError::Memory) => Err(AllocError),
    }
}

fn bad(alloc: Global, place: usize) -> Result<String, AllocError> {
    format!(in alloc; "bad {place}")
}

// `--//` is no word of any form: no keyword, root, session, path, number, endpoint or option.
#[test]
fn a_wrong_word_is_refused_at_its_place(rt: HostRuntime) -> Result<(), Fail> {
    let alloc = rt.alloc();
    for line in FORMS.lines() {
        let mut before = String::new(alloc);
        for word in line.split(' ') {
            let end = before.len().saturating_add(word.len());
            let behind = line.get(end..).unwrap_or("");
            let wrong = format!(in alloc; "{before}--//{behind}")?;
            assert_eq!(rt; answer(alloc, wrong.as_str())?, bad(alloc, before.len())?);
            before.push_str(word)?;
            before.push_str(" ")?;
        }
    }
    Ok(())
}

// A line that ends early is bad at its length. Only `sync list` is whole before a form's last word.
#[test]
fn a_line_that_ends_early_is_refused_at_its_length(rt: HostRuntime) -> Result<(), Fail> {
    let alloc = rt.alloc();
    for line in FORMS.lines() {
        for (end, _) in line.match_indices(' ') {
            let short = line.get(..end).unwrap_or("");
            if short != "sync list" {
                assert_eq!(rt; answer(alloc, short)?, bad(alloc, end)?);
            }
        }
    }
    Ok(())
}

#[test]
fn a_word_too_many_is_refused_at_its_place(rt: HostRuntime) -> Result<(), Fail> {
    let alloc = rt.alloc();
    for line in FORMS.lines() {
        let more = format!(in alloc; "{line} x")?;
        assert_eq!(rt;
            answer(alloc, more.as_str())?,
            bad(alloc, line.len().saturating_add(1))?
        );
    }
    Ok(())
}

// Each row is a line, and the place at which it is bad.
const ROWS: [(&str, usize); 12] = [
    ("sync list\r", 5),
    ("show A\r", 5),
    ("show A\t", 5),
    ("edit A put a =\x7f", 13),
    ("edit A put a =%0", 13),
    ("edit A put a =%0g", 13),
    ("edit A fill a 00 00", 14),
    ("edit A fill a 18446744073709551616 00", 14),
    ("step s 01", 7),
    ("conn f move near 18446744073709551616", 17),
    ("@c 07 sync flush s", 3),
    ("@c 18446744073709551616 sync flush s", 3),
];

#[test]
fn bytes_and_numbers_that_no_line_has_are_refused(rt: HostRuntime) -> Result<(), Fail> {
    let alloc = rt.alloc();
    for (line, place) in ROWS {
        assert_eq!(rt; answer(alloc, line)?, bad(alloc, place)?);
    }
    Ok(())
}
