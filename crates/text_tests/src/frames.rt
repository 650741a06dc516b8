//! Tests of what no clause says: which bytes are payloads, with spellings written out by hand, and which frames can be made.
use entry_tree::{Atom, Digest};
use frame_text::{AgreedLines, Frame, PayloadError, ResetNumber, read_payload, text_of};
use mode_rules::AncestorLine;
use sqlite_items::Items;
use std::alloc::{AllocError, Global};
use std::test::Fail;
use sync_path::Path;

// Each row is a payload with `|` for LF: `+` before one that is read, and `-` before one that is refused.
const PAYLOADS: &str = "\
+v2 agree 1 2|set . dir
+v2 agree 4294967295 18446744073709551615|drop .|set a%20b link =%25
+v2 agree 0 0|set a file ba7816bf8f01cfea414140de5dae2223b00361a396177a9cb410ff61f20015ad x
+v1 agree 1 1|set a file ba7816bf8f01cfea414140de5dae2223b00361a396177a9cb410ff61f20015ad
+v1 reset 1
+v2 whole 3 18446744073709551615 0
+v2 whole 3 9 2|set . dir|set a dir|set a/b link =x
-
-v1 opened
-v1 agree 1 1|set a file ba7816bf8f01cfea414140de5dae2223b00361a396177a9cb410ff61f20015ad x
-v2 agree 1 2
-v2 agree 1 2|
-v2 agree 1 2|set . dir|
-v2 agree 01 2|set . dir
-v2 agree 4294967296 2|set . dir
-v2 agree 1 18446744073709551616|set . dir
-v2 agree 1  2|set . dir
-v2 agree 1 2 |set . dir
-v2 agree 1 2|set a%2fb dir
-v2 agree 1 2|set a%2Fb dir
-v2 agree 1 2|set a%c3%a4 dir
-v2 agree 1 2|set a untracked
-v2 agree 1 2|set a problem 1
-v2 agree 1 2|drop a dir
-v2 reset 1
-v1 reset 0
-v1 reset 1|drop a
-v1 whole 3 9 2
-v2 whole 3 9 2|set a dir|set . dir
-v2 whole 3 9 2|set . dir|set . dir
-v2 whole 3 9 2|drop a";

// Whether a row is to be read, and its text.
fn parts_of(row: &str) -> (bool, &str) {
    match row.strip_prefix('+') {
        Some(text) => (true, text),
        None => (false, row.strip_prefix('-').unwrap_or(row)),
    }
}

// The row's payload, with an LF for each `|`.
fn bytes_of(alloc: Global, row: &str) -> Result<Vec<u8>, AllocError> {
    let mut bytes = Vec::new(alloc);
    for b in row.as_bytes() {
        bytes.push(if *b == b'|' { b'\n' } else { *b })?;
    }
    Ok(bytes)
}

// What is written of the payload that is read, if one is.
fn read_back(alloc: Global, bytes: &[u8]) -> Result<Option<String>, AllocError> {
    match read_payload(alloc, bytes) {
        Ok(payload) => Ok(Some(text_of(alloc, &payload)?)),
        Err(PayloadError::Bad) => Ok(None),
        Err(PayloadError::Memory) => Err(AllocError),
    }
}

#[test]
fn bytes_are_a_payload_or_none(rt: HostRuntime) -> Result<(), Fail> {
    let alloc = rt.alloc();
    for row in PAYLOADS.lines() {
        let (is_read, text) = parts_of(row);
        let bytes = bytes_of(alloc, text)?;
        match read_back(alloc, bytes.as_slice())? {
            Some(written) => {
                assert!(rt; is_read);
                assert_eq!(rt; written.as_bytes(), bytes.as_slice());
            }
            None => assert!(rt; !is_read),
        }
    }
    Ok(())
}

// A line that sets an atom at the path `a`.
fn lines_of(alloc: Global, atom: Atom) -> Result<Items<AncestorLine>, AllocError> {
    let Ok(path) = Path::read(alloc, "a") else {
        return Err(AllocError);
    };
    let mut lines = Items::new(alloc);
    lines.push(AncestorLine::Set(path, atom))?;
    Ok(lines)
}

#[test]
fn a_frame_holds_what_can_be_spelt(rt: HostRuntime) -> Result<(), Fail> {
    let alloc = rt.alloc();
    assert!(rt; AgreedLines::of(Items::new(alloc)).is_none());
    assert!(rt; AgreedLines::of(lines_of(alloc, Atom::Untracked)?).is_none());
    assert!(rt; ResetNumber::of(0).is_none());
    let atom = Atom::File(Digest::of(b"abc"), true);
    if let Some(lines) = AgreedLines::of(lines_of(alloc, atom)?) {
        let frame = Frame::Agree {
            run: 7,
            cycle: 8,
            lines,
        };
        let copy = frame.copy(alloc)?;
        assert_eq!(rt;
            copy.bytes(alloc)?.as_slice(),
            b"v2 agree 7 8\nset a file ba7816bf8f01cfea414140de5dae2223b00361a396177a9cb410ff61f20015ad x".as_slice()
        );
    }
    Ok(())
}
