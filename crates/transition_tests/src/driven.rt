//! What changes ask of a root, and make of it.
use crate::driving::{Driven, ask, change};
use crate::held::push_held;
use entry_tree::Stamp;
use mem_roots::MemRoot;
use roots_api::{Answer, Op};
use std::alloc::Global;
use std::test::Fail;
use sync_path::Path;

// The edits, each with the number of the operation before which it is made; the change's path; what is staged; what is to be there; how the
// root ends it; and then what was asked, what landed, the problems, and what the root holds.
const ROWS: &str = "\
0 put f 1|f|1|/|_| remove f; drop f;; /
0 put f 1;1 put f 2|f|1|/|_| remove f;; f differs; / f=2
0 put f 1;1 del f|f|1|/|_| remove f;; f differs; /
0 dir d;0 put d/a 1;0 put d/b 2;2 put d/a 3|d|1|/|_| remove d/b remove d/a; drop d/b; d/a differs d skipped d/a; / d/ d/a=3
0 dir d;0 other d/o;0 put d/f 1;0 dir d/e;0 put d/e/g 2|d|1|/|_| remove d/f remove d/e/g remove d/e remove d; drop d/f drop d/e/g drop d/e; d not-empty; / d/ d/o!
0 dir d;0 dir d/e;0 other d/e/o;0 put d/e/f 1;0 put d/g 2|d|1|/|_| remove d/g remove d/e/f remove d/e; drop d/g drop d/e/f; d/e not-empty d skipped d/e; / d/ d/e/ d/e/o!
0 dir d;0 put d/f 1;2 other d/o|d|1|/|_| remove d/f remove d; drop d/f; d not-empty; / d/ d/o!
0 dir d;0 other d/o|d|1|/ d=1|_| remove d;; d not-empty d skipped d; / d/ d/o!
0 dir d;0 dir d/e;0 put d/e/f 1;0 put d/g 2|d/e|1|/|_| remove d/e/f remove d/e; drop d/e/f drop d/e;; / d/ d/g=2
1 put d 1|d|2|/ d/ d/e/ d/e/f=2|_| make d;; d differs d/e skipped d d/e/f skipped d; / d=1
2 put d/e 1|d|2|/ d/ d/e/ d/e/f=2 d/g=2|_| make d make d/e place d/g; set d set d/g; d/e differs d/e/f skipped d/e; / d/ d/e=1 d/g=2
0 put f 1|f|2|/ f/ f/g=2|_| remove f make f place f/g; drop f set f set f/g;; / f/ f/g=2
0 dir f;0 put f/g 2|f|1|/ f=1|_| remove f/g remove f place f; drop f/g drop f set f;; / f=1
0 dir f;0 put f/g 2;2 put f/h 3|f|1|/ f=1|_| remove f/g remove f; drop f/g; f not-empty f skipped f; / f/ f/h=3
0 put f 1|f|2|/ f=2|_| place f; set f;; / f=2
0 put f 1;1 put f 3|f|2|/ f=2|_| place f;; f differs; / f=3
0 link l x|l|1|/ l@y|_| link l; set l;; / l@y
0 link l x|l|1|/ l=1|_| place l; set l;; / l=1
0 link l x;1 link l z|l|1|/ l@y|_| link l;; l differs; / l@z
0 put f 1|f|1|/ f*1|_| exec f; set f;; / f*1
0 put f 1;1 put f 1|f|1|/ f*1|_| exec f;; f differs; / f=1
0 dir e|d|1|/ d/ d/a=1 d/b=1 d/c*1|_| make d place d/a place d/b place d/c; set d set d/a set d/b set d/c;; / d/ d/a=1 d/b=1 d/c*1 e/
0 dir d;1 del d|d/f|1|/ d/ d/f=1|_| place d/f;; d/f no-parent; /
0 dir d|d/f|2|/ d/ d/f=1|_| place d/f;; d/f not-staged; / d/
0 dir d|e|1|/|_|;;; / d/";

// The same where an operation of the change fails.
const FAILED: &str = "\
0 put f 1|f|2|/ f/ f/g=2|failed 0| remove f;;; / f=1
0 put f 1|f|2|/ f/ f/g=2|failed 1| remove f make f; drop f;; /
0 put f 1|f|2|/ f/ f/g=2|failed 2| remove f make f place f/g; drop f set f;; / f/
0 put f 1|f|2|/ f/ f/g=2|failed 3| remove f make f place f/g; drop f set f set f/g;; / f/ f/g=2
0 dir d;0 put d/a 1;0 put d/b 2;1 put d/b 3|d|1|/|failed 1| remove d/b remove d/a;; d/b differs; / d/ d/a=1 d/b=3
0 put f 1|f|2|/ f=2|failed 0| place f;;; / f=1
0 link l x|l|1|/ l@y|failed 0| link l;;; / l@x
0 put f 1|f|1|/ f*1|failed 0| exec f;;; / f=1";

// The same where the log has room for so many operations of the change.
const FULL: &str = "\
0 put f 1|f|2|/ f/ f/g=2|full 0| remove f;;; / f=1
0 put f 1|f|2|/ f/ f/g=2|full 1| remove f make f; drop f;; /
0 put f 1|f|2|/ f/ f/g=2|full 2| remove f make f place f/g; drop f set f;; / f/";

// A root that was asked nothing.
fn new_root(alloc: Global) -> Result<Driven, Fail> {
    Ok(Driven {
        root: MemRoot::new(alloc)?,
        asked: 0,
    })
}

// What comes of a row, and what is to come of it.
fn driven(alloc: Global, row: &str) -> Result<(String, String), Fail> {
    let mut words = row.split('|');
    let script = words.next().unwrap_or("");
    let path = words.next().unwrap_or("");
    let bytes = words.next().unwrap_or("");
    let new = words.next().unwrap_or("");
    let end = words.next().unwrap_or("");
    let wanted = String::from_str(alloc, words.next().unwrap_or(""))?;
    let mut driven = new_root(alloc)?;
    let mut text = change(alloc, &mut driven, script, path, bytes, new, end)?;
    text.push_str(";")?;
    push_held(alloc, &driven.root, &mut text)?;
    Ok((text, wanted))
}

#[test]
fn each_change_is_made(rt: HostRuntime) -> Result<(), Fail> {
    let alloc = rt.alloc();
    for row in ROWS.lines() {
        let (text, wanted) = driven(alloc, row)?;
        assert_eq!(rt; text.as_str(), wanted.as_str(), "{row}");
    }
    Ok(())
}

#[test]
fn nothing_follows_a_failure(rt: HostRuntime) -> Result<(), Fail> {
    let alloc = rt.alloc();
    for row in FAILED.lines() {
        let (text, wanted) = driven(alloc, row)?;
        assert_eq!(rt; text.as_str(), wanted.as_str(), "{row}");
    }
    Ok(())
}

#[test]
fn nothing_follows_a_full_root(rt: HostRuntime) -> Result<(), Fail> {
    let alloc = rt.alloc();
    for row in FULL.lines() {
        let (text, wanted) = driven(alloc, row)?;
        assert_eq!(rt; text.as_str(), wanted.as_str(), "{row}");
    }
    Ok(())
}

// Whether the file with the stamp stands at the path.
fn has_stamp(alloc: Global, driven: &mut Driven, path: &str, stamp: u128) -> Result<bool, Fail> {
    let op = Op::Fetch {
        path: Path::read(alloc, path)?,
        stamp: Stamp(stamp),
        offset: 0,
    };
    let answer = ask(alloc, driven, &op)?;
    Ok(matches!(&answer, Answer::Piece { .. }))
}

// Whether the file `f`, which was put first, has its stamp still once it was made another one.
fn keeps_stamp(alloc: Global, new: &str) -> Result<bool, Fail> {
    let mut driven = new_root(alloc)?;
    let _ = change(alloc, &mut driven, "0 put f 1", "f", "1 2", new, "_")?;
    has_stamp(alloc, &mut driven, "f", 0)
}

#[test]
fn the_bit_leaves_the_stamp(rt: HostRuntime) -> Result<(), Fail> {
    let alloc = rt.alloc();
    assert!(rt; keeps_stamp(alloc, "/ f*1")?);
    assert!(rt; !keeps_stamp(alloc, "/ f=2")?);
    Ok(())
}
