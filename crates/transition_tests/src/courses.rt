//! The course of changes.
use crate::trees::{stamps_of, subtree_of};
use crate::words::{push_line, push_op, push_problem};
use entry_tree::Side;
use mode_rules::{Cause, Change, Problem};
use roots_api::Answer;
use std::alloc::Global;
use std::test::Fail;
use sync_path::Path;
use transition_plan::Steps;

// The change's path; what is there; what is to be there; the file that wasn't staged; the answers (D done, X differs, E not empty, F failed, M no
// memory); and then what was asked, what landed, and the problems.
const ROWS: &str = "\
d|/ d/ d/f=1|/|_|DD| remove d/f remove d; drop d/f drop d;
d|/ d/ d/f=1|/|_|X| remove d/f;; d/f differs d skipped d/f
d|/ d/ d/a=1 d/e/ d/e/g=2|/|_|DEX| remove d/e/g remove d/e remove d/a; drop d/e/g; d/e not-empty d/a differs d skipped d/e
d|/|/ d/ d/e/ d/e/f=1|_|X| make d;; d differs d/e skipped d d/e/f skipped d
d|/|/ d/ d/e/ d/e/f=1 d/g=1|_|DXD| make d make d/e place d/g; set d set d/g; d/e differs d/e/f skipped d/e
d|/|/ d/ d/e=1 d/g=2|d/e|DD| make d place d/g; set d set d/g;
f|/ f=1|/ f/ f/g=2|_|DDD| remove f make f place f/g; drop f set f set f/g;
f|/ f=1|/ f/ f/g=2|_|X| remove f;; f differs f skipped f f/g skipped f
f|/ f=1|/ f/ f/g=2|f/g|X| remove f;; f differs f skipped f
f|/ f/ f/g=2|/ f=1|f|D|;;
f|/ f=1|/ f=2|_|D| place f; set f;
f|/ f=1|/ f@x|_|M| link f;; f no-memory
f|/ f=1|/ f*1|_|D| exec f; set f;
d|/ d/ d/a=1 d/b=2|/|_|DF| remove d/b remove d/a; drop d/b;
d|/|/|_|D|;;";

// Takes what a letter stands for.
fn take(steps: &mut Steps, letter: char) {
    match letter {
        'D' => steps.take(Some(&Answer::Done(None))),
        'X' => steps.take(Some(&Answer::Differs(None))),
        'E' => steps.take(Some(&Answer::NotEmpty)),
        'F' => steps.take(Some(&Answer::Failed)),
        _ => steps.take(None),
    }
}

// Writes what is asked next, and takes the answer.
fn turn(alloc: Global, steps: &mut Steps, text: &mut String, letter: char) -> Result<(), Fail> {
    if let Some(op) = steps.next() {
        push_op(alloc, text, op)?;
    }
    take(steps, letter);
    Ok(())
}

/// Writes what came of it, with what would be asked next.
pub fn push_end(alloc: Global, steps: &Steps, text: &mut String) -> Result<(), Fail> {
    if let Some(op) = steps.next() {
        push_op(alloc, text, op)?;
    }
    text.push_str(";")?;
    for line in steps.landed() {
        push_line(alloc, text, line)?;
    }
    text.push_str(";")?;
    for problem in steps.problems(alloc)?.as_slice() {
        push_problem(alloc, text, problem)?;
    }
    Ok(())
}

// The steps of a change.
fn steps_of(alloc: Global, path: &str, old: &str, new: &str) -> Result<Steps, Fail> {
    let at = Path::read(alloc, path)?;
    let old = subtree_of(alloc, old, &at)?;
    let new = subtree_of(alloc, new, &at)?;
    let stamps = stamps_of(alloc, &old)?;
    let change = Change {
        side: Side::Beta,
        at,
        old,
        new,
    };
    Ok(Steps::of(alloc, &change, &stamps)?)
}

// Tells which file wasn't staged, if one wasn't.
fn leave_out(alloc: Global, steps: &mut Steps, path: &str) -> Result<(), Fail> {
    if path != "_" {
        let path = Path::read(alloc, path)?;
        steps.unstaged(&[Problem {
            side: Side::Beta,
            path,
            cause: Cause::Changed,
        }]);
    }
    Ok(())
}

// What comes of a row up to its answers.
fn course(alloc: Global, row: &str) -> Result<(String, String), Fail> {
    let mut text = String::new(alloc);
    let mut words = row.split('|');
    let path = words.next().unwrap_or("");
    let old = words.next().unwrap_or("");
    let new = words.next().unwrap_or("");
    let missing = words.next().unwrap_or("");
    let answers = words.next().unwrap_or("");
    let wanted = String::from_str(alloc, words.next().unwrap_or(""))?;
    let mut steps = steps_of(alloc, path, old, new)?;
    leave_out(alloc, &mut steps, missing)?;
    for letter in answers.chars() {
        turn(alloc, &mut steps, &mut text, letter)?;
    }
    push_end(alloc, &steps, &mut text)?;
    Ok((text, wanted))
}

#[test]
fn each_change_has_its_course(rt: HostRuntime) -> Result<(), Fail> {
    let alloc = rt.alloc();
    for row in ROWS.lines() {
        let (text, wanted) = course(alloc, row)?;
        assert_eq!(rt; text.as_str(), wanted.as_str(), "{row}");
    }
    Ok(())
}
