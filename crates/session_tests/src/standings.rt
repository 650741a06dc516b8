//! What a session is to do next, row by row.
use mode_rules::Halt;
use session_control::{Control, Next, Standing, Wish};
use std::test::Fail;

// Whether a session is there; whether it is paused; the cycles finished and wanted; its resets and the one served; whether it is halted; whether
// a cycle is in course; and what comes next.
const ROWS: &str = "\
gone - 0 0 0 0 - rest retire
gone - 0 0 0 0 - course stop
there run 0 1 0 0 - rest begin
there run 1 1 0 0 - rest rest
there run 2 1 0 0 - rest rest
there paused 0 1 0 0 - rest rest
there run 0 1 0 0 halted rest rest
there run 0 1 0 0 - course go
there run 1 1 0 0 - course go
there run 0 1 0 0 halted course go
there paused 0 1 0 0 - course stop
there run 0 1 1 0 - course stop
there run 0 1 1 1 - course go
there run 0 1 1 2 - course go
there run 0 1 1 0 - rest begin";

fn number(word: Option<&str>) -> Result<u64, Fail> {
    Ok(word.unwrap_or("").parse().ok().ok_or("no number")?)
}

fn word_of(next: Next) -> &'static str {
    match next {
        Next::Rest => "rest",
        Next::Begin => "begin",
        Next::Go => "go",
        Next::Stop => "stop",
        Next::Retire => "retire",
    }
}

#[test]
fn each_standing_has_its_next(rt: HostRuntime) -> Result<(), Fail> {
    for row in ROWS.lines() {
        let mut words = row.split(' ');
        let there = words.next() == Some("there");
        let wish = if words.next() == Some("paused") {
            Wish::Paused
        } else {
            Wish::Run
        };
        let finished = number(words.next())?;
        let wanted = number(words.next())?;
        let resets = number(words.next())?;
        let served = number(words.next())?;
        let halted = if words.next() == Some("halted") {
            Some(Halt::RootDeleted)
        } else {
            None
        };
        let in_course = words.next() == Some("course");
        let standing = Standing {
            wish,
            begun: finished,
            finished,
            wanted,
            resets,
            halted,
        };
        let found = if there { Some(&standing) } else { None };
        let next = Control::next(found, served, in_course);
        assert_eq!(rt; word_of(next), words.next().unwrap_or(""), "{row}");
    }
    Ok(())
}
