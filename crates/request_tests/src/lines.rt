//! Tests of what no clause says: which lines are read, how they are written again, and where they are bad. The lines and the places
//! are those of docs/FORMATS.md.
use crate::forms::FORMS;
use crate::places::answer;
use command_words::{Client, ClientNumber, GivenName, SessionWord};
use request_text::{Asked, Request, is_skipped, write_request};
use std::alloc::{AllocError, Global};
use std::test::Fail;

// Each row is a line behind `+`, if it is skipped, or `-`.
const LINES: &str = "\
+
+#
+  # edit A dir a
-edit A dir a
-  sync list
-%23
-a #";

#[test]
fn lines_are_skipped(rt: HostRuntime) -> Result<(), Fail> {
    for row in LINES.lines() {
        match row.strip_prefix('+') {
            Some(line) => assert!(rt; is_skipped(line.as_bytes())),
            None => assert!(rt; !is_skipped(row.trim_start_matches('-').as_bytes())),
        }
    }
    Ok(())
}

// A flush of a session, asked by a client or by none.
fn flush(alloc: Global, client: Option<Client>) -> Result<Option<String>, AllocError> {
    let Some(session) = SessionWord::read(alloc, b"s".as_slice())? else {
        return Ok(None);
    };
    let asked = Asked {
        client,
        request: Request::SyncFlush(session),
    };
    Ok(Some(write_request(alloc, &asked)?))
}

// A client with its number.
fn client(alloc: Global, name: &str, number: u64) -> Result<Option<Client>, AllocError> {
    let Some(number) = ClientNumber::of(number) else {
        return Ok(None);
    };
    match GivenName::read(alloc, name.as_bytes())? {
        Some(name) => Ok(Some(Client { name, number })),
        None => Ok(None),
    }
}

#[test]
fn requests_are_written(rt: HostRuntime) -> Result<(), Fail> {
    let alloc = rt.alloc();
    let alone = flush(alloc, None)?;
    assert_eq!(rt; alone.as_deref(), Some("sync flush s"));
    let by_client = flush(alloc, client(alloc, "c", 7)?)?;
    assert_eq!(rt; by_client.as_deref(), Some("@c 7 sync flush s"));
    Ok(())
}

#[test]
fn each_form_is_read(rt: HostRuntime) -> Result<(), Fail> {
    let alloc = rt.alloc();
    for line in FORMS.lines() {
        assert_eq!(rt; answer(alloc, line)?.as_str(), line);
    }
    Ok(())
}

// Each row is a line and, behind `|`, what it is read as. `sync` goes on behind a client, and `list` doesn't.
const OTHERS: &str = "\
  %73ync   list  |sync list
edit A put %2e =|edit A put . =
%40c 7 sync flush s|@c 7 sync flush s
@c 7  sync  flush %73|@c 7 sync flush s
edit A fill a 1 Fa|edit A fill a 1 fa
edit %41 put a =%0a%7f|edit A put a =%0A%7F
sync create --max-entry-count=65536 --max-staging-file-size=16777216 --mode=two-way-safe A B|sync create A B
sync create --paused --label=b=2 --name=s --label=a=1 A B|sync create --name=s --label=a=1 --label=b=2 --paused A B
forward create --paused --name=f tcp:localhost:1 tcp:localhost:2|forward create --name=f --paused tcp:localhost:1 tcp:localhost:2
|bad 0
sync flush|bad 10
sync flush  |bad 12
sync creat A B|bad 5
edit|bad 4
edit --a put|bad 5
edit A putt|bad 7
edit A put a//b =|bad 11
edit A put a x|bad 13
edit A put a = =|bad 15
edit A fill a 01 00|bad 14
edit A fill a 268435457 00|bad 14
edit A fill a 1 0g|bad 16
edit A link a =|bad 14
edit A exec a yes|bad 14
show|bad 4
show A B|bad 7
step s 0|bad 7
step s 1000001|bad 7
until s scan|bad 8
sync create --paused --paused A B|bad 21
sync create --label=a=1 --label=a=2 A B|bad 24
sync create --name=1 A B|bad 12
sync create --max-entry-count=65537 A B|bad 12
sync create A --paused|bad 14
sync create A B C|bad 16
sync list --label=a|bad 10
sync flush --skip-wait --skip-wait s|bad 23
@c 7 sync list|bad 10
@c 7 show A|bad 5
@c 0 sync flush s|bad 3
@1 7 sync flush s|bad 0
@c|bad 2
@c 7|bad 4
forward reset f|bad 8
forward create --label=a=1 tcp:localhost:1 tcp:localhost:2|bad 15
forward create tcp:localhost:0 tcp:localhost:2|bad 15
conn f write 1 near =|bad 20
conn f write 4294967296 near =x|bad 13
conn f read 1 near 0|bad 19
conn f open near|bad 12
edit A put a =%zz|bad 13
sync list \x7f|bad 10
# sync list|bad 0
%23 x|bad 0";

#[test]
fn each_freedom_is_read_and_each_place_told(rt: HostRuntime) -> Result<(), Fail> {
    let alloc = rt.alloc();
    for row in OTHERS.lines() {
        if let Some((line, wanted)) = row.split_once('|') {
            assert_eq!(rt; answer(alloc, line)?.as_str(), wanted);
        }
    }
    Ok(())
}

// A line that gives an option many times: its name with a number, and behind it a text.
fn many(alloc: Global, option: &str, behind: &str, count: usize) -> Result<String, AllocError> {
    let mut line = String::from_str(alloc, "sync create")?;
    for number in 0..count {
        line.push_str(format!(in alloc; " {option}{number}{behind}")?.as_str())?;
    }
    line.push_str(" A B")?;
    Ok(line)
}

#[test]
fn labels_and_patterns_have_limits(rt: HostRuntime) -> Result<(), Fail> {
    let alloc = rt.alloc();
    let labels = many(alloc, "--label=a", "=1", 17)?;
    assert_eq!(rt; answer(alloc, labels.as_str())?.as_str(), "bad 226");
    let patterns = many(alloc, "--ignore=", "", 257)?;
    assert_eq!(rt; answer(alloc, patterns.as_str())?.as_str(), "bad 3230");
    Ok(())
}
