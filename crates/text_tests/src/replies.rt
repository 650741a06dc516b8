//! Tests of what no clause says: each refusal and each reply as it is spelt, written out by hand from docs/FORMATS.md.
use command_words::{Endpoint, GivenName, Identifier, Labels, RootName, SessionKind, read_label};
use entry_tree::{Digest, Side, read_atom, read_path};
use mode_rules::{Cause, Halt, Mode, Outcome, Phase, Problem, Reason};
use reply_text::{
    ConflictRow, ForwardRow, ForwardState, Listed, Refusal, Reply, ReportRows, StreamRead, SyncRow,
    SyncState, write_reply,
};
use sqlite_items::Items;
use std::alloc::{AllocError, Global};
use std::test::Fail;
use sync_path::Path;

// The identifier of the first session that is drawn from zero bytes.
fn first(kind: SessionKind) -> Identifier {
    Identifier {
        kind,
        id: 0x4000_8000_0000_0000_0000,
    }
}

fn root(alloc: Global, word: &str) -> Result<RootName, AllocError> {
    match RootName::read(alloc, word.as_bytes())? {
        Some(root) => Ok(root),
        None => Err(AllocError),
    }
}

fn path(alloc: Global, word: &str) -> Result<Path, AllocError> {
    match read_path(alloc, word.as_bytes())? {
        Some(path) => Ok(path),
        None => Err(AllocError),
    }
}

fn endpoint(alloc: Global, word: &str) -> Result<Endpoint, AllocError> {
    match Endpoint::read(alloc, word.as_bytes())? {
        Some(endpoint) => Ok(endpoint),
        None => Err(AllocError),
    }
}

fn listed(alloc: Global, place: &str, atom: &str) -> Result<Listed, AllocError> {
    match read_atom(alloc, atom) {
        Ok(atom) => Ok(Listed {
            path: path(alloc, place)?,
            atom,
        }),
        Err(_) => Err(AllocError),
    }
}

// A refusal by its number.
fn refusal_of(alloc: Global, number: u64) -> Result<Refusal, AllocError> {
    match number {
        5 => Ok(Refusal::LineTooLong),
        12 => Ok(Refusal::BadPattern { index: 1, place: 2 }),
        13 => Ok(Refusal::NoRoot(root(alloc, "my root")?)),
        14 => refused_edit(alloc),
        15 => Ok(Refusal::LogFull(1_000_000)),
        16 => Ok(Refusal::BytesFull(268_435_456)),
        19 => Ok(Refusal::KeeperFault),
        20 => Ok(Refusal::NoSession),
        21 => Ok(Refusal::SameRoot),
        22 => Ok(Refusal::TableFull),
        23 => Ok(Refusal::NameTaken(first(SessionKind::Sync))),
        24 => Ok(Refusal::IdTaken(first(SessionKind::Forward))),
        25 => Ok(Refusal::OldNumber(7)),
        26 => Ok(Refusal::ClientsFull),
        27 => Ok(Refusal::Halted(Halt::RootEmptied)),
        28 => Ok(Refusal::Paused),
        29 => Ok(Refusal::DiceFault),
        30 => Ok(Refusal::BadLine(10)),
        32 => Ok(Refusal::StreamsFull(4096)),
        34 => Ok(Refusal::NoStream),
        35 => Ok(Refusal::ScriptOnly),
        36 => Ok(Refusal::OldRun(2)),
        37 => Ok(Refusal::Cut),
        _ => Ok(Refusal::WriteClosed),
    }
}

fn refused_edit(alloc: Global) -> Result<Refusal, AllocError> {
    Ok(Refusal::EditRefused {
        path: path(alloc, "q")?,
        found: None,
    })
}

const REFUSALS: &str = "\
refused 5 line-too-long
refused 12 bad-pattern 1 2
refused 13 no-root my%20root
refused 14 edit-refused q none
refused 15 log-full 1000000
refused 16 bytes-full 268435456
refused 19 keeper-fault
refused 20 no-session
refused 21 same-root
refused 22 table-full 256
refused 23 name-taken sync_00000000-0000-4000-8000-000000000000
refused 24 id-taken fwrd_00000000-0000-4000-8000-000000000000
refused 25 old-number 7
refused 26 clients-full 64
refused 27 halted root-emptied
refused 28 paused
refused 29 dice-fault
refused 30 bad-line 10
refused 32 streams-full 4096
refused 34 no-stream
refused 35 script-only
refused 36 old-run 2
refused 37 cut
refused 38 write-closed
";

// The lines of the refusals with these numbers, each of a copy.
fn refusals(alloc: Global, numbers: &[u64]) -> Result<String, AllocError> {
    let mut text = String::new(alloc);
    for number in numbers {
        let refusal = refusal_of(alloc, *number)?;
        let reply = Reply::Refused(refusal.copy(alloc)?);
        text.push_str(write_reply(alloc, &reply)?.as_str())?;
    }
    Ok(text)
}

#[test]
fn refusals_have_one_spelling(rt: HostRuntime) -> Result<(), Fail> {
    let numbers = [
        5, 12, 13, 14, 15, 16, 19, 20, 21, 22, 23, 24, 25, 26, 27, 28, 29, 30, 32, 34, 35, 36, 37,
        38,
    ];
    assert_eq!(rt; refusals(rt.alloc(), &numbers)?.as_str(), REFUSALS);
    Ok(())
}

const ENTRIES: &str = "\
. dir
a file ba7816bf8f01cfea414140de5dae2223b00361a396177a9cb410ff61f20015ad
b file ba7816bf8f01cfea414140de5dae2223b00361a396177a9cb410ff61f20015ad x
c link =to%20b
d%20e untracked
f problem 2";

// The entries of some lines.
fn entries(alloc: Global, lines: &str) -> Result<Items<Listed>, AllocError> {
    let mut entries = Items::new(alloc);
    for line in lines.lines() {
        if let Some((place, atom)) = line.split_once(' ') {
            let place = if place == "d%20e" { "d e" } else { place };
            entries.push(listed(alloc, place, atom)?)?;
        }
    }
    Ok(entries)
}

fn labels(alloc: Global) -> Result<Labels, AllocError> {
    let mut labels = Labels::new(alloc);
    for word in ["os=x", "host=a.b"] {
        if let Some(label) = read_label(alloc, word.as_bytes())? {
            let _taken = labels.insert(label)?;
        }
    }
    Ok(labels)
}

// A session of `sync list` with or without a name, in this state.
fn sync_row(
    alloc: Global,
    name: &str,
    state: SyncState,
    labels: Labels,
) -> Result<SyncRow, AllocError> {
    Ok(SyncRow {
        identifier: first(SessionKind::Sync),
        name: GivenName::read(alloc, name.as_bytes())?,
        mode: Mode::TwoWaySafe,
        alpha: root(alloc, "A")?,
        beta: root(alloc, "B")?,
        state,
        cycles: 1,
        conflicts: 2,
        problems: 3,
        labels,
    })
}

fn sync_list(alloc: Global) -> Result<Items<SyncRow>, AllocError> {
    let states = [
        SyncState::Halted(Halt::RootDeleted),
        SyncState::Paused,
        SyncState::Cycling,
        SyncState::Due,
    ];
    let mut rows = Items::new(alloc);
    rows.push(sync_row(alloc, "s", SyncState::Resting, labels(alloc)?)?)?;
    for state in states {
        rows.push(sync_row(alloc, "", state, Labels::new(alloc))?)?;
    }
    Ok(rows)
}

fn forward_row(alloc: Global, name: &str, state: ForwardState) -> Result<ForwardRow, AllocError> {
    Ok(ForwardRow {
        identifier: first(SessionKind::Forward),
        name: GivenName::read(alloc, name.as_bytes())?,
        source: endpoint(alloc, "tcp:127.0.0.1:7001")?,
        dest: endpoint(alloc, "tcp:localhost:7002")?,
        state,
    })
}

fn forward_list(alloc: Global) -> Result<Items<ForwardRow>, AllocError> {
    let mut rows = Items::new(alloc);
    rows.push(forward_row(alloc, "f", ForwardState::Running)?)?;
    rows.push(forward_row(alloc, "", ForwardState::Paused)?)?;
    Ok(rows)
}

// How a cycle ended, by its place in the table.
fn outcome_of(number: u64) -> Outcome {
    match number {
        0 => Outcome::Done,
        1 => Outcome::Halted(Halt::RootTypeChanged),
        2 => Outcome::Stopped,
        3 => Outcome::TooMany(Side::Alpha),
        4 => Outcome::Fault(Side::Beta),
        5 => Outcome::RootFull(Side::Alpha),
        6 => Outcome::KeeperFault,
        _ => Outcome::NoMemory,
    }
}

// The cause of a problem, by its place in the table.
fn cause_of(alloc: Global, number: u64) -> Result<Cause, AllocError> {
    match number {
        0 => Ok(Cause::Changed),
        1 => Ok(Cause::TooLarge),
        2 => Ok(Cause::Failed),
        3 => Ok(Cause::Differs),
        4 => Ok(Cause::NotEmpty),
        5 => Ok(Cause::NoParent),
        6 => Ok(Cause::NoLink),
        7 => Ok(Cause::NoExec),
        8 => Ok(Cause::DigestDiffers {
            wanted: Digest::of(b"abc".as_slice()),
            got: Digest::of(b"".as_slice()),
        }),
        9 => Ok(Cause::NotStaged),
        10 => Ok(Cause::NoMemory),
        _ => Ok(Cause::Skipped(path(alloc, ".")?)),
    }
}

fn problems(alloc: Global) -> Result<Items<Problem>, AllocError> {
    let mut problems = Items::new(alloc);
    for number in 0..12 {
        problems.push(Problem {
            side: Side::Alpha,
            path: path(alloc, "a/b")?,
            cause: cause_of(alloc, number)?,
        })?;
    }
    Ok(problems)
}

fn conflicts(alloc: Global) -> Result<Items<ConflictRow>, AllocError> {
    let mut conflicts = Items::new(alloc);
    for reason in [Reason::Both, Reason::Blocked] {
        conflicts.push(ConflictRow {
            at: path(alloc, ".")?,
            reason,
            alpha: 1,
            beta: 0,
        })?;
    }
    Ok(conflicts)
}

// A report that lists one row of each form.
fn full_report(alloc: Global) -> Result<ReportRows, AllocError> {
    Ok(ReportRows {
        cycle: 2,
        outcome: Outcome::Done,
        conflicts: conflicts(alloc)?,
        problems: problems(alloc)?,
    })
}

// The replies to flushes that ended in each way.
fn outcomes(alloc: Global) -> Result<String, AllocError> {
    let mut text = String::new(alloc);
    for number in 0..8 {
        let report = ReportRows {
            cycle: number,
            outcome: outcome_of(number),
            conflicts: Items::new(alloc),
            problems: Items::new(alloc),
        };
        let identifier = first(SessionKind::Sync);
        let reply = Reply::Flushed { identifier, report };
        text.push_str(write_reply(alloc, &reply)?.as_str())?;
    }
    Ok(text)
}

const OUTCOMES: &str = "\
ok flush sync_00000000-0000-4000-8000-000000000000 cycle 0 done conflicts 0 problems 0
ok flush sync_00000000-0000-4000-8000-000000000000 cycle 1 halted root-type-changed conflicts 0 problems 0
ok flush sync_00000000-0000-4000-8000-000000000000 cycle 2 stopped conflicts 0 problems 0
ok flush sync_00000000-0000-4000-8000-000000000000 cycle 3 too-many alpha conflicts 0 problems 0
ok flush sync_00000000-0000-4000-8000-000000000000 cycle 4 fault beta conflicts 0 problems 0
ok flush sync_00000000-0000-4000-8000-000000000000 cycle 5 root-full alpha conflicts 0 problems 0
ok flush sync_00000000-0000-4000-8000-000000000000 cycle 6 keeper-fault conflicts 0 problems 0
ok flush sync_00000000-0000-4000-8000-000000000000 cycle 7 no-memory conflicts 0 problems 0
";

#[test]
fn outcomes_have_one_spelling(rt: HostRuntime) -> Result<(), Fail> {
    assert_eq!(rt; outcomes(rt.alloc())?.as_str(), OUTCOMES);
    Ok(())
}

// A reply that lists nothing, by a word of the test's own.
fn plain_reply(word: &str) -> Reply {
    match word {
        "edit" => Reply::Edited,
        "step" => Reply::Stepped(Phase::ScanAlpha),
        "until" => Reply::Reached(Phase::Idle),
        "create" => Reply::Created(first(SessionKind::Forward)),
        "awaits" => Reply::Awaits {
            identifier: first(SessionKind::Sync),
            cycle: 2,
        },
        "unreported" => Reply::Unreported(first(SessionKind::Sync)),
        "pause" => Reply::Paused(first(SessionKind::Sync)),
        "resume" => Reply::Resumed(first(SessionKind::Sync)),
        "reset" => Reply::Reset(first(SessionKind::Sync)),
        "terminate" => Reply::Terminated(first(SessionKind::Sync)),
        "opened" => Reply::Opened(1),
        "wrote" => Reply::Wrote(65_536),
        "empty" => Reply::Read(StreamRead::Empty),
        "end" => Reply::Read(StreamRead::End),
        "broken" => Reply::Read(StreamRead::Broken),
        "close-write" => Reply::WriteClosed,
        "close" => Reply::Closed,
        "moved" => Reply::Moved(65_569),
        "cut" => Reply::Cut,
        _ => Reply::Refused(Refusal::BadLine(5)),
    }
}

// A reply that lists something, by a word of the test's own.
fn listing_reply(alloc: Global, word: &str) -> Result<Reply, AllocError> {
    match word {
        "show" => Ok(Reply::Shown {
            root: root(alloc, "A")?,
            entries: entries(alloc, ENTRIES)?,
        }),
        "ancestor" => Ok(Reply::Ancestor {
            identifier: first(SessionKind::Sync),
            entries: entries(alloc, ". dir")?,
        }),
        "sync-list" => Ok(Reply::SyncList(sync_list(alloc)?)),
        "forward-list" => Ok(Reply::ForwardList(forward_list(alloc)?)),
        "got" => Ok(Reply::Read(StreamRead::Got(Items::from_slice(alloc, b"a b%".as_slice())?))),
        "report" => Ok(Reply::Reported {
            identifier: first(SessionKind::Sync),
            report: full_report(alloc)?,
        }),
        _ => Ok(plain_reply(word)),
    }
}

// Each row has a word of the test's own and the reply, with `|` for LF.
const REPLIES: &str = "\
edit>ok edit|
show>ok show A 6|  . dir|  a file ba7816bf8f01cfea414140de5dae2223b00361a396177a9cb410ff61f20015ad|  b file ba7816bf8f01cfea414140de5dae2223b00361a396177a9cb410ff61f20015ad x|  c link =to%20b|  d%20e untracked|  f problem 2|
ancestor>ok ancestor sync_00000000-0000-4000-8000-000000000000 1|  . dir|
step>ok step scan-alpha|
until>ok until idle|
create>ok create fwrd_00000000-0000-4000-8000-000000000000|
sync-list>ok list 5|  sync_00000000-0000-4000-8000-000000000000 s two-way-safe A B resting cycles 1 conflicts 2 problems 3 label host=a.b label os=x|  sync_00000000-0000-4000-8000-000000000000 - two-way-safe A B halted root-deleted cycles 1 conflicts 2 problems 3|  sync_00000000-0000-4000-8000-000000000000 - two-way-safe A B paused cycles 1 conflicts 2 problems 3|  sync_00000000-0000-4000-8000-000000000000 - two-way-safe A B cycling cycles 1 conflicts 2 problems 3|  sync_00000000-0000-4000-8000-000000000000 - two-way-safe A B due cycles 1 conflicts 2 problems 3|
forward-list>ok list 2|  fwrd_00000000-0000-4000-8000-000000000000 f tcp:127.0.0.1:7001 tcp:localhost:7002 running|  fwrd_00000000-0000-4000-8000-000000000000 - tcp:127.0.0.1:7001 tcp:localhost:7002 paused|
awaits>ok awaits sync_00000000-0000-4000-8000-000000000000 cycle 2|
report>ok report sync_00000000-0000-4000-8000-000000000000 cycle 2 done conflicts 2 problems 12|  conflict . both alpha 1 beta 0|  conflict . blocked alpha 1 beta 0|  problem alpha a/b changed|  problem alpha a/b too-large|  problem alpha a/b failed|  problem alpha a/b differs|  problem alpha a/b not-empty|  problem alpha a/b no-parent|  problem alpha a/b no-link|  problem alpha a/b no-exec|  problem alpha a/b digest-differs ba7816bf8f01cfea414140de5dae2223b00361a396177a9cb410ff61f20015ad e3b0c44298fc1c149afbf4c8996fb92427ae41e4649b934ca495991b7852b855|  problem alpha a/b not-staged|  problem alpha a/b no-memory|  problem alpha a/b skipped .|
unreported>ok report sync_00000000-0000-4000-8000-000000000000 none|
pause>ok pause sync_00000000-0000-4000-8000-000000000000|
resume>ok resume sync_00000000-0000-4000-8000-000000000000|
reset>ok reset sync_00000000-0000-4000-8000-000000000000|
terminate>ok terminate sync_00000000-0000-4000-8000-000000000000|
opened>ok opened 1|
wrote>ok wrote 65536|
got>ok read 4 =a%20b%25|
empty>ok read empty|
end>ok read end|
broken>ok read broken|
close-write>ok close-write|
close>ok close|
moved>ok moved 65569|
cut>ok cut|
refused>refused 30 bad-line 5|";

// The text with an LF for each `|`.
fn lines_of(alloc: Global, row: &str) -> Result<Vec<u8>, AllocError> {
    let mut bytes = Vec::new(alloc);
    for b in row.as_bytes() {
        bytes.push(if *b == b'|' { b'\n' } else { *b })?;
    }
    Ok(bytes)
}

// The reply of a copy of what the word stands for.
fn written(alloc: Global, word: &str) -> Result<String, AllocError> {
    let reply = listing_reply(alloc, word)?;
    write_reply(alloc, &reply.copy(alloc)?)
}

#[test]
fn replies_have_one_spelling(rt: HostRuntime) -> Result<(), Fail> {
    let alloc = rt.alloc();
    for row in REPLIES.lines() {
        if let Some((word, lines)) = row.split_once('>') {
            let text = written(alloc, word)?;
            assert_eq!(rt; text.as_bytes(), lines_of(alloc, lines)?.as_slice());
        }
    }
    Ok(())
}
