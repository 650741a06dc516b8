//! Tests of what no clause says: checkpoints of journals on two disks, stops at each call, and files of the system.
use disk_model::{Disk, FileDisk, MemDisk, Tear};
use frame_journal::{AppendError, OpenError, PairedJournal, is_generation};
use std::alloc::{AllocError, Global};
use std::fs;
use std::test::Fail;

// What is acknowledged before a checkpoint, and its payloads.
const OLD: [&[u8]; 2] = [b"old", b"\x02\x03"];

const NEW: [&[u8]; 3] = [b"", b"new", &[1; 12]];

const TEARS: [Tear; 5] = [
    Tear::Nothing,
    Tear::Whole,
    Tear::Half,
    Tear::Filled(0),
    Tear::Filled(1),
];

// The calls of a checkpoint on the spare disk, and a number that no call has.
const CALLS: u64 = 7;

const NEVER: u64 = 1_000_000;

fn memory(alloc: Global, bytes: &[u8]) -> Result<MemDisk, AllocError> {
    MemDisk::new(alloc, Vec::from_slice(alloc, bytes)?, &[], None)
}

// An empty disk that fails at one call, and stops at another.
fn failing(alloc: Global, call: u64, stop: u64) -> Result<MemDisk, AllocError> {
    MemDisk::new(alloc, Vec::new(alloc), &[call], Some(stop))
}

fn open<D: Disk + Drop>(alloc: Global, first: D, second: D) -> Result<PairedJournal<D>, OpenError> {
    PairedJournal::open_two(alloc, first, second).map_err(|refusal| refusal.0)
}

fn vectors(alloc: Global, payloads: &[&[u8]]) -> Result<Vec<Vec<u8>>, AllocError> {
    let mut all = Vec::new(alloc);
    for payload in payloads {
        all.push(Vec::from_slice(alloc, payload)?)?;
    }
    Ok(all)
}

// Appends a payload that isn't a generation.
fn put<D: Disk>(
    journal: &mut PairedJournal<D>,
    alloc: Global,
    payload: &[u8],
) -> Result<(), AppendError> {
    if is_generation(payload) {
        return Err(AppendError::Memory);
    }
    journal.append(alloc, b"", payload)
}

// A checkpoint, where the generation can be raised.
fn replace<D: Disk>(
    journal: &mut PairedJournal<D>,
    alloc: Global,
    payloads: &[Vec<u8>],
) -> Result<(), AppendError> {
    if !journal.may_checkpoint() {
        return Err(AppendError::Memory);
    }
    journal.checkpoint(alloc, payloads)
}

fn has<D: Disk>(journal: &PairedJournal<D>, payloads: &[&[u8]]) -> bool {
    let frames = journal.frames();
    frames.len() == payloads.len()
        && frames
            .iter()
            .zip(payloads.iter())
            .all(|(frame, payload)| frame.as_slice() == *payload)
}

// What happens to the disks of a journal with the old payloads. Calls are counted from its next
// checkpoint on.
#[derive(Clone, Copy)]
struct Trouble {
    // Whether the spare disk holds an older journal; else it is empty.
    on_older: bool,
    // The spare disk fails at this call, and stops at that.
    fail: u64,
    stop: u64,
    // The other one stops at this call.
    other: u64,
}

fn journal_of_old(alloc: Global, trouble: Trouble) -> Result<PairedJournal<MemDisk>, Fail> {
    let journal = if trouble.on_older {
        beside_older(alloc, trouble)?
    } else {
        beside_nothing(alloc, trouble)?
    };
    Ok(journal.ok().ok_or("it opens")?)
}

// The spare disk made four calls, and the other one twelve.
fn beside_nothing(
    alloc: Global,
    trouble: Trouble,
) -> Result<Result<PairedJournal<MemDisk>, AppendError>, Fail> {
    let first = failing(alloc, NEVER, trouble.other.saturating_add(12))?;
    let second = failing(
        alloc,
        trouble.fail.saturating_add(4),
        trouble.stop.saturating_add(4),
    )?;
    let journal = open(alloc, first, second).ok().ok_or("it opens")?;
    Ok(with_old(alloc, journal))
}

fn with_old(
    alloc: Global,
    journal: PairedJournal<MemDisk>,
) -> Result<PairedJournal<MemDisk>, AppendError> {
    let mut journal = journal;
    for payload in &OLD {
        put(&mut journal, alloc, payload)?;
    }
    Ok(journal)
}

// The spare disk made eight calls, and the other one eleven.
fn beside_older(
    alloc: Global,
    trouble: Trouble,
) -> Result<Result<PairedJournal<MemDisk>, AppendError>, Fail> {
    let first = failing(
        alloc,
        trouble.fail.saturating_add(8),
        trouble.stop.saturating_add(8),
    )?;
    let second = failing(alloc, NEVER, trouble.other.saturating_add(11))?;
    let journal = open(alloc, first, second).ok().ok_or("it opens")?;
    let payloads = vectors(alloc, &OLD)?;
    Ok(moved_to(alloc, journal, &payloads))
}

fn moved_to(
    alloc: Global,
    journal: PairedJournal<MemDisk>,
    payloads: &[Vec<u8>],
) -> Result<PairedJournal<MemDisk>, AppendError> {
    let mut journal = journal;
    put(
        &mut journal,
        alloc,
        b"an older payload, and longer than those behind it",
    )?;
    replace(&mut journal, alloc, payloads)?;
    Ok(journal)
}

// The journal that a crash leaves.
fn after_crash(
    alloc: Global,
    journal: &PairedJournal<MemDisk>,
    tear: Tear,
) -> Result<PairedJournal<MemDisk>, Fail> {
    let first = memory(alloc, &journal.first().image(alloc, tear)?)?;
    let second = memory(alloc, &journal.second().image(alloc, tear)?)?;
    Ok(open(alloc, first, second).ok().ok_or("it opens")?)
}

fn stopping(on_older: bool, fail: u64, stop: u64, other: u64) -> Trouble {
    Trouble {
        on_older,
        fail,
        stop,
        other,
    }
}

// Checkpoints of 0, 1 and 100 payloads, one behind the other, so that the disks change places each
// time; an append behind each, and each opened again.
#[test]
fn checkpoints_of_many_sizes_are_found(rt: HostRuntime) -> Result<(), Fail> {
    let alloc = rt.alloc();
    let mut journal = journal_of_old(alloc, stopping(false, NEVER, NEVER, NEVER))?;
    for size in [0usize, 1, 100] {
        let mut payloads = Vec::new(alloc);
        for _ in 0..size {
            payloads.push(Vec::from_slice(alloc, b"payload")?)?;
        }
        assert_eq!(rt; replace(&mut journal, alloc, &payloads), Ok(()));
        assert_eq!(rt; put(&mut journal, alloc, b"behind"), Ok(()));
        let (first, second) = journal.into_disks();
        journal = open(alloc, first, second).ok().ok_or("it opens")?;
        assert_eq!(rt; journal.frames().len(), size.saturating_add(1), "{size}");
        assert_eq!(rt;
            journal.frames().last().map(|payload| payload.as_slice()),
            Some(b"behind".as_slice())
        );
    }
    Ok(())
}

// Stopped at any of its calls, and torn in any way, a checkpoint leaves what was there before it or
// its payloads.
#[test]
fn a_stop_at_each_call_of_a_checkpoint(rt: HostRuntime) -> Result<(), Fail> {
    let alloc = rt.alloc();
    for on_older in [false, true] {
        for stop in 0..CALLS + 1 {
            assert!(rt; leaves_one(alloc, on_older, stop)?, "{on_older}, {stop}");
        }
    }
    Ok(())
}

// Whether a checkpoint whose spare disk stops leaves as it should.
fn leaves_one(alloc: Global, on_older: bool, stop: u64) -> Result<bool, Fail> {
    let payloads = vectors(alloc, &NEW)?;
    let mut journal = journal_of_old(alloc, stopping(on_older, NEVER, stop, NEVER))?;
    let made = replace(&mut journal, alloc, &payloads).is_ok();
    Ok(made == (stop == CALLS) && leaves(alloc, &journal, !made, true)?)
}

// Whether each crash leaves the old payloads or the new ones, where these may be.
fn leaves(
    alloc: Global,
    journal: &PairedJournal<MemDisk>,
    old: bool,
    new: bool,
) -> Result<bool, Fail> {
    for tear in &TEARS {
        let found = after_crash(alloc, journal, *tear)?;
        if !(old && has(&found, &OLD) || new && has(&found, &NEW)) {
            return Ok(false);
        }
    }
    Ok(true)
}

// A checkpoint that fails at any of its calls, and then a stop at any call of either disk in the
// opening behind it: the old payloads or the new ones, and once it is open, the old ones alone.
#[test]
fn a_stop_at_each_call_of_the_opening_behind_it(rt: HostRuntime) -> Result<(), Fail> {
    let alloc = rt.alloc();
    for on_older in [false, true] {
        for fail in 0..CALLS {
            for more in 0..6u64 {
                assert!(rt;
                    opens_behind(alloc, on_older, fail, more)?,
                    "{on_older}, {fail}, {more}"
                );
            }
        }
    }
    Ok(())
}

// Whether the opening behind a refused checkpoint leaves as it should, where the one disk stops in it,
// and where the other one does.
fn opens_behind(alloc: Global, on_older: bool, fail: u64, more: u64) -> Result<bool, Fail> {
    let stop = fail.saturating_add(more).saturating_add(1);
    let spare = stopping(on_older, fail, stop, NEVER);
    let other = stopping(on_older, fail, NEVER, more);
    Ok(opens_again(alloc, spare)? && opens_again(alloc, other)?)
}

fn opens_again(alloc: Global, trouble: Trouble) -> Result<bool, Fail> {
    let mut journal = journal_of_old(alloc, trouble)?;
    if !is_refused(alloc, &mut journal)? {
        return Ok(false);
    }
    let made = journal.reopen(alloc).is_ok();
    let stands = has(&journal, &OLD) && made != journal.is_closed();
    Ok(stands && leaves(alloc, &journal, true, !made)?)
}

// Whether a checkpoint is refused, and an append behind it.
fn is_refused(alloc: Global, journal: &mut PairedJournal<MemDisk>) -> Result<bool, Fail> {
    let payloads = vectors(alloc, &NEW)?;
    Ok(
        replace(journal, alloc, &payloads) == Err(AppendError::DiskFault)
            && put(journal, alloc, b"c") == Err(AppendError::Closed),
    )
}

// A shut gate; frames of the payloads `a` and `b`; generation 1 with the payload `b` behind it, the
// greatest generation, and a bad frame behind generation 1.
const NONE: &[u8] = b"\0";

const A: &[u8] = b"\x01\0\0\0\0\0\0\0\x01a\0";

const B: &[u8] = b"\x01\0\0\0\0\0\0\0\x01b\0";

const ONE: &[u8] =
    b"\x01\0\0\0\0\0\0\0\x19\x02\0\0\0\0\0\0\0\0\0\0\0\0\0\0\0\0\0\0\0\0\0\0\0\x01\x01\0\0\0\0\0\0\0\x01b\0";

const ALONE: &[u8] =
    b"\x01\0\0\0\0\0\0\0\x19\x02\0\0\0\0\0\0\0\0\0\0\0\0\0\0\0\0\0\0\0\0\0\0\0\x01\0";

const LAST: &[u8] =
    b"\x01\0\0\0\0\0\0\0\x19\x02\0\0\0\0\0\0\0\0\0\0\0\0\0\0\0\0\xff\xff\xff\xff\xff\xff\xff\xff\0";

const BAD: &[u8] =
    b"\x01\0\0\0\0\0\0\0\x19\x02\0\0\0\0\0\0\0\0\0\0\0\0\0\0\0\0\0\0\0\0\0\0\0\x01\x01\0";

// The greater generation counts, and the first disk on a tie. An old journal before an empty disk is
// gone on with.
#[test]
fn the_greater_generation_counts(rt: HostRuntime) -> Result<(), Fail> {
    let alloc = rt.alloc();
    let a: &[&[u8]] = &[b"a"];
    let b: &[&[u8]] = &[b"b"];
    let none: &[&[u8]] = &[];
    for (first, second, want, may) in [
        (A, B, a, true),
        (A, b"".as_slice(), a, true),
        (NONE, A, none, true),
        (A, ONE, b, true),
        (ONE, A, b, true),
        (ALONE, ONE, none, true),
        (ONE, ALONE, b, true),
        (ONE, LAST, none, false),
    ] {
        let first = memory(alloc, first)?;
        let second = memory(alloc, second)?;
        let journal = open(alloc, first, second).ok().ok_or("it opens")?;
        assert!(rt; has(&journal, want));
        assert_eq!(rt; journal.may_checkpoint(), may);
    }
    Ok(())
}

// The number of a bad frame counts the generation's, and both disks come back as they were.
#[test]
fn a_bad_frame_gives_both_disks_back(rt: HostRuntime) -> Result<(), Fail> {
    let alloc = rt.alloc();
    for (first, second) in [(A, BAD), (BAD, A)] {
        let refusal = refused(alloc, first, second)?;
        assert_eq!(rt; refusal.0, OpenError::BadFrame(1));
        assert_eq!(rt; refusal.1.bytes(), first);
        assert_eq!(rt; refusal.2.bytes(), second);
    }
    Ok(())
}

// What two disks that don't open give back.
fn refused(
    alloc: Global,
    first: &[u8],
    second: &[u8],
) -> Result<(OpenError, MemDisk, MemDisk), Fail> {
    let opened = PairedJournal::open_two(alloc, memory(alloc, first)?, memory(alloc, second)?);
    Ok(opened.err().ok_or("it is refused")?)
}

#[test]
fn a_pair_of_files_keeps_a_journal(rt: HostRuntime) -> Result<(), Fail> {
    let alloc = rt.alloc();
    fs::create_dir(&rt, "pair")?;
    let payloads = vectors(alloc, &NEW)?;
    let first = FileDisk::open(&rt, "pair/journal")?;
    let second = FileDisk::open(&rt, "pair/journal.2")?;
    let mut journal = open(alloc, first, second).ok().ok_or("it opens")?;
    assert_eq!(rt; put(&mut journal, alloc, b"old"), Ok(()));
    assert_eq!(rt; replace(&mut journal, alloc, &payloads), Ok(()));
    drop(journal);
    let first = FileDisk::open(&rt, "pair/journal")?;
    let second = FileDisk::open(&rt, "pair/journal.2")?;
    let journal = open(alloc, first, second).ok().ok_or("it opens")?;
    assert!(rt; has(&journal, &NEW));
    fs::remove_dir_all(&rt, "pair")?;
    Ok(())
}
