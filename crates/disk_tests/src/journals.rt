//! Tests of what no clause says: the bytes of a frame, stops at each call, cut journals, refused frames, and a file of the system.
use disk_model::{Disk, FileDisk, MemDisk, Tear};
use frame_journal::{AppendError, Ending, Journal, OpenError, whole_frames};
use std::alloc::{AllocError, Global};
use std::fs;
use std::test::Fail;

const PAYLOADS: [&[u8]; 4] = [b"abc", b"", &[1; 12], b"last"];

// Where the frames of these payloads end.
const ENDS: [usize; 4] = [12, 21, 42, 55];

const TEARS: [Tear; 5] = [
    Tear::Nothing,
    Tear::Whole,
    Tear::Half,
    Tear::Filled(0),
    Tear::Filled(1),
];

fn memory(
    alloc: Global,
    bytes: &[u8],
    calls: &[u64],
    stop: Option<u64>,
) -> Result<MemDisk, AllocError> {
    MemDisk::new(alloc, Vec::from_slice(alloc, bytes)?, calls, stop)
}

fn open<D: Disk + Drop>(alloc: Global, disk: D) -> Result<Journal<D>, OpenError> {
    Journal::open_at(alloc, disk).map_err(|refusal| refusal.0)
}

// Appends a payload in two parts.
fn put<D: Disk>(
    journal: &mut Journal<D>,
    alloc: Global,
    payload: &[u8],
) -> Result<(), AppendError> {
    let (head, body) = payload.split_at(payload.len().min(1));
    journal.append(alloc, head, body)
}

fn has_first<D: Disk>(journal: &Journal<D>, count: usize) -> bool {
    are_first(journal.frames(), count)
}

// Whether these are the first of the payloads, so many.
fn are_first(frames: &[Vec<u8>], count: usize) -> bool {
    frames.len() == count
        && frames
            .iter()
            .zip(PAYLOADS.iter())
            .all(|(frame, payload)| frame.as_slice() == *payload)
}

// Appends the payloads to an empty disk that stops at a call, until one is refused, and says how
// many are acknowledged.
fn run(alloc: Global, stop: u64) -> Result<(usize, MemDisk), AllocError> {
    let mut journal = match Journal::open_at(alloc, memory(alloc, b"", &[], Some(stop))?) {
        Ok(journal) => journal,
        Err((_, disk)) => return Ok((0, disk)),
    };
    let mut acknowledged = 0usize;
    for payload in &PAYLOADS {
        if put(&mut journal, alloc, payload).is_err() {
            break;
        }
        acknowledged = acknowledged.saturating_add(1);
    }
    Ok((acknowledged, journal.into_disk()))
}

#[test]
fn an_appended_frame_is_found(rt: HostRuntime) -> Result<(), Fail> {
    let alloc = rt.alloc();
    let mut journal = open(alloc, memory(alloc, b"", &[], None)?)?;
    assert!(rt; has_first(&journal, 0));
    put(&mut journal, alloc, b"abc")
        .ok()
        .ok_or("there is memory")?;
    let disk = journal.into_disk();
    assert_eq!(rt; disk.bytes(), b"\x01\0\0\0\0\0\0\0\x03abc\0".as_slice());
    assert!(rt; has_first(&open(alloc, disk)?, 1));
    Ok(())
}

// Opening makes 4 calls and each append 4 more. Stopped at any of them, and torn in any way, the
// disk has the acknowledged frames, and at most the one in course.
#[test]
fn a_stop_at_each_call_keeps_what_is_acknowledged(rt: HostRuntime) -> Result<(), Fail> {
    let alloc = rt.alloc();
    for stop in 0..21u64 {
        let (acknowledged, disk) = run(alloc, stop)?;
        assert_eq!(rt;
            acknowledged as u64,
            (stop / 4).saturating_sub(1),
            "at {stop}"
        );
        for tear in &TEARS {
            let image = disk.image(alloc, *tear)?;
            let journal = open(alloc, MemDisk::new(alloc, image, &[], None)?)?;
            let kept = has_first(&journal, acknowledged)
                || has_first(&journal, acknowledged.saturating_add(1));
            assert!(rt; kept, "at {stop}, {tear:?}");
        }
    }
    Ok(())
}

#[test]
fn a_cut_journal_opens_or_names_its_bad_frame(rt: HostRuntime) -> Result<(), Fail> {
    let alloc = rt.alloc();
    let (_, disk) = run(alloc, u64::MAX)?;
    let whole = disk.bytes();
    assert_eq!(rt; whole.len(), 56);
    for length in 0..57usize {
        let cut = memory(alloc, &whole[..length.min(whole.len())], &[], None)?;
        let bad = ENDS.iter().filter(|end| **end < length).count();
        match Journal::open_at(alloc, cut) {
            Ok(journal) => {
                assert!(rt; length <= 1 || length == 56, "at {length}");
                assert!(rt; has_first(&journal, bad), "at {length}");
            }
            Err((error, mut disk)) => {
                assert_eq!(rt; error, OpenError::BadFrame(bad as u64), "at {length}");
                let before = whole_frames(alloc, &mut disk).ok().ok_or("it is read")?;
                assert_eq!(rt; before.ending, Ending::Bad);
                assert!(rt; are_first(&before.payloads, bad), "at {length}");
            }
        }
    }
    Ok(())
}

// The write of the second frame's gate fails, and is made: a crash would find that frame, and the
// journal that goes on has shut its gate.
#[test]
fn a_refused_frame_is_gone_once_the_journal_is_open_again(rt: HostRuntime) -> Result<(), Fail> {
    let alloc = rt.alloc();
    let mut journal = open(alloc, memory(alloc, b"", &[10], None)?)?;
    assert_eq!(rt; put(&mut journal, alloc, PAYLOADS[0]), Ok(()));
    assert_eq!(rt;
        put(&mut journal, alloc, PAYLOADS[1]),
        Err(AppendError::DiskFault)
    );
    assert_eq!(rt;
        put(&mut journal, alloc, PAYLOADS[1]),
        Err(AppendError::Closed)
    );
    let image = journal.disk().image(alloc, Tear::Whole)?;
    assert!(rt; has_first(&open(alloc, MemDisk::new(alloc, image, &[], None)?)?, 2));
    assert_eq!(rt; journal.reopen(alloc), Ok(()));
    assert!(rt; has_first(&journal, 1));
    assert_eq!(rt; put(&mut journal, alloc, PAYLOADS[1]), Ok(()));
    assert!(rt; has_first(&open(alloc, journal.into_disk())?, 2));
    Ok(())
}

#[test]
fn a_file_keeps_a_journal(rt: HostRuntime) -> Result<(), Fail> {
    let alloc = rt.alloc();
    let path = "frame_journal_file";
    let mut file = FileDisk::open(&rt, path)?;
    file.cut(0)?;
    let mut journal = open(alloc, file)?;
    for payload in &PAYLOADS {
        assert_eq!(rt; put(&mut journal, alloc, payload), Ok(()));
    }
    drop(journal);
    assert!(rt; has_first(&open(alloc, FileDisk::open(&rt, path)?)?, 4));
    fs::remove_file(&rt, path)?;
    Ok(())
}
