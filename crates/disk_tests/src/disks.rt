//! Tests of what no clause says: calls of disks in memory, what crashes leave, calls that fail by number, the limit, and a file of the system.
use disk_model::{Disk, Failed, FileDisk, MOST_BYTES, MemDisk, Tear};
use std::alloc::Global;
use std::fs;
use std::test::Fail;

fn disk(alloc: Global, bytes: &[u8], calls: &[u64], stop: Option<u64>) -> Result<MemDisk, Fail> {
    Ok(MemDisk::new(alloc, Vec::from_slice(alloc, bytes)?, calls, stop)?)
}

#[test]
fn what_is_written_is_read(rt: HostRuntime) -> Result<(), Fail> {
    let mut disk = disk(rt.alloc(), b"abcdef", &[], None)?;
    disk.write_at(2, b"XY")?;
    disk.cut(5)?;
    disk.write_at(7, b"z")?;
    disk.sync()?;
    assert_eq!(rt; disk.length()?, 8);
    let mut into = [9u8; 4];
    assert_eq!(rt; disk.read(5, &mut into)?, 3);
    assert_eq!(rt; into, [0, 0, b'z', 9]);
    assert_eq!(rt; disk.bytes(), b"abXYe\0\0z".as_slice());
    assert_eq!(rt; disk.read(9, &mut into)?, 0);
    Ok(())
}

// What was written after the sync and cut from the end is there in each way that a crash tears it.
#[test]
fn a_crash_tears_what_is_not_synced(rt: HostRuntime) -> Result<(), Fail> {
    let alloc = rt.alloc();
    let mut disk = disk(alloc, b"abcdef", &[], None)?;
    disk.write_at(0, b"A")?;
    disk.sync()?;
    disk.write_at(1, b"XY")?;
    disk.cut(4)?;
    for (tear, want) in [
        (Tear::Nothing, b"Abcdef".as_slice()),
        (Tear::Whole, b"AXYd".as_slice()),
        (Tear::Half, b"AXcde".as_slice()),
        (Tear::Filled(b'7'), b"A77def".as_slice()),
    ] {
        let image = disk.image(alloc, tear)?;
        assert_eq!(rt; image.as_slice(), want, "{tear:?}");
    }
    Ok(())
}

// Calls 0 and 2 fail, the first made in part, and from call 3 on all do.
#[test]
fn calls_fail_by_their_numbers(rt: HostRuntime) -> Result<(), Fail> {
    let mut disk = disk(rt.alloc(), b"", &[0, 2], Some(3))?;
    assert_eq!(rt; disk.write_at(0, b"abc"), Err(Failed));
    assert_eq!(rt; disk.bytes(), b"ab".as_slice());
    assert_eq!(rt; disk.length(), Ok(2));
    assert_eq!(rt; disk.sync(), Err(Failed));
    assert_eq!(rt; disk.write_at(2, b"c"), Err(Failed));
    assert_eq!(rt; disk.bytes(), b"abc".as_slice());
    assert_eq!(rt; disk.write_at(3, b"d"), Err(Failed));
    assert_eq!(rt; disk.cut(0), Err(Failed));
    assert_eq!(rt; disk.bytes(), b"abc".as_slice());
    Ok(())
}

#[test]
fn no_disk_reaches_past_its_limit(rt: HostRuntime) -> Result<(), Fail> {
    let mut disk = disk(rt.alloc(), b"", &[], None)?;
    assert_eq!(rt; disk.write_at(MOST_BYTES, b"a"), Err(Failed));
    assert_eq!(rt; disk.write_at(u64::MAX, b"a"), Err(Failed));
    assert_eq!(rt; disk.length(), Ok(0));
    Ok(())
}

// While the file is open as a disk, it can't be opened as another.
#[test]
fn a_file_is_a_disk(rt: HostRuntime) -> Result<(), Fail> {
    let path = "disk_model_file";
    let mut disk = FileDisk::open(&rt, path)?;
    disk.cut(0)?;
    disk.write_at(0, b"abcdef")?;
    disk.write_at(2, b"XY")?;
    disk.cut(5)?;
    disk.cut(9)?;
    disk.sync()?;
    assert!(rt; FileDisk::open(&rt, path).is_err());
    drop(disk);
    let mut disk = FileDisk::open(&rt, path)?;
    assert_eq!(rt; disk.length()?, 5);
    let mut into = [9u8; 4];
    assert_eq!(rt; disk.read(3, &mut into)?, 2);
    assert_eq!(rt; into, [b'Y', b'e', 9, 9]);
    assert_eq!(rt; disk.read(u64::MAX, &mut into)?, 0);
    assert_eq!(rt; disk.write_at(MOST_BYTES, b"a"), Err(Failed));
    fs::remove_file(&rt, path)?;
    Ok(())
}
