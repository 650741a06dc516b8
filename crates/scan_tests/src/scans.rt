//! What scans see.
use crate::driving::{full_folder, scanned, scanned_folder, scanned_twice};
use mem_roots::MemRoot;
use std::test::Fail;

// More than any of the tests needs.
const LIMITS: (u32, u64) = (65_536, 16_777_216);

const PATTERNED: &str = "\
0 dir x
0 dir x/build
0 dir build
0 fill x/keep.o 1
0 fill x/a.o 1
0 fill build/z 1
";

#[test]
fn the_last_pattern_decides(rt: HostRuntime) -> Result<(), Fail> {
    let alloc = rt.alloc();
    let seen = scanned(alloc, LIMITS, "*.o\n!keep.o\n/build/\n", PATTERNED)?;
    assert_eq!(rt;
        seen.as_str(),
        "=d build=u x=d x/a.o=u x/build=d x/keep.o=f after 4"
    );
    Ok(())
}

#[test]
fn a_file_changes_between_two_pieces(rt: HostRuntime) -> Result<(), Fail> {
    let alloc = rt.alloc();
    let seen = scanned(alloc, LIMITS, "", "0 fill a 65537\n2 fill a 3\n")?;
    assert_eq!(rt; seen.as_str(), "=d a=1 after 3");
    Ok(())
}

#[test]
fn a_folder_becomes_a_file(rt: HostRuntime) -> Result<(), Fail> {
    let alloc = rt.alloc();
    let seen = scanned(alloc, LIMITS, "", "0 dir a\n1 del a\n1 fill a 3\n")?;
    assert_eq!(rt; seen.as_str(), "=d a=f after 3");
    Ok(())
}

#[test]
fn a_file_is_too_large(rt: HostRuntime) -> Result<(), Fail> {
    let alloc = rt.alloc();
    let seen = scanned(alloc, (9, 2), "", "0 fill a 2\n0 fill b 3\n0 exec a\n")?;
    assert_eq!(rt; seen.as_str(), "=d a=x b=2 after 3");
    Ok(())
}

#[test]
fn too_many_rows(rt: HostRuntime) -> Result<(), Fail> {
    let alloc = rt.alloc();
    assert_eq!(rt;
        scanned(alloc, (1, 9), "", "0 dir a\n")?.as_str(),
        "=d a=d after 2"
    );
    assert_eq!(rt;
        scanned(alloc, (1, 9), "", "0 dir a\n0 dir a/b\n")?.as_str(),
        "ended after 1"
    );
    Ok(())
}

#[test]
fn a_warm_cache_fetches_nothing(rt: HostRuntime) -> Result<(), Fail> {
    let alloc = rt.alloc();
    let mut root = MemRoot::new(alloc)?;
    let counts = scanned_twice(alloc, &mut root, "0 dir a\n0 fill a/b 1\n0 fill c 3\n")?;
    assert!(rt; counts == (4, 2));
    Ok(())
}

#[test]
fn a_full_folder(rt: HostRuntime) -> Result<(), Fail> {
    let alloc = rt.alloc();
    let mut root = full_folder(alloc, 150)?;
    let counts = scanned_twice(alloc, &mut root, "")?;
    assert!(rt; counts == (151, 1));
    Ok(())
}

#[test]
fn a_file_is_too_large_to_fetch(rt: HostRuntime) -> Result<(), Fail> {
    let alloc = rt.alloc();
    let seen = scanned(alloc, LIMITS, "", "0 fill a 131072\n0 fill b 16777217\n")?;
    assert_eq!(rt; seen.as_str(), "=d a=f b=2 after 4");
    Ok(())
}

#[test]
fn the_greatest_file(rt: HostRuntime) -> Result<(), Fail> {
    let alloc = rt.alloc();
    let seen = scanned(alloc, LIMITS, "", "0 fill a 16777216\n0 fill b 16777217\n")?;
    assert_eq!(rt; seen.as_str(), "=d a=f b=2 after 258");
    Ok(())
}

#[test]
fn the_most_rows(rt: HostRuntime) -> Result<(), Fail> {
    let alloc = rt.alloc();
    assert!(rt; scanned_folder(alloc, 65_535)? == Some(65_536));
    assert!(rt; scanned_folder(alloc, 65_537)?.is_none());
    Ok(())
}
