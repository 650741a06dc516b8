//! Full roots, as tables of edits and operations, each with its answer.
use crate::playing::{played, session};
use mem_roots::MemRoot;
use roots_api::Op;
use std::alloc::Global;
use std::test::Fail;

/// The bytes are full, and a refusal for what stands there comes first.
const BYTES: &str = "\
E fill a 268435456 => done
E fill b 1 => bytes-full 268435456
E fill a/b 1 => refused a f
E fill b 0 => done
1 fetch a 0 0 => too-large 268435456
1 open => opened
1 append x => full 4 268435456
";

/// Bytes that were staged are held, also once they are cleared.
const CLEARED: &str = "\
1 open => opened
1 append xy => opened
1 keep xy => kept
1 place a xy - => done 0
1 clear => cleared
1 open => opened
E fill b 268435453 => bytes-full 4
E fill b 268435450 => done
1 append x => opened
1 keep x => kept
1 place c x f9 => differs -
1 place c x - => done 2
1 place d x - => full 11 268435456
";

/// A piece has 65,536 bytes at most, and is the last where it reaches the end. A file of 16,777,216 bytes is fetched, and a
/// longer one isn't.
const PIECES: &str = "\
E fill a 65536 => done
1 fetch a 0 0 => piece of 65536 last
E fill a 65537 => done
1 fetch a 1 0 => piece of 65536 more
1 fetch a 1 1 => piece of 65536 last
1 fetch a 1 65536 => piece of 1 last
E fill b 16777216 => done
1 fetch b 2 16711679 => piece of 65536 more
1 fetch b 2 16711680 => piece of 65536 last
E fill b 16777217 => done
1 fetch b 3 16711680 => too-large 16777217
";

/// Two folders in an empty root.
const FOLDERS: &str = "\
E dir a => done
E dir b => done
";

/// The log has room for two events more.
const LAST: &str = "\
1 list  => full 999998 0
1 list a => listed
1 list a => listed
1 list a => full 1000000 0
E dir a/c => log-full 1000000
E put q/r x => log-full 1000000
";

#[test]
fn bytes_are_full(rt: HostRuntime) -> Result<(), Fail> {
    let alloc = rt.alloc();
    let mut root = MemRoot::new(alloc)?;
    assert_eq!(rt; played(alloc, &mut root, BYTES)?.as_str(), BYTES);
    Ok(())
}

#[test]
fn cleared_bytes_are_held(rt: HostRuntime) -> Result<(), Fail> {
    let alloc = rt.alloc();
    let mut root = MemRoot::new(alloc)?;
    assert_eq!(rt; played(alloc, &mut root, CLEARED)?.as_str(), CLEARED);
    Ok(())
}

#[test]
fn long_files_are_fetched_in_pieces(rt: HostRuntime) -> Result<(), Fail> {
    let alloc = rt.alloc();
    let mut root = MemRoot::new(alloc)?;
    assert_eq!(rt; played(alloc, &mut root, PIECES)?.as_str(), PIECES);
    Ok(())
}

// Logs so many operations.
fn log_many(alloc: Global, root: &mut MemRoot, count: u64) -> Result<(), Fail> {
    for _ in 0..count {
        let _ = root.call(alloc, &session(1), &Op::StageClear)?;
    }
    Ok(())
}

#[test]
fn the_log_is_full(rt: HostRuntime) -> Result<(), Fail> {
    let alloc = rt.alloc();
    let mut root = MemRoot::new(alloc)?;
    assert_eq!(rt; played(alloc, &mut root, FOLDERS)?.as_str(), FOLDERS);
    log_many(alloc, &mut root, 999_996)?;
    assert_eq!(rt; played(alloc, &mut root, LAST)?.as_str(), LAST);
    Ok(())
}
