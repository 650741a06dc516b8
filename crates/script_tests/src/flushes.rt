//! What a flush leaves at a name, also where a side lost its file, which no line of a script does.
use entry_tree::Digest;
use script_engine::flush::flush;
use script_engine::{Contents, NameMap};
use std::alloc::Global;
use std::test::Fail;
use sync_path::Name;

/// What stands for no file.
const NONE: u8 = b'-';

// The map of a file of this one byte at the name, or of none.
fn files_of(alloc: Global, name: &Name, byte: u8) -> Result<NameMap<Contents>, Fail> {
    let mut files = NameMap::new(alloc);
    if byte != NONE {
        files.insert(name.copy(alloc)?, Contents::new(alloc, &[byte])?)?;
    }
    Ok(files)
}

// The map of this file's digest at the name, or of none.
fn digests_of(alloc: Global, name: &Name, byte: u8) -> Result<NameMap<Digest>, Fail> {
    let mut digests = NameMap::new(alloc);
    if byte != NONE {
        digests.insert(name.copy(alloc)?, Digest::of(&[byte]))?;
    }
    Ok(digests)
}

// Whether the map has this file at the name, or none.
fn has_file(files: &NameMap<Contents>, name: &Name, byte: u8) -> bool {
    match files.get(name) {
        Some(contents) => contents.as_slice() == [byte].as_slice(),
        None => byte == NONE,
    }
}

// Whether the map has this file's digest at the name, or none.
fn has_digest(digests: &NameMap<Digest>, name: &Name, byte: u8) -> bool {
    match digests.get(name) {
        Some(digest) => *digest == Digest::of(&[byte]),
        None => byte == NONE,
    }
}

#[test]
fn each_name_is_settled(rt: HostRuntime) -> Result<(), Fail> {
    let alloc = rt.alloc();
    let name = Name::read(alloc, "name")?;
    // What the ancestor, alpha and beta hold, what they hold then, and whether that is a conflict.
    let cases = [
        (b"-x-", b"xxx", false),
        (b"--x", b"xxx", false),
        (b"-xx", b"xxx", false),
        (b"yxy", b"xxx", false),
        (b"yyx", b"xxx", false),
        (b"yxx", b"xxx", false),
        (b"y--", b"---", false),
        (b"y-y", b"---", false),
        (b"yy-", b"---", false),
        (b"-xy", b"-xy", true),
        (b"xyz", b"xyz", true),
        (b"x-y", b"x-y", true),
        (b"xy-", b"xy-", true),
    ];
    for (before, after, conflict) in cases {
        let ancestor = digests_of(alloc, &name, before[0])?;
        let alpha = files_of(alloc, &name, before[1])?;
        let beta = files_of(alloc, &name, before[2])?;
        let flushed = flush(alloc, &ancestor, &alpha, &beta)?;
        assert!(rt;
            has_digest(&flushed.ancestor, &name, after[0]),
            "of {before:?}"
        );
        assert!(rt; has_file(&flushed.alpha, &name, after[1]), "of {before:?}");
        assert!(rt; has_file(&flushed.beta, &name, after[2]), "of {before:?}");
        assert_eq!(rt; flushed.conflicts.len() == 1, conflict, "of {before:?}");
    }
    Ok(())
}
