//! Tests of the cache.
use entry_tree::{Digest, Stamp};
use scan_cache::Cache;
use std::alloc::AllocError;
use sync_path::Path;

// Whether the cache knows the file with this stamp at the root, by the digest of these bytes.
fn knows(cache: &Cache, path: &Path, stamp: u128, bytes: &[u8]) -> bool {
    cache.lookup(path, Stamp(stamp)) == Some(Digest::of(bytes))
}

#[test]
fn learns_and_finds(rt: HostRuntime) -> Result<(), AllocError> {
    let alloc = rt.alloc();
    let path = Path::root(alloc);
    let mut cache = Cache::new(alloc);
    assert!(rt; cache.lookup(&path, Stamp(7)).is_none());
    cache.learn(alloc, &path, Stamp(7), Digest::of(b"a"))?;
    assert!(rt; knows(&cache, &path, 7, b"a"));
    assert!(rt; cache.lookup(&path, Stamp(8)).is_none());
    cache.learn(alloc, &path, Stamp(8), Digest::of(b"b"))?;
    assert!(rt; knows(&cache, &path, 8, b"b"));
    Ok(())
}
