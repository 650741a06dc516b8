//! Paths: which texts are read, and where the others are bad; their order; a child and its parent.
use crate::names::repeated;
use std::alloc::{AllocError, Global};
use std::collections::BTreeMap;
use std::test::Fail;
use sync_path::{Name, Path, PathError};

// The text of the path that is read, or the place at which the text is bad.
fn text_or_place(alloc: Global, text: &str) -> Result<Result<String, u32>, AllocError> {
    match Path::read(alloc, text) {
        Ok(path) => Ok(Ok(path.write(alloc)?)),
        Err(PathError::Bad(bad)) => Ok(Err(bad.place)),
        Err(PathError::Memory) => Err(AllocError),
    }
}

// The place at which a text is bad, if it is.
fn place_of(alloc: Global, text: &str) -> Result<Option<u32>, AllocError> {
    match text_or_place(alloc, text)? {
        Ok(_) => Ok(None),
        Err(place) => Ok(Some(place)),
    }
}

#[test]
fn texts_that_are_paths_and_the_places_of_others(rt: HostRuntime) -> Result<(), Fail> {
    let alloc = rt.alloc();
    let cases = [
        ("", None),
        ("a", None),
        ("a/b-c/ü", None),
        ("a//b", Some(2)),
        ("/a", Some(0)),
        ("a/b/", Some(4)),
        ("ü/..", Some(3)),
        ("a\0b", Some(0)),
    ];
    for (text, place) in cases {
        match text_or_place(alloc, text)? {
            Ok(written) => {
                assert_eq!(rt; written.as_str(), text);
                assert_eq!(rt; place, None, "{text:?}");
            }
            Err(found) => assert_eq!(rt; Some(found), place, "{text:?}"),
        }
    }
    Ok(())
}

#[test]
fn a_path_has_at_most_64_names_and_4096_bytes(rt: HostRuntime) -> Result<(), Fail> {
    let alloc = rt.alloc();
    let mut text = repeated(alloc, "a/", 63)?;
    text.push_str("b")?;
    let path = Path::read(alloc, text.as_str())?;
    assert_eq!(rt; path.depth(), 64);
    match path.child(alloc, &Name::read(alloc, "c")?) {
        Err(PathError::Bad(bad)) => assert_eq!(rt; bad.place, 128),
        _ => assert!(rt; false, "a 65th name"),
    }
    text.push_str("/c")?;
    assert_eq!(rt; place_of(alloc, text.as_str())?, Some(128));

    // Fifteen names of 255 bytes and one of 254 end at byte 4,094.
    let mut name = repeated(alloc, "n", 255)?;
    name.push_str("/")?;
    let mut text = repeated(alloc, name.as_str(), 15)?;
    text.push_str(repeated(alloc, "n", 254)?.as_str())?;
    text.push_str("/b")?;
    assert_eq!(rt; text.len(), 4096);
    assert_eq!(rt; place_of(alloc, text.as_str())?, None);
    text.push_str("b")?;
    assert_eq!(rt; place_of(alloc, text.as_str())?, Some(4095));
    Ok(())
}

#[test]
fn a_child_and_its_parent(rt: HostRuntime) -> Result<(), Fail> {
    let alloc = rt.alloc();
    let path = Path::read(alloc, "a/b")?;
    let child = path.child(alloc, &Name::read(alloc, "c")?)?;
    assert_eq!(rt; child.write(alloc)?.as_str(), "a/b/c");
    assert_eq!(rt; child.last_name(), Some("c"));
    let name = child.copy_last_name(alloc)?.ok_or("a name")?;
    assert_eq!(rt; name.as_str(), "c");
    let parent = child.parent(alloc)?.ok_or("a parent")?;
    assert_eq!(rt; parent.write(alloc)?.as_str(), "a/b");
    let root = Path::root(alloc);
    let mut aside = child.copy(alloc)?;
    aside.copy_from(&path)?;
    assert!(rt; aside == path);
    aside.copy_from(&root)?;
    assert!(rt; aside.is_root());
    assert!(rt; root.parent(alloc)?.is_none());
    assert!(rt; root.is_root());
    assert_eq!(rt; root.last_name(), None);
    Ok(())
}

#[test]
fn a_map_has_its_paths_in_path_order(rt: HostRuntime) -> Result<(), Fail> {
    let alloc = rt.alloc();
    let mut depths: BTreeMap<Path, usize> = BTreeMap::new(alloc);
    for text in ["b", "a-b", "a/b", "ab", "a", "a/b/c"] {
        let path = Path::read(alloc, text)?;
        let depth = path.names().count();
        let _ = depths.insert(path, depth)?;
    }
    let folder = Path::read(alloc, "a")?;
    let mut order = String::new(alloc);
    let mut below = 0;
    for (path, depth) in &depths {
        assert_eq!(rt; path.depth(), *depth);
        order.push_str(path.write(alloc)?.as_str())?;
        order.push_str(" ")?;
        if path.is_under(&folder) && below < 9 {
            below += 1;
        }
    }
    assert_eq!(rt; order.as_str(), "a a/b a/b/c a-b ab b ");
    assert_eq!(rt; below, 3);
    Ok(())
}
