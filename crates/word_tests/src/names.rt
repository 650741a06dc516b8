//! Tests of what no clause says: which texts are names, how long a name is, and the order of names in a map.
ghost use Rattle.std.specs.Prelude.{◌≡◌};
ghost use Rattle.std.specs.BTreeMap.{get};
ghost use Rattle.std.specs.Cmp.Lexicographic.{slice_cmp};
ghost use Rattle.std.specs.Ordering.{nat_cmp};

use std::alloc::{AllocError, Global};
use std::collections::BTreeMap;
use std::test::Fail;
use sync_path::{Name, PathError};

// A map's contract at a name: the value at the name's bytes, in the order of bytes.
fn count_at(counts: &BTreeMap<Name, u8>, name: &Name) -> Option<u8>
    ensures { result ≡ get (slice_cmp nat_cmp) counts.now name.now }
{
    counts.get(name).copied()
}

/// A text that is a piece, so many times.
pub fn repeated(alloc: Global, piece: &str, times: usize) -> Result<String, AllocError> {
    let mut text = String::new(alloc);
    for _ in 0..times {
        text.push_str(piece)?;
    }
    Ok(text)
}

// The name, or the place at which the text is bad.
fn name_or_place(alloc: Global, text: &str) -> Result<Result<Name, u32>, AllocError> {
    match Name::read(alloc, text) {
        Ok(name) => Ok(Ok(name)),
        Err(PathError::Bad(bad)) => Ok(Err(bad.place)),
        Err(PathError::Memory) => Err(AllocError),
    }
}

#[test]
fn texts_that_are_names_and_texts_that_are_not(rt: HostRuntime) -> Result<(), Fail> {
    let alloc = rt.alloc();
    let cases = [
        ("", false),
        (".", false),
        ("..", false),
        ("...", true),
        (".a", true),
        ("a", true),
        ("a/b", false),
        ("/", false),
        ("a\u{1f}b", false),
        ("\u{0}", false),
        (" ", true),
        ("a\u{7f}", true),
        ("ünïcödé", true),
        ("名前", true),
    ];
    for (text, good) in cases {
        match name_or_place(alloc, text)? {
            Ok(name) => {
                assert!(rt; good, "{text:?}");
                assert_eq!(rt; name.as_str(), text);
            }
            Err(place) => {
                assert!(rt; !good, "{text:?}");
                assert_eq!(rt; place, 0);
            }
        }
    }
    Ok(())
}

#[test]
fn a_name_has_at_most_255_bytes(rt: HostRuntime) -> Result<(), Fail> {
    let alloc = rt.alloc();
    let cases = [
        ("a", 255, true),
        ("a", 256, false),
        ("é", 127, true),
        ("é", 128, false),
    ];
    for (piece, times, good) in cases {
        let text = repeated(alloc, piece, times)?;
        assert_eq!(rt;
            name_or_place(alloc, text.as_str())?.is_ok(),
            good,
            "{times} times {piece}"
        );
    }
    Ok(())
}

#[test]
fn a_map_has_its_names_in_the_order_of_bytes(rt: HostRuntime) -> Result<(), Fail> {
    let alloc = rt.alloc();
    let mut counts: BTreeMap<Name, u8> = BTreeMap::new(alloc);
    for (text, count) in [("b", 1), ("é", 2), ("a", 3), ("ab", 4), ("B", 5), ("a", 6)] {
        let _ = counts.insert(Name::read(alloc, text)?, count)?;
    }
    let mut order = String::new(alloc);
    for (name, count) in &counts {
        order.push_str(name.as_str())?;
        assert_eq!(rt; count_at(&counts, &name.copy(alloc)?), Some(*count));
    }
    assert_eq!(rt; order.as_str(), "Baabbé");
    assert_eq!(rt; count_at(&counts, &Name::read(alloc, "a")?), Some(6));
    assert_eq!(rt; count_at(&counts, &Name::read(alloc, "c")?), None);
    Ok(())
}
