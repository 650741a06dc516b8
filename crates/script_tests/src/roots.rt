//! The roots, and the maps of their files.
use script_engine::{Contents, FlatRoots, NameMap, RootName};
use std::test::Fail;
use sync_path::Name;

#[test]
fn a_file_is_found_in_its_root_alone(rt: HostRuntime) -> Result<(), Fail> {
    let alloc = rt.alloc();
    let name = Name::read(alloc, "a")?;
    let mut roots = FlatRoots::two(alloc);
    for text in ["one", "two"] {
        roots.put(
            RootName::B,
            name.copy(alloc)?,
            Contents::new(alloc, text.as_bytes())?,
        )?;
    }
    assert_eq!(rt; roots.get("B", &name), Some(b"two".as_slice()));
    for root in ["A", "b", "AB", ""] {
        assert!(rt; roots.get(root, &name).is_none(), "{root}");
    }
    assert_eq!(rt; roots.files(RootName::A).len(), 0);
    assert_eq!(rt; roots.files(RootName::B).len(), 1);
    Ok(())
}

#[test]
fn the_roots_change_places(rt: HostRuntime) -> Result<(), Fail> {
    let alloc = rt.alloc();
    let name = Name::read(alloc, "a")?;
    let mut files = NameMap::new(alloc);
    files.insert(name.copy(alloc)?, Contents::new(alloc, b"one")?)?;
    let mut roots = FlatRoots::two(alloc);
    roots.replace(RootName::B, files, NameMap::new(alloc));
    assert!(rt; roots.get("A", &name).is_none());
    assert!(rt; roots.get("B", &name).is_some());
    assert_eq!(rt; RootName::B.other(), RootName::A);
    assert_eq!(rt; RootName::A.other(), RootName::B);
    Ok(())
}

#[test]
fn a_map_goes_over_its_names_in_the_order_of_their_bytes(rt: HostRuntime) -> Result<(), Fail> {
    let alloc = rt.alloc();
    let mut sizes: NameMap<u32> = NameMap::new(alloc);
    assert!(rt; sizes.is_empty());
    for (text, size) in [("b", 1), ("é", 2), ("a", 3), ("B", 4), ("a", 5)] {
        sizes.insert(Name::read(alloc, text)?, size)?;
    }
    assert_eq!(rt; sizes.len(), 4);
    assert_eq!(rt; sizes.get(&Name::read(alloc, "a")?).copied(), Some(5));
    assert_eq!(rt; sizes.get(&Name::read(alloc, "c")?).copied(), None);
    let mut order = String::new(alloc);
    for (name, _) in sizes.iter() {
        order.push_str(name.as_str())?;
    }
    assert_eq!(rt; order.as_str(), "Babé");
    Ok(())
}
