//! The eight roots, by their names.
use crate::playing::session;
use entry_tree::{Atom, Digest};
use mem_roots::MemRoots;
use roots_api::{Answer, Content, Edit, Op, Roots};
use std::alloc::Global;
use std::test::Fail;
use sync_path::Path;

#[test]
fn eight_roots_have_names(rt: HostRuntime) -> Result<(), Fail> {
    let roots = MemRoots::eight(rt.alloc())?;
    for name in ["A", "B", "C", "D", "E", "F", "G", "H"] {
        assert!(rt; roots.find(name).is_some(), "{name}");
    }
    for name in ["", "@", "I", "AB", "a"] {
        assert!(rt; roots.find(name).is_none(), "{name}");
    }
    Ok(())
}

// Puts a file of `abc` at `f`.
fn put(alloc: Global, roots: &mut impl Roots, name: &str) -> Result<(), Fail> {
    let root = roots.find(name).ok_or("no root")?;
    let path = Path::read(alloc, "f")?;
    let bytes = Content::of(alloc, b"abc")?;
    roots.edit(alloc, root, &Edit::Put { path, bytes })?;
    Ok(())
}

// Whether that file is shown.
fn shows(alloc: Global, roots: &impl Roots, name: &str) -> Result<bool, Fail> {
    let root = roots.find(name).ok_or("no root")?;
    let view = roots.view(alloc, root)?;
    let path = Path::read(alloc, "f")?;
    Ok(view.get(&path) == Some(&Atom::File(Digest::of(b"abc"), false)))
}

// Whether a file to be staged is begun.
fn opens(alloc: Global, roots: &mut impl Roots, name: &str) -> Result<bool, Fail> {
    let root = roots.find(name).ok_or("no root")?;
    let answer = roots.call(alloc, root, &session(1), &Op::StageOpen)?;
    Ok(matches!(&answer, Answer::Opened))
}

// The first operation is to fail.
fn fail_first(alloc: Global, roots: &mut MemRoots, name: &str) -> Result<(), Fail> {
    let root = roots.find(name).ok_or("no root")?;
    roots.fail(alloc, root, &[0])?;
    Ok(())
}

// How many events the log has.
fn logged(roots: &MemRoots, name: &str) -> Result<usize, Fail> {
    let root = roots.find(name).ok_or("no root")?;
    Ok(roots.log(root).len())
}

#[test]
fn eight_roots_are_apart(rt: HostRuntime) -> Result<(), Fail> {
    let alloc = rt.alloc();
    let mut roots = MemRoots::eight(alloc)?;
    put(alloc, &mut roots, "H")?;
    fail_first(alloc, &mut roots, "H")?;
    assert!(rt; opens(alloc, &mut roots, "A")?);
    assert!(rt; !opens(alloc, &mut roots, "H")?);
    assert!(rt; !shows(alloc, &roots, "A")?);
    assert!(rt; shows(alloc, &roots, "H")?);
    assert_eq!(rt; logged(&roots, "A")?, 1);
    assert_eq!(rt; logged(&roots, "B")?, 0);
    assert_eq!(rt; logged(&roots, "H")?, 2);
    Ok(())
}
