//! Tests of what no clause says: what folders hold, the order of walks, removals, subtrees, children, and entries in trees.
use entry_tree::{Atom, Digest, Entry, Node, Side, Stamp, Subtree, Text, Tree, TreeError, TreeOf};
use std::alloc::{AllocError, Global};
use std::test::Fail;
use sync_path::Path;

// A tree with the folder at the root and these entries: a folder for a name that ends in `/`, else a file.
fn planted(alloc: Global, texts: &[&str]) -> Result<Tree, Fail> {
    let mut tree = Tree::new(alloc);
    tree.set(alloc, &Path::root(alloc), Atom::Dir)?;
    for text in texts {
        match text.strip_suffix("/") {
            Some(folder) => tree.set(alloc, &Path::read(alloc, folder)?, Atom::Dir)?,
            None => tree.set(
                alloc,
                &Path::read(alloc, text)?,
                Atom::File(Digest::of(b""), false),
            )?,
        }
    }
    Ok(tree)
}

// The paths of a tree in the order of its walk, with a space behind each.
fn paths(alloc: Global, tree: &Tree) -> Result<String, AllocError> {
    let mut all = String::new(alloc);
    for (path, _) in tree.iter() {
        all.push_str(path.write(alloc)?.as_str())?;
        all.push_str(" ")?;
    }
    Ok(all)
}

fn paths_under(alloc: Global, tree: &Tree, path: &Path) -> Result<String, AllocError> {
    let mut all = String::new(alloc);
    for (path, _) in tree.under(path) {
        all.push_str(path.write(alloc)?.as_str())?;
        all.push_str(" ")?;
    }
    Ok(all)
}

fn names(alloc: Global, tree: &Tree, path: &Path) -> Result<String, AllocError> {
    let mut all = String::new(alloc);
    for name in &tree.names(alloc, path)? {
        all.push_str(name.as_str())?;
        all.push_str(" ")?;
    }
    Ok(all)
}

#[test]
fn only_a_folder_has_something_below(rt: HostRuntime) -> Result<(), Fail> {
    let alloc = rt.alloc();
    let mut tree = Tree::new(alloc);
    let root = Path::root(alloc);
    let below = Path::read(alloc, "a/b")?;
    assert!(rt; tree.is_empty());
    assert!(rt; tree.set(alloc, &below, Atom::Dir) == Err(TreeError::NoParent));
    tree.set(alloc, &root, Atom::Dir)?;
    tree.set(
        alloc,
        &Path::read(alloc, "a")?,
        Atom::File(Digest::of(b""), false),
    )?;
    assert!(rt; tree.set(alloc, &below, Atom::Dir) == Err(TreeError::NotDir));
    assert_eq!(rt; names(alloc, &tree, &root)?.as_str(), "a ");
    assert_eq!(rt; tree.len(), 2);
    Ok(())
}

#[test]
fn walks_are_in_path_order_and_removals_take_what_is_below(rt: HostRuntime) -> Result<(), Fail> {
    let alloc = rt.alloc();
    let root = Path::root(alloc);
    let a = Path::read(alloc, "a")?;
    let mut tree = planted(alloc, &["ab", "a-b", "a/", "a/z", "a/b/", "a/b/c"])?;
    assert_eq!(rt; paths(alloc, &tree)?.as_str(), " a a/b a/b/c a/z a-b ab ");
    assert_eq!(rt; paths_under(alloc, &tree, &a)?.as_str(), "a a/b a/b/c a/z ");
    assert_eq!(rt; names(alloc, &tree, &a)?.as_str(), "b z ");
    assert_eq!(rt; names(alloc, &tree, &root)?.as_str(), "a a-b ab ");
    assert!(rt; tree.has_below(&a));
    let mut copy = tree.copy(alloc)?;
    tree.set(alloc, &a, Atom::Link(Text::read(alloc, "ab")?))?;
    assert_eq!(rt; paths(alloc, &tree)?.as_str(), " a a-b ab ");
    assert!(rt; !tree.has_below(&a));
    copy.remove_under(&a);
    assert_eq!(rt; paths(alloc, &copy)?.as_str(), " a-b ab ");
    copy.remove_under(&root);
    assert!(rt; copy.is_empty());
    Ok(())
}

#[test]
fn a_subtree_holds_what_stands_at_and_below_its_path(rt: HostRuntime) -> Result<(), Fail> {
    let alloc = rt.alloc();
    let tree = planted(alloc, &["ab", "a-b", "a/", "a/z", "a/b/", "a/b/c"])?;
    let subtree = tree
        .subtree(alloc, &Path::read(alloc, "a/b")?)?
        .copy(alloc)?;
    let mut all = String::new(alloc);
    for (path, node) in subtree.entries().iter().rev() {
        assert!(rt; subtree.get(path) == Some(node) && tree.get(path) == Some(node));
        all.push_str(path.write(alloc)?.as_str())?;
        all.push_str(" ")?;
    }
    assert_eq!(rt; all.as_str(), "a/b/c a/b ");
    assert!(rt; subtree.get(&Path::read(alloc, "a")?).is_none());
    assert!(rt; subtree.len() == 2 && !subtree.is_empty());
    assert!(rt; Subtree::new(alloc).is_empty());
    Ok(())
}

#[test]
fn children_stand_behind_folders_that_hold_more(rt: HostRuntime) -> Result<(), Fail> {
    let alloc = rt.alloc();
    let root = Path::root(alloc);
    let tree = planted(alloc, &["a/", "a/x/", "a/x/y", "a ", "a!", "b/", "b/z"])?;
    assert_eq!(rt; names(alloc, &tree, &root)?.as_str(), "a a  a! b ");
    for child in &tree.children(alloc, &root)? {
        let path = root.child(alloc, &child.name)?;
        assert!(rt; tree.get(&path) == Some(child.node));
    }
    Ok(())
}

#[test]
fn entries_stand_in_trees_too(rt: HostRuntime) -> Result<(), Fail> {
    let alloc = rt.alloc();
    let mut tree: TreeOf<Entry> = TreeOf::new(alloc);
    let root = Path::root(alloc);
    tree.set(alloc, &root, Entry::Dir)?;
    let cases = [
        ("a", Entry::File(Stamp(7), false)),
        ("b", Entry::Link(Text::read(alloc, "a")?)),
        ("c", Entry::Other),
    ];
    for (text, entry) in cases {
        let path = Path::read(alloc, text)?;
        assert!(rt; !entry.is_dir());
        tree.set(alloc, &path, entry.copy(alloc)?)?;
        assert!(rt; tree.get(&path) == Some(&entry), "{text}");
    }
    assert!(rt; tree.get(&root) == Some(&Entry::Dir));
    assert!(rt; Side::Alpha.other() == Side::Beta);
    assert!(rt; Side::Beta.other() == Side::Alpha);
    Ok(())
}

#[test]
fn folders_files_and_links_are_tracked(rt: HostRuntime) -> Result<(), Fail> {
    let alloc = rt.alloc();
    let file = Atom::File(Digest::of(b"a"), true);
    let link = Atom::Link(Text::read(alloc, "a")?);
    assert!(rt; Atom::Dir.is_tracked() && file.is_tracked() && link.is_tracked());
    assert!(rt; !Atom::Untracked.is_tracked());
    assert!(rt; file.is_same(&file.copy(alloc)?));
    assert!(rt; !file.is_same(&link));
    Ok(())
}
