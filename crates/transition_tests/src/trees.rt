//! Trees as lines of text: `d/` a folder (`/` the root), `f=x` a file of the bytes x, `f*x` an executable one, `l@x` a link, `_` nothing.
use entry_tree::{Atom, Digest, Stamp, Subtree, Text, Tree};
use roots_api::Stamps;
use std::alloc::Global;
use std::test::Fail;
use sync_path::Path;

fn put(alloc: Global, tree: &mut Tree, path: &str, atom: Atom) -> Result<(), Fail> {
    let path = Path::read(alloc, path)?;
    tree.set(alloc, &path, atom)?;
    Ok(())
}

fn file(bytes: &str, executable: bool) -> Atom {
    Atom::File(Digest::of(bytes.as_bytes()), executable)
}

fn tree_of(alloc: Global, line: &str) -> Result<Tree, Fail> {
    let mut tree = Tree::new(alloc);
    for word in line.split(' ') {
        if let Some(path) = word.strip_suffix('/') {
            put(alloc, &mut tree, path, Atom::Dir)?;
        } else if let Some((path, bytes)) = word.split_once('=') {
            put(alloc, &mut tree, path, file(bytes, false))?;
        } else if let Some((path, bytes)) = word.split_once('*') {
            put(alloc, &mut tree, path, file(bytes, true))?;
        } else if let Some((path, text)) = word.split_once('@') {
            put(alloc, &mut tree, path, Atom::Link(Text::read(alloc, text)?))?;
        }
    }
    Ok(tree)
}

/// What the tree of a line holds at and below the path.
pub fn subtree_of(alloc: Global, line: &str, path: &Path) -> Result<Subtree, Fail> {
    let tree = tree_of(alloc, line)?;
    Ok(tree.subtree(alloc, path)?)
}

/// A stamp for each path.
pub fn stamps_of(alloc: Global, subtree: &Subtree) -> Result<Stamps, Fail> {
    let mut stamps = Stamps::new(alloc);
    for (path, _) in subtree.entries() {
        stamps.set(path.copy(alloc)?, Stamp(7))?;
    }
    Ok(stamps)
}
