//! Trees as lines of text.
//!
//! A tree is its entries in path order: `d/` a folder (`/` the root), `f=x` a file of the bytes x, `f*x` an executable one, `l@x` a link, `u?` what is
//! untracked, `p!` a file that wasn't seen; `_` is nothing.
use entry_tree::{Atom, Digest, ProblemKind, Subtree, Text, Tree};
use std::alloc::Global;
use std::test::Fail;
use sync_path::Path;

// The bytes of all files.
const BYTES: &[&str] = &["", "1", "2", "3", "x"];

fn put(alloc: Global, tree: &mut Tree, path: &str, atom: Atom) -> Result<(), Fail> {
    let path = Path::read(alloc, path)?;
    tree.set(alloc, &path, atom)?;
    Ok(())
}

fn file(bytes: &str, executable: bool) -> Atom {
    Atom::File(Digest::of(bytes.as_bytes()), executable)
}

/// The tree of a line.
pub fn tree_of(alloc: Global, line: &str) -> Result<Tree, Fail> {
    let mut tree = Tree::new(alloc);
    for word in line.split(' ') {
        if let Some(path) = word.strip_suffix('/') {
            put(alloc, &mut tree, path, Atom::Dir)?;
        } else if let Some(path) = word.strip_suffix('?') {
            put(alloc, &mut tree, path, Atom::Untracked)?;
        } else if let Some(path) = word.strip_suffix('!') {
            put(alloc, &mut tree, path, Atom::Problem(ProblemKind::Changed))?;
        } else if let Some((path, bytes)) = word.split_once('=') {
            put(alloc, &mut tree, path, file(bytes, false))?;
        } else if let Some((path, bytes)) = word.split_once('*') {
            put(alloc, &mut tree, path, file(bytes, true))?;
        } else if let Some((path, text)) = word.split_once('@') {
            put(alloc, &mut tree, path, Atom::Link(Text::read(alloc, text)?))?;
        }
    }
    Ok(tree)
}

// The bytes of a file, where they are among those above.
fn bytes_of(digest: &Digest) -> &'static str {
    for bytes in BYTES {
        if Digest::of(bytes.as_bytes()) == *digest {
            return bytes;
        }
    }
    "others"
}

/// Writes a path; the root is a point.
pub fn push_path(alloc: Global, text: &mut String, path: &Path) -> Result<(), Fail> {
    if path.is_root() {
        text.push_str(".")?;
    } else {
        text.push_str(path.write(alloc)?.as_str())?;
    }
    Ok(())
}

/// Writes an entry.
pub fn push_entry(alloc: Global, text: &mut String, path: &Path, atom: &Atom) -> Result<(), Fail> {
    text.push_str(path.write(alloc)?.as_str())?;
    match atom {
        Atom::Dir => text.push_str("/")?,
        Atom::File(digest, executable) => {
            text.push_str(if *executable { "*" } else { "=" })?;
            text.push_str(bytes_of(digest))?;
        }
        Atom::Link(link) => {
            text.push_str("@")?;
            text.push_str(link.as_str())?;
        }
        Atom::Untracked => text.push_str("?")?,
        Atom::Problem(_) => text.push_str("!")?,
    }
    Ok(())
}

/// Writes a subtree, with a space before each entry.
pub fn push_subtree(alloc: Global, text: &mut String, subtree: &Subtree) -> Result<(), Fail> {
    if subtree.is_empty() {
        text.push_str(" _")?;
    }
    for (path, atom) in subtree.entries() {
        text.push_str(" ")?;
        push_entry(alloc, text, path, atom)?;
    }
    Ok(())
}
