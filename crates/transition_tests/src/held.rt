//! What a root holds as words, as trees are written, with `o!` for what is never tracked.
use entry_tree::{Atom, Digest};
use mem_roots::MemRoot;
use std::alloc::Global;
use std::test::Fail;

// The bytes of this digest, if they are one of three.
fn bytes_of(digest: &Digest) -> &'static str {
    for bytes in ["1", "2", "3"] {
        if Digest::of(bytes.as_bytes()) == *digest {
            return bytes;
        }
    }
    "?"
}

fn push_atom(text: &mut String, atom: &Atom) -> Result<(), Fail> {
    match atom {
        Atom::Dir => text.push_str("/")?,
        Atom::File(digest, executable) => {
            text.push_str(if *executable { "*" } else { "=" })?;
            text.push_str(bytes_of(digest))?;
        }
        Atom::Link(link) => {
            text.push_str("@")?;
            text.push_str(link.as_str())?;
        }
        Atom::Untracked => text.push_str("!")?,
        Atom::Problem(_) => text.push_str("?")?,
    }
    Ok(())
}

/// Writes what the root shows, each path with a space before it.
pub fn push_held(alloc: Global, root: &MemRoot, text: &mut String) -> Result<(), Fail> {
    let tree = root.view(alloc)?;
    for (path, atom) in tree.iter() {
        text.push_str(" ")?;
        text.push_str(path.write(alloc)?.as_str())?;
        push_atom(text, atom)?;
    }
    Ok(())
}
