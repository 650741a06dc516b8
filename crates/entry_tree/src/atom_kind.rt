//! The kinds of atoms, and the words that begin them.
ghost use Rattle.std.specs.Prelude.{◌≡◌};
ghost use Rattle.entry_tree.specs.AtomReading.{kind_of_word};

/// The kind of an atom, which its first word tells.
#[derive(Clone, Copy, Debug)]
pub(crate) enum AtomKind {
    Dir,
    File,
    Link,
    Untracked,
    Problem,
}

// The kind that a word begins, if it begins one.
pub(crate) fn kind_of_word(word: &[u8]) -> Option<AtomKind>
    ensures { result ≡ kind_of_word word.now }
{
    if word == b"dir".as_slice() {
        return Some(AtomKind::Dir);
    }
    if word == b"file".as_slice() {
        return Some(AtomKind::File);
    }
    if word == b"link".as_slice() {
        return Some(AtomKind::Link);
    }
    if word == b"untracked".as_slice() {
        return Some(AtomKind::Untracked);
    }
    if word == b"problem".as_slice() {
        return Some(AtomKind::Problem);
    }
    None
}
