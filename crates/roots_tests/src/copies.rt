//! Tests of what no clause says: leaves, rows and stamps, and copies of operations, edits and answers.
use entry_tree::{Digest, Entry, Stamp, Text};
use roots_api::{Answer, Content, Edit, FileEntry, Leaf, Op, Room, Rows, Stamps, Tracked};
use std::alloc::Global;
use std::test::Fail;
use sync_path::{Name, Path};

// The kinds of entries, by a letter each: a folder, a file, a link, another thing.
fn entry(alloc: Global, kind: char) -> Result<Entry, Fail> {
    match kind {
        'd' => Ok(Entry::Dir),
        'f' => Ok(Entry::File(Stamp(7), true)),
        'l' => Ok(Entry::Link(Text::read(alloc, "there")?)),
        _ => Ok(Entry::Other),
    }
}

fn is_leaf(alloc: Global, kind: char) -> Result<bool, Fail> {
    match Leaf::of(entry(alloc, kind)?) {
        None => Ok(false),
        Some(leaf) => {
            let copy = leaf.copy(alloc)?;
            Ok(copy.entry() == leaf.entry())
        }
    }
}

fn is_file(alloc: Global, kind: char) -> Result<bool, Fail> {
    match FileEntry::of(&entry(alloc, kind)?) {
        None => Ok(false),
        Some(file) => Ok(file.copy().entry() == Entry::File(Stamp(7), true)),
    }
}

fn is_tracked(alloc: Global, kind: char) -> Result<bool, Fail> {
    match Tracked::of(entry(alloc, kind)?) {
        None => Ok(false),
        Some(tracked) => {
            let copy = tracked.copy(alloc)?;
            Ok(copy.entry() == tracked.entry())
        }
    }
}

#[test]
fn what_is_replaced_and_what_is_taken_away(rt: HostRuntime) -> Result<(), Fail> {
    let alloc = rt.alloc();
    for (kind, leaf, file, tracked) in [
        ('d', false, false, true),
        ('f', true, true, true),
        ('l', true, false, true),
        ('o', false, false, false),
    ] {
        assert_eq!(rt; is_file(alloc, kind)?, file, "{kind}");
        assert_eq!(rt; is_leaf(alloc, kind)?, leaf, "{kind}");
        assert_eq!(rt; is_tracked(alloc, kind)?, tracked, "{kind}");
    }
    Ok(())
}

#[test]
fn rows_and_their_copy(rt: HostRuntime) -> Result<(), Fail> {
    let alloc = rt.alloc();
    let mut rows = Rows::new(alloc);
    assert!(rt; rows.is_empty());
    rows.push(Name::read(alloc, "a")?, entry(alloc, 'l')?)?;
    let copy = rows.copy(alloc)?;
    assert_eq!(rt; copy.len(), 1);
    for (name, entry) in copy.as_slice() {
        assert_eq!(rt; name.as_str(), "a");
        assert!(rt; matches!(entry, Entry::Link(_)));
    }
    Ok(())
}

#[test]
fn stamps_by_path(rt: HostRuntime) -> Result<(), Fail> {
    let alloc = rt.alloc();
    let mut stamps = Stamps::new(alloc);
    for (text, stamp) in [("a/b", 3), ("a", 4), ("a/b", 5)] {
        stamps.set(Path::read(alloc, text)?, Stamp(stamp))?;
    }
    let path = Path::read(alloc, "a/b")?;
    assert_eq!(rt; stamps.get(&path), Some(Stamp(5)));
    Ok(())
}

fn op(alloc: Global, kind: &str, path: Path) -> Result<Op, Fail> {
    match kind {
        "list" => Ok(Op::List { path }),
        "fetch" => Ok(Op::Fetch {
            path,
            stamp: Stamp(1),
            offset: 65_536,
        }),
        "clear" => Ok(Op::StageClear),
        "open" => Ok(Op::StageOpen),
        "append" => Ok(Op::StageAppend {
            bytes: Content::of(alloc, b"abc")?,
        }),
        "keep" => Ok(Op::StageKeep {
            digest: Digest::of(b"abc"),
        }),
        "place" => Ok(Op::Place {
            path,
            digest: Digest::of(b"abc"),
            exec: true,
            expected: Leaf::of(Entry::File(Stamp(2), false)),
        }),
        "dir" => Ok(Op::MakeDir { path }),
        "link" => Ok(Op::MakeLink {
            path,
            text: Text::read(alloc, "there")?,
            expected: None,
        }),
        "exec" => Ok(Op::SetExec {
            path,
            expected: FileEntry::new(Stamp(2), true),
            on: false,
        }),
        _ => Ok(Op::Remove {
            path,
            expected: Tracked::of(Entry::Dir).ok_or("a folder is tracked")?,
        }),
    }
}

#[test]
fn copies_of_operations(rt: HostRuntime) -> Result<(), Fail> {
    let alloc = rt.alloc();
    for kind in [
        "list", "fetch", "clear", "open", "append", "keep", "place", "dir", "link", "remove",
        "exec",
    ] {
        let op = op(alloc, kind, Path::read(alloc, "d/f")?)?;
        let copy = op.copy(alloc)?;
        let text = format!(in alloc; "{op:?}")?;
        let again = format!(in alloc; "{copy:?}")?;
        assert_eq!(rt; text.as_str(), again.as_str());
    }
    Ok(())
}

fn edit(alloc: Global, kind: &str, path: Path) -> Result<Edit, Fail> {
    match kind {
        "put" => Ok(Edit::Put {
            path,
            bytes: Content::of(alloc, b"abc")?,
        }),
        "link" => Ok(Edit::Link {
            path,
            text: Text::read(alloc, "there")?,
        }),
        "dir" => Ok(Edit::Dir { path }),
        "other" => Ok(Edit::Other { path }),
        "exec" => Ok(Edit::SetExec { path, on: true }),
        _ => Ok(Edit::Del { path }),
    }
}

#[test]
fn copies_of_edits(rt: HostRuntime) -> Result<(), Fail> {
    let alloc = rt.alloc();
    for kind in ["put", "link", "dir", "other", "exec", "del"] {
        let edit = edit(alloc, kind, Path::read(alloc, "d/f")?)?;
        let copy = edit.copy(alloc)?;
        let text = format!(in alloc; "{edit:?}")?;
        let again = format!(in alloc; "{copy:?}")?;
        assert_eq!(rt; text.as_str(), again.as_str());
    }
    Ok(())
}

fn answer(alloc: Global, kind: &str) -> Result<Answer, Fail> {
    match kind {
        "listed" => {
            let mut rows = Rows::new(alloc);
            rows.push(Name::read(alloc, "a")?, entry(alloc, 'l')?)?;
            Ok(Answer::Listed(rows))
        }
        "held" => Ok(Answer::Held(Some(entry(alloc, 'l')?))),
        "piece" => Ok(Answer::Piece {
            bytes: Content::of(alloc, b"abc")?,
            last: false,
        }),
        "kept" => Ok(Answer::Kept),
        "digest-differs" => Ok(Answer::DigestDiffers {
            wanted: Digest::of(b"abc"),
            got: Digest::of(b"ab"),
        }),
        "done" => Ok(Answer::Done(Some(Stamp(3)))),
        "no-parent" => Ok(Answer::NoParent(None)),
        "no-exec" => Ok(Answer::NoExec),
        _ => Ok(Answer::Full(Room { log: 1, bytes: 2 })),
    }
}

#[test]
fn copies_of_answers(rt: HostRuntime) -> Result<(), Fail> {
    let alloc = rt.alloc();
    for kind in [
        "listed",
        "held",
        "piece",
        "kept",
        "digest-differs",
        "done",
        "no-parent",
        "no-exec",
        "full",
    ] {
        let answer = answer(alloc, kind)?;
        let copy = answer.copy(alloc)?;
        let text = format!(in alloc; "{answer:?}")?;
        let again = format!(in alloc; "{copy:?}")?;
        assert_eq!(rt; text.as_str(), again.as_str());
    }
    Ok(())
}
