//! Lines of text that are done on a root.
ghost use Rattle.roots_api.specs.Told.{IsSession};

use crate::showing::{answer_text, edit_text};
use entry_tree::{Digest, Entry, Stamp, Text};
use mem_roots::MemRoot;
use roots_api::{Content, Edit, FileEntry, Leaf, Op, Tracked, Who};
use std::alloc::Global;
use std::test::Fail;
use sync_path::Path;

/// A session.
pub fn session(id: u128) -> Who
    ensures { IsSession result }
{
    Who::Session {
        id,
        run: 1,
        cycle: 1,
    }
}

fn content(alloc: Global, text: &str) -> Result<Content, Fail> {
    Ok(Content::of(alloc, text.as_bytes())?)
}

// So many bytes.
fn zeros(alloc: Global, len: usize) -> Result<Content, Fail> {
    Ok(Content::from_vec(vec![in alloc; 0u8; len]?))
}

fn stamp_of(text: &str) -> Result<Stamp, Fail> {
    let stamp: u64 = text.parse().ok().ok_or("no stamp")?;
    Ok(Stamp(stamp as u128))
}

// The entry of a text such as `d`, `f3`, `x3` (executable), `lthere` or `o`, or none.
fn entry_of(alloc: Global, text: &str) -> Result<Option<Entry>, Fail> {
    if let Some(stamp) = text.strip_prefix("f") {
        return Ok(Some(Entry::File(stamp_of(stamp)?, false)));
    }
    if let Some(stamp) = text.strip_prefix("x") {
        return Ok(Some(Entry::File(stamp_of(stamp)?, true)));
    }
    if let Some(link) = text.strip_prefix("l") {
        return Ok(Some(Entry::Link(Text::read(alloc, link)?)));
    }
    match text {
        "d" => Ok(Some(Entry::Dir)),
        "o" => Ok(Some(Entry::Other)),
        _ => Ok(None),
    }
}

fn leaf_of(alloc: Global, text: &str) -> Result<Option<Leaf>, Fail> {
    match entry_of(alloc, text)? {
        None => Ok(None),
        Some(entry) => Ok(Leaf::of(entry)),
    }
}

fn tracked_of(alloc: Global, text: &str) -> Result<Tracked, Fail> {
    let entry = entry_of(alloc, text)?.ok_or("no entry")?;
    Ok(Tracked::of(entry).ok_or("not tracked")?)
}

// The edit of a line such as `put a/b text`, or `fill a/b 5`, which puts so many bytes.
fn edit_of(alloc: Global, verb: &str, path: &str, word: &str) -> Result<Edit, Fail> {
    let path = Path::read(alloc, path)?;
    match verb {
        "put" => Ok(Edit::Put {
            path,
            bytes: content(alloc, word)?,
        }),
        "fill" => {
            let bytes = zeros(alloc, word.parse().ok().ok_or("no length")?)?;
            Ok(Edit::Put { path, bytes })
        }
        "link" => Ok(Edit::Link {
            path,
            text: Text::read(alloc, word)?,
        }),
        "dir" => Ok(Edit::Dir { path }),
        "other" => Ok(Edit::Other { path }),
        "exec" => Ok(Edit::SetExec {
            path,
            on: word == "on",
        }),
        _ => Ok(Edit::Del { path }),
    }
}

// The operation of a line such as `append text`, which has no path.
fn stage_of(alloc: Global, verb: &str, word: &str) -> Result<Option<Op>, Fail> {
    match verb {
        "clear" => Ok(Some(Op::StageClear)),
        "open" => Ok(Some(Op::StageOpen)),
        "append" => Ok(Some(Op::StageAppend {
            bytes: content(alloc, word)?,
        })),
        "keep" => Ok(Some(Op::StageKeep {
            digest: Digest::of(word.as_bytes()),
        })),
        _ => Ok(None),
    }
}

// Of the text's bytes, in place of the entry.
fn place_of(alloc: Global, path: Path, word: &str, more: &str, exec: bool) -> Result<Op, Fail> {
    Ok(Op::Place {
        path,
        digest: Digest::of(word.as_bytes()),
        exec,
        expected: leaf_of(alloc, more)?,
    })
}

// Of the file that the text names.
fn exec_of(alloc: Global, path: Path, word: &str, on: bool) -> Result<Op, Fail> {
    let entry = entry_of(alloc, word)?.ok_or("no entry")?;
    Ok(Op::SetExec {
        path,
        expected: FileEntry::of(&entry).ok_or("no file")?,
        on,
    })
}

// The operation of a line such as `place a/b text f3`, which has a path.
fn op_of(alloc: Global, verb: &str, path: &str, word: &str, more: &str) -> Result<Op, Fail> {
    let path = Path::read(alloc, path)?;
    match verb {
        "list" => Ok(Op::List { path }),
        "fetch" => Ok(Op::Fetch {
            path,
            stamp: stamp_of(word)?,
            offset: more.parse().ok().ok_or("no offset")?,
        }),
        "place" => place_of(alloc, path, word, more, false),
        "placex" => place_of(alloc, path, word, more, true),
        "exec" => exec_of(alloc, path, word, true),
        "noexec" => exec_of(alloc, path, word, false),
        "mkdir" => Ok(Op::MakeDir { path }),
        "mklink" => Ok(Op::MakeLink {
            path,
            text: Text::read(alloc, word)?,
            expected: leaf_of(alloc, more)?,
        }),
        _ => Ok(Op::Remove {
            path,
            expected: tracked_of(alloc, word)?,
        }),
    }
}

// Does what a line says: `E` and an edit, or the number of a session and an operation. It gives the answer as text.
fn done(alloc: Global, root: &mut MemRoot, line: &str) -> Result<String, Fail> {
    let mut words = line.split(' ');
    let who = words.next().unwrap_or("");
    let verb = words.next().unwrap_or("");
    let path = words.next().unwrap_or("");
    let word = words.next().unwrap_or("");
    let more = words.next().unwrap_or("");
    if who == "E" {
        let change = edit_of(alloc, verb, path, word)?;
        let result = root.edit(alloc, &change);
        return edit_text(alloc, &result);
    }
    let who = session(if who == "1" { 1 } else { 2 });
    let op = match stage_of(alloc, verb, path)? {
        Some(op) => op,
        None => op_of(alloc, verb, path, word, more)?,
    };
    let answer = root.call(alloc, &who, &op)?;
    answer_text(alloc, &answer)
}

/// The table with the answers that the root gives.
pub fn played(alloc: Global, root: &mut MemRoot, table: &str) -> Result<String, Fail> {
    let mut text = String::new(alloc);
    for row in table.lines() {
        let (line, _) = row.split_once(" => ").ok_or("a row without an answer")?;
        let answer = done(alloc, root, line)?;
        text.push_str(line)?;
        text.push_str(" => ")?;
        text.push_str(answer.as_str())?;
        text.push_str("\n")?;
    }
    Ok(text)
}
