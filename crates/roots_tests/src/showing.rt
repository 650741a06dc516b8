//! Answers as text.
use entry_tree::{Atom, Entry};
use roots_api::{Answer, EditError, Rows};
use std::alloc::Global;
use std::test::Fail;

// A folder, a file (`x` where it is executable) with its stamp, a link with its text, another thing, or nothing.
pub fn entry_text(alloc: Global, found: Option<&Entry>) -> Result<String, Fail> {
    match found {
        None => Ok(String::from_str(alloc, "-")?),
        Some(Entry::Dir) => Ok(String::from_str(alloc, "d")?),
        Some(Entry::File(stamp, false)) => Ok(format!(in alloc; "f{}", stamp.0)?),
        Some(Entry::File(stamp, true)) => Ok(format!(in alloc; "x{}", stamp.0)?),
        Some(Entry::Link(text)) => Ok(format!(in alloc; "l{}", text.as_str())?),
        Some(Entry::Other) => Ok(String::from_str(alloc, "o")?),
    }
}

// The same of an atom, a file without its digest.
fn atom_text(alloc: Global, found: &Option<Atom>) -> Result<String, Fail> {
    match found {
        None => Ok(String::from_str(alloc, "-")?),
        Some(Atom::Dir) => Ok(String::from_str(alloc, "d")?),
        Some(Atom::File(_, false)) => Ok(String::from_str(alloc, "f")?),
        Some(Atom::File(_, true)) => Ok(String::from_str(alloc, "x")?),
        Some(Atom::Link(text)) => Ok(format!(in alloc; "l{}", text.as_str())?),
        Some(Atom::Untracked) => Ok(String::from_str(alloc, "u")?),
        Some(Atom::Problem(_)) => Ok(String::from_str(alloc, "p")?),
    }
}

fn rows_text(alloc: Global, rows: &Rows) -> Result<String, Fail> {
    let mut text = String::from_str(alloc, "listed")?;
    for (name, entry) in rows.as_slice() {
        text.push_str(" ")?;
        text.push_str(name.as_str())?;
        text.push_str("=")?;
        text.push_str(entry_text(alloc, Some(entry))?.as_str())?;
    }
    Ok(text)
}

fn found_text(alloc: Global, word: &str, found: &Option<Entry>) -> Result<String, Fail> {
    let found = entry_text(alloc, found.as_ref())?;
    Ok(format!(in alloc; "{} {}", word, found.as_str())?)
}

// Its text, or of zero bytes their number.
fn piece_text(alloc: Global, bytes: &[u8], last: bool) -> Result<String, Fail> {
    let end = if last { "last" } else { "more" };
    if bytes.first() == Some(&0) {
        return Ok(format!(in alloc; "piece of {} {}", bytes.len(), end)?);
    }
    let text = std::str::from_utf8(bytes)?;
    Ok(format!(in alloc; "piece {} {}", text, end)?)
}

pub fn answer_text(alloc: Global, answer: &Answer) -> Result<String, Fail> {
    match answer {
        Answer::Listed(rows) => rows_text(alloc, rows),
        Answer::Held(found) => found_text(alloc, "held", found),
        Answer::Piece { bytes, last } => piece_text(alloc, bytes.as_slice(), *last),
        Answer::Changed(found) => found_text(alloc, "changed", found),
        Answer::TooLarge(bytes) => Ok(format!(in alloc; "too-large {}", *bytes)?),
        Answer::Done(Some(stamp)) => Ok(format!(in alloc; "done {}", stamp.0)?),
        Answer::NoParent(found) => found_text(alloc, "no-parent", found),
        Answer::Differs(found) => found_text(alloc, "differs", found),
        Answer::Full(room) => Ok(format!(in alloc; "full {} {}", room.log, room.bytes)?),
        _ => Ok(String::from_str(alloc, answer_word(answer))?),
    }
}

// The other answers are a word.
fn answer_word(answer: &Answer) -> &'static str {
    match answer {
        Answer::Cleared => "cleared",
        Answer::Opened => "opened",
        Answer::Kept => "kept",
        Answer::NotStaged => "not-staged",
        Answer::DigestDiffers { .. } => "digest-differs",
        Answer::Done(_) => "done",
        Answer::NoLink => "no-link",
        Answer::NoExec => "no-exec",
        Answer::NotEmpty => "not-empty",
        Answer::Failed => "failed",
        _ => "",
    }
}

pub fn edit_text(alloc: Global, outcome: &Result<(), EditError>) -> Result<String, Fail> {
    match outcome {
        Ok(()) => Ok(String::from_str(alloc, "done")?),
        Err(EditError::LogFull(size)) => Ok(format!(in alloc; "log-full {}", *size)?),
        Err(EditError::EditRefused { path, found }) => {
            let path = path.write(alloc)?;
            let found = atom_text(alloc, found)?;
            Ok(format!(in alloc; "refused {} {}", path.as_str(), found.as_str())?)
        }
        Err(EditError::BytesFull(bytes)) => Ok(format!(in alloc; "bytes-full {}", *bytes)?),
        Err(EditError::Memory) => Ok(String::from_str(alloc, "memory")?),
    }
}
