//! Edits of a root as words: `put a x` writes the bytes x, `link a x`, `dir a`, `other a` makes what is never tracked, and `del a`.
use entry_tree::{Stamp, Text};
use mem_roots::MemRoot;
use roots_api::{Content, Edit, Stamps};
use std::alloc::Global;
use std::test::Fail;
use sync_path::Path;

// The edit of these words.
fn edit_of(alloc: Global, verb: &str, path: &str, word: &str) -> Result<Edit, Fail> {
    let path = Path::read(alloc, path)?;
    match verb {
        "put" => Ok(Edit::Put {
            path,
            bytes: Content::of(alloc, word.as_bytes())?,
        }),
        "link" => Ok(Edit::Link {
            path,
            text: Text::read(alloc, word)?,
        }),
        "dir" => Ok(Edit::Dir { path }),
        "other" => Ok(Edit::Other { path }),
        _ => Ok(Edit::Del { path }),
    }
}

/// Makes the edits that the script has before the operation with this number, as `1 put a x`; those with 0 are made before the look.
pub fn edit(alloc: Global, root: &mut MemRoot, script: &str, number: u64) -> Result<(), Fail> {
    for row in script.split(';') {
        let mut words = row.split(' ');
        let before: u64 = words.next().unwrap_or("").parse().ok().ok_or("no number")?;
        let verb = words.next().unwrap_or("");
        let path = words.next().unwrap_or("");
        let word = words.next().unwrap_or("");
        if before == number {
            let change = edit_of(alloc, verb, path, word)?;
            if root.edit(alloc, &change).is_err() {
                return Err(Fail::from("an edit was refused"));
            }
        }
    }
    Ok(())
}

/// The stamps of what the script puts before the look, by path.
pub fn stamps_of(alloc: Global, script: &str) -> Result<Stamps, Fail> {
    let mut stamps = Stamps::new(alloc);
    let mut count: u128 = 0;
    for row in script.split(';') {
        if let Some(words) = row.strip_prefix("0 put ") {
            let path = words.split(' ').next().unwrap_or("");
            stamps.set(Path::read(alloc, path)?, Stamp(count))?;
            count = count.saturating_add(1);
        }
    }
    Ok(stamps)
}
