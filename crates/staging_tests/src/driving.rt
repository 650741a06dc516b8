//! Stagings that are driven over two roots in memory, while edits are made.
ghost use Rattle.roots_api.specs.Told.{IsSession};

use crate::words::{push_op, push_problem};
use entry_tree::{Side, Stamp, Subtree};
use mem_roots::MemRoot;
use mode_rules::Change;
use roots_api::{Content, Edit, Stamps, Who};
use stage_core::Staging;
use std::alloc::Global;
use std::test::Fail;
use sync_path::Path;

/// The root that needs the files, and the one that holds them.
#[derive(Drop)]
pub struct Pair {
    pub near: MemRoot,
    pub far: MemRoot,
}

// The session that stages.
fn session() -> Who
    ensures { IsSession result }
{
    Who::Session {
        id: 1,
        run: 1,
        cycle: 1,
    }
}

// A number, if the word is one.
fn number_of(word: &str) -> Result<u64, Fail> {
    let number: u64 = word.parse().ok().ok_or("no number")?;
    Ok(number)
}

// The edit of words such as `fill a/b 5`, which puts so many bytes.
fn edit_of(alloc: Global, verb: &str, path: &str, word: &str) -> Result<Edit, Fail> {
    let path = Path::read(alloc, path)?;
    match verb {
        "fill" => {
            let len: usize = word.parse().ok().ok_or("no length")?;
            let bytes = Content::from_vec(vec![in alloc; 0u8; len]?);
            Ok(Edit::Put { path, bytes })
        }
        "dir" => Ok(Edit::Dir { path }),
        _ => Ok(Edit::Del { path }),
    }
}

// Makes the edits that the script has before the operation with this number, as `0 fill a 5`.
fn edit(alloc: Global, root: &mut MemRoot, script: &str, number: u64) -> Result<(), Fail> {
    for row in script.split(';') {
        let mut words = row.split(' ');
        let before = number_of(words.next().unwrap_or(""))?;
        let verb = words.next().unwrap_or("");
        let path = words.next().unwrap_or("");
        let word = words.next().unwrap_or("");
        if before == number {
            let change = edit_of(alloc, verb, path, word)?;
            if root.edit(alloc, &change).is_err() {
                return Err(Fail::from("an edit was refused"));
            }
        }
    }
    Ok(())
}

// The stamps of what the script puts before the first operation.
fn stamps_of(alloc: Global, script: &str) -> Result<Stamps, Fail> {
    let mut stamps = Stamps::new(alloc);
    let mut count: u128 = 0;
    for row in script.split(';') {
        if let Some(words) = row.strip_prefix("0 fill ") {
            let path = words.split(' ').next().unwrap_or("");
            stamps.set(Path::read(alloc, path)?, Stamp(count))?;
            count = count.saturating_add(1);
        }
    }
    Ok(stamps)
}

// Which operations of the root are to fail.
fn fail(alloc: Global, root: &mut MemRoot, word: &str) -> Result<(), Fail> {
    if word != "_" {
        root.fail(alloc, &[number_of(word)?])?;
    }
    Ok(())
}

// Asks what is asked next, if anything is, and writes it.
fn turn(
    alloc: Global,
    pair: &mut Pair,
    staging: &mut Staging,
    text: &mut String,
) -> Result<bool, Fail> {
    let Some((side, op)) = staging.next_op(alloc)? else {
        return Ok(false);
    };
    push_op(alloc, text, &op)?;
    let answer = match side {
        Side::Alpha => pair.far.call(alloc, &session(), &op)?,
        Side::Beta => pair.near.call(alloc, &session(), &op)?,
    };
    staging.take(answer)?;
    Ok(true)
}

// Drives the staging to its end, with the edits in between.
fn drive(
    alloc: Global,
    pair: &mut Pair,
    staging: &mut Staging,
    script: &str,
    text: &mut String,
) -> Result<(), Fail> {
    for number in 1..1_000u64 {
        if !turn(alloc, pair, staging, text)? {
            return Ok(());
        }
        edit(alloc, &mut pair.far, script, number)?;
    }
    Err(Fail::from("no end"))
}

// The change that makes all that the far root shows.
fn whole_change(alloc: Global, far: &MemRoot) -> Result<Change, Fail> {
    let at = Path::root(alloc);
    let new = far.view(alloc)?.subtree(alloc, &at)?;
    Ok(Change {
        side: Side::Beta,
        at,
        old: Subtree::new(alloc),
        new,
    })
}

/// What a staging asks, and what it misses, by the row's edits and the operations that are to fail at the near and the far root.
pub fn staged(alloc: Global, script: &str, near: &str, far: &str) -> Result<String, Fail> {
    let mut pair = Pair {
        near: MemRoot::new(alloc)?,
        far: MemRoot::new(alloc)?,
    };
    edit(alloc, &mut pair.far, script, 0)?;
    fail(alloc, &mut pair.near, near)?;
    fail(alloc, &mut pair.far, far)?;
    let change = whole_change(alloc, &pair.far)?;
    let stamps = stamps_of(alloc, script)?;
    let mut staging = Staging::of(alloc, Side::Beta, &[change], &stamps)?;
    let mut text = String::new(alloc);
    drive(alloc, &mut pair, &mut staging, script, &mut text)?;
    text.push_str(";")?;
    for problem in staging.missing() {
        push_problem(alloc, &mut text, problem)?;
    }
    Ok(text)
}
