//! Scans that are driven over a root in memory, while edits are made.
ghost use Rattle.roots_api.specs.Told.{IsSession};

use entry_tree::{Atom, Text, Tree};
use ignore_rules::Rules;
use mem_roots::MemRoot;
use roots_api::{Content, Edit, Who};
use scan_cache::Cache;
use scan_core::{Scan, ScanEnd};
use std::alloc::Global;
use std::test::Fail;
use sync_path::Path;

// The session that scans.
fn session() -> Who
    ensures { IsSession result }
{
    Who::Session {
        id: 1,
        run: 1,
        cycle: 1,
    }
}

// The edit of a line such as `fill a/b 5`, which puts so many bytes.
fn edit_of(alloc: Global, verb: &str, path: &str, word: &str) -> Result<Edit, Fail> {
    let path = Path::read(alloc, path)?;
    match verb {
        "fill" => {
            let len: usize = word.parse().ok().ok_or("no length")?;
            let bytes = Content::from_vec(vec![in alloc; 0u8; len]?);
            Ok(Edit::Put { path, bytes })
        }
        "link" => Ok(Edit::Link {
            path,
            text: Text::read(alloc, word)?,
        }),
        "dir" => Ok(Edit::Dir { path }),
        "other" => Ok(Edit::Other { path }),
        "exec" => Ok(Edit::SetExec { path, on: true }),
        _ => Ok(Edit::Del { path }),
    }
}

// Makes the edits that the script has before the operation with this number, as `0 dir a`.
fn edit(alloc: Global, root: &mut MemRoot, script: &str, number: u64) -> Result<(), Fail> {
    for line in script.lines() {
        let mut words = line.split(' ');
        let before: u64 = words.next().unwrap_or("").parse().ok().ok_or("no number")?;
        let verb = words.next().unwrap_or("");
        let path = words.next().unwrap_or("");
        let word = words.next().unwrap_or("");
        if before == number {
            let change = edit_of(alloc, verb, path, word)?;
            if root.edit(alloc, &change).is_err() {
                return Err(Fail::from("an edit was refused"));
            }
        }
    }
    Ok(())
}

/// Drives the scan to its end, and makes the edits in between. Gives how many operations it asked, and why it ended, if not whole.
pub fn driven(
    alloc: Global,
    root: &mut MemRoot,
    scan: &mut Scan,
    rules: &Rules,
    cache: &mut Cache,
    script: &str,
) -> Result<(u64, Option<ScanEnd>), Fail> {
    for number in 0..1_000_000u64 {
        edit(alloc, root, script, number)?;
        let Some(op) = scan.next_op(alloc)? else {
            return Ok((number, None));
        };
        let answer = root.call(alloc, &session(), &op)?;
        if let Err(end) = scan.take(alloc, answer, rules, cache) {
            return Ok((number, Some(end)));
        }
    }
    Err(Fail::from("no end"))
}

// A folder, a file (`x` where it is executable), a link, what is untracked, or the number of a problem.
fn atom_word(atom: &Atom) -> &'static str {
    match atom {
        Atom::Dir => "d",
        Atom::File(_, false) => "f",
        Atom::File(_, true) => "x",
        Atom::Link(_) => "l",
        Atom::Untracked => "u",
        Atom::Problem(kind) => match kind.number() {
            1 => "1",
            2 => "2",
            _ => "3",
        },
    }
}

/// What was seen: each path with its kind.
pub fn shown(alloc: Global, seen: &Tree) -> Result<String, Fail> {
    let mut text = String::new(alloc);
    for (path, atom) in seen.iter() {
        text.push_str(path.write(alloc)?.as_str())?;
        text.push_str("=")?;
        text.push_str(atom_word(atom))?;
        text.push_str(" ")?;
    }
    Ok(text)
}

/// Rules of these patterns, a line each.
pub fn rules_of(alloc: Global, patterns: &str) -> Result<Rules, Fail> {
    let mut texts = Vec::new(alloc);
    for pattern in patterns.lines() {
        texts.push(String::from_str(alloc, pattern)?)?;
    }
    if texts.len() > 9 {
        return Err(Fail::from("too many patterns"));
    }
    Ok(Rules::read(alloc, texts.as_slice(), false)?)
}

/// A new scan with these limits.
pub fn new_scan(alloc: Global, entries: u32, size: u64) -> Result<Scan, Fail> {
    if size > 16_777_216 {
        return Err(Fail::from("too large a limit"));
    }
    Ok(Scan::new(alloc, entries, size))
}

/// What a new scan sees, with how many operations it asked: `=d a=f after 3`. A cut one is `ended after 2`.
pub fn scanned(
    alloc: Global,
    limits: (u32, u64),
    patterns: &str,
    script: &str,
) -> Result<String, Fail> {
    let mut root = MemRoot::new(alloc)?;
    let mut cache = Cache::new(alloc);
    let rules = rules_of(alloc, patterns)?;
    let mut scan = new_scan(alloc, limits.0, limits.1)?;
    let (count, end) = driven(alloc, &mut root, &mut scan, &rules, &mut cache, script)?;
    if end.is_some() {
        return Ok(format!(in alloc; "ended after {}", count)?);
    }
    let seen = shown(alloc, scan.seen())?;
    Ok(format!(in alloc; "{}after {}", seen.as_str(), count)?)
}

/// How many operations a first scan of the root asks, and a second one with the same cache.
pub fn scanned_twice(alloc: Global, root: &mut MemRoot, script: &str) -> Result<(u64, u64), Fail> {
    let mut cache = Cache::new(alloc);
    let rules = rules_of(alloc, "")?;
    let mut first = new_scan(alloc, 65_536, 16_777_216)?;
    let (cold, _) = driven(alloc, root, &mut first, &rules, &mut cache, script)?;
    let mut second = new_scan(alloc, 65_536, 16_777_216)?;
    let (warm, _) = driven(alloc, root, &mut second, &rules, &mut cache, "")?;
    Ok((cold, warm))
}

/// A folder of so many files.
pub fn full_folder(alloc: Global, count: u64) -> Result<MemRoot, Fail> {
    let mut root = MemRoot::new(alloc)?;
    for number in 0..count {
        let name = format!(in alloc; "f{}", number)?;
        let change = edit_of(alloc, "fill", name.as_str(), "1")?;
        if root.edit(alloc, &change).is_err() {
            return Err(Fail::from("an edit was refused"));
        }
    }
    Ok(root)
}

/// How many operations a scan of a folder of so many files asks, where a side may have 65,536 rows; none where it ends before it is
/// whole.
pub fn scanned_folder(alloc: Global, count: u64) -> Result<Option<u64>, Fail> {
    let mut root = full_folder(alloc, count)?;
    let mut cache = Cache::new(alloc);
    let rules = rules_of(alloc, "")?;
    let mut scan = new_scan(alloc, 65_536, 16_777_216)?;
    let (asked, end) = driven(alloc, &mut root, &mut scan, &rules, &mut cache, "")?;
    if end.is_some() {
        return Ok(None);
    }
    Ok(Some(asked))
}
