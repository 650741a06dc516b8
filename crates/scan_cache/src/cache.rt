//! A cache of digests.
ghost use Rattle.std.specs.Prelude.{◌≡◌, IsSome, IsTrue, IfErr, OnOk, OnErr, Ok, None, Some};
ghost use Rattle.std.specs.BTreeMap.{Updates, get};
ghost use Rattle.std.specs.FinMap as map;
ghost use Rattle.sync_path.specs.Path.{path_cmp};
ghost use Rattle.scan_cache.specs.Cache.{digest_for, line_of, with_line};

use crate::line::Line;
use entry_tree::{Digest, Stamp};
use std::alloc::{AllocError, Global};
use std::collections::BTreeMap;
use std::marker::Model;
use sync_path::Path;

/// The digests that were learnt of files, by path: one line a path. Contracts see a finite map from paths to lines.
#[derive(Drop)]
pub struct Cache {
    lines: BTreeMap<Path, Line>,
}

impl Model for Cache {
    ghost use Rattle.std.specs.FinMap as finite;
    ghost use Rattle.std.specs.Coded.{coded_ℕ, coded_list};
    ghost use Rattle.sync_path.specs.Path.{path_cmp};
    ghost use Rattle.scan_cache.specs.declared.line.Line.{Line};
    ghost use Rattle.scan_cache.specs.contracts.line.Line as line;

    ghost Value = { finite.FinMap path_cmp Line };

    ghost coded = { finite.code (coded_list (coded_list coded_ℕ)) line.the_row.coded };

    ghost view = { λ c. finite.from_entries c.lines.entries };
}

impl Cache {
    /// A cache without lines. It takes no memory.
    pub fn new(alloc: Global) -> Cache
        ensures { result ≡ map.empty }
    {
        Cache {
            lines: BTreeMap::new(alloc),
        }
    }

    /// The digest of the file with this stamp at the path. None exactly where the path has no line, or one of another stamp.
    /// It takes no memory. Cost: O(log n) comparisons of paths.
    pub fn lookup(&self, path: &Path, stamp: Stamp) -> Option<Digest>
        ensures { result ≡ digest_for self.now path.now stamp }
    {
        match self.lines.get(path) {
            Some(line) => line_digest(line, stamp),
            None => None,
        }
    }

    /// Puts a line at the path, in place of the one that was there. Where the path has a line already, it takes no memory and
    /// can't fail. After an `Err` nothing is changed. Cost: O(log n) comparisons of paths.
    pub fn learn(
        &mut self,
        alloc: Global,
        path: &Path,
        stamp: Stamp,
        digest: Digest,
    ) -> Result<(), AllocError>
        ensures ok { OnOk result (self.new ≡ with_line self.old path.now stamp digest) }
        ensures in_place { IsTrue (map.contains_key self.old path.now) → result ≡ Ok tt }
        ensures err { OnErr result (self.new ≡ self.old) }
    {
        let line = Line { stamp, digest };
        match replace(&mut self.lines, path, line) {
            Ok(()) => Ok(()),
            Err(line) => insert(&mut self.lines, alloc, path, line),
        }
    }
}

// The line's digest, where it is of this stamp.
fn line_digest(line: &Line, stamp: Stamp) -> Option<Digest>
    ensures { result ≡ line_of stamp line.now }
{
    if line.stamp == stamp {
        Some(line.digest)
    } else {
        None
    }
}

// Puts the line in place of the path's; where it has none, gives the line back.
fn replace(lines: &mut BTreeMap<Path, Line>, path: &Path, line: Line) -> Result<(), Line>
    ensures replaced { OnOk result (Updates path_cmp lines.old lines.new path.now (Some line)) }
    ensures held { OnOk result (IsSome (get path_cmp lines.old path.now)) }
    ensures absent { OnErr result (get path_cmp lines.old path.now ≡ None) }
    ensures back { IfErr result (λ back. back ≡ line) }
    ensures same { OnErr result (lines.new.entries ≡ lines.old.entries) }
{
    match lines.get_mut(path) {
        Some(held) => {
            *held = line;
            Ok(())
        }
        None => Err(line),
    }
}

// Puts the line at the path. Where there is no memory, the map stays as it was.
fn insert(
    lines: &mut BTreeMap<Path, Line>,
    alloc: Global,
    path: &Path,
    line: Line,
) -> Result<(), AllocError>
    ensures ok { OnOk result (Updates path_cmp lines.old lines.new path.now (Some line)) }
    ensures err { OnErr result (lines.new.entries ≡ lines.old.entries) }
{
    let key = path.copy(alloc)?;
    match lines.insert(key, line) {
        Ok(_) => Ok(()),
        Err(_) => Err(AllocError),
    }
}
