//! What a scan has seen, and what it still asks for.
ghost use Rattle.std.specs.Prelude.{◌≡◌, ◌+◌, ◌<◌, ◌^◌, IfOk, OnOk};
ghost use Rattle.scan_core.specs.Board.{new_board, may_stand, seen_with, shows, shows_file, asks, placed, with_row, with_rows, counts, advanced, left_alone};
ghost use Rattle.scan_core.specs.Ignoring.{ignores};

use crate::later::Later;
use crate::wanted::{Next, Wanted};
use entry_tree::{Atom, Digest, Entry, Node, Stamp, Tree, TreeError};
use ignore_rules::Rules;
use roots_api::Stamps;
use scan_cache::Cache;
use std::alloc::{AllocError, Global};
use sync_path::{Name, Path, PathError};

/// What a scan has seen, and what it still asks for.
#[derive(Drop)]
pub struct Board {
    /// What is asked for next.
    pub next: Option<Next>,
    /// What is asked for behind it.
    pub later: Later,
    /// How many rows were listed.
    pub rows: u64,
    /// What was seen.
    pub seen: Tree,
    /// The stamps of the files that were seen.
    pub stamps: Stamps,
}

impl Board {
    /// Nothing is seen, and the root is to be listed. It takes no memory.
    pub(crate) fn new(alloc: Global) -> Board
        ensures { result ≡ new_board }
    {
        Board {
            next: Some(Next {
                path: Path::root(alloc),
                wanted: Wanted::Names,
            }),
            later: Later::new(alloc),
            rows: 0,
            seen: Tree::new(alloc),
            stamps: Stamps::new(alloc),
        }
    }

    /// The atom is seen at the path.
    pub(crate) fn show(&mut self, alloc: Global, path: &Path, atom: Atom) -> Result<(), AllocError>
        ensures { OnOk result (self.new ≡ shows self.old path.now atom) }
    {
        set_seen(&mut self.seen, alloc, path, atom)?;
        Ok(())
    }

    /// A file with this stamp is seen at the path.
    pub(crate) fn show_file(
        &mut self,
        alloc: Global,
        path: Path,
        stamp: Stamp,
        exec: bool,
        digest: Digest,
    ) -> Result<(), AllocError>
        ensures { OnOk result (self.new ≡ shows_file self.old path stamp exec digest) }
    {
        if set_seen(&mut self.seen, alloc, &path, Atom::File(digest, exec))? {
            self.stamps.set(path, stamp)?;
        }
        Ok(())
    }

    /// What is asked for at the path comes later.
    fn ask(&mut self, path: Path, wanted: Wanted) -> Result<(), AllocError>
        ensures { OnOk result (self.new ≡ asks self.old path wanted) }
    {
        self.later.insert(path, wanted)
    }

    /// What becomes of an entry at the path: it is seen, or asked for.
    pub(crate) fn place(
        &mut self,
        alloc: Global,
        path: Path,
        entry: Entry,
        rules: &Rules,
        cache: &Cache,
    ) -> Result<(), AllocError>
        ensures { OnOk result (self.new ≡ placed rules.now cache.now self.old path entry) }
    {
        if is_left_alone(rules, &path, &entry) {
            return self.show(alloc, &path, Atom::Untracked);
        }
        match entry {
            Entry::Dir => self.ask(path, Wanted::Names),
            Entry::File(stamp, exec) => match cache.lookup(&path, stamp) {
                Some(digest) => self.show_file(alloc, path, stamp, exec, digest),
                None => self.ask(path, Wanted::Content(stamp, exec)),
            },
            Entry::Link(text) => self.show(alloc, &path, Atom::Link(text)),
            Entry::Other => self.show(alloc, &path, Atom::Untracked),
        }
    }

    // What becomes of one row of the folder.
    fn add_row(
        &mut self,
        alloc: Global,
        folder: &Path,
        name: &Name,
        entry: &Entry,
        rules: &Rules,
        cache: &Cache,
    ) -> Result<(), AllocError>
        ensures { OnOk result (self.new ≡ with_row rules.now cache.now folder.now self.old (name.now, entry.now)) }
    {
        match folder.child(alloc, name) {
            Ok(path) => {
                let entry = entry.copy(alloc)?;
                self.place(alloc, path, entry, rules, cache)
            }
            Err(PathError::Memory) => Err(AllocError),
            Err(PathError::Bad(_)) => Ok(()),
        }
    }

    /// What becomes of the rows of the folder.
    pub(crate) fn add_rows(
        &mut self,
        alloc: Global,
        folder: &Path,
        rows: &[(Name, Entry)],
        rules: &Rules,
        cache: &Cache,
    ) -> Result<(), AllocError>
        ensures { OnOk result (self.new ≡ with_rows rules.now cache.now folder.now self.old rows.now) }
    {
        for (name, entry) in rows {
            self.add_row(alloc, folder, name, entry, rules, cache)?;
        }
        Ok(())
    }

    /// So many rows more were listed.
    pub(crate) fn count(&mut self, rows: u64)
        requires { self.old.rows + rows < 2 ^ 64 }
        ensures { self.new ≡ counts self.old rows }
    {
        self.rows += rows;
    }

    /// The first in path order is asked for next. It takes no memory.
    pub(crate) fn advance(&mut self)
        ensures { self.new ≡ advanced self.old }
    {
        self.next = self.later.pop_first();
    }
}

// Puts the atom at the path, where the path's parent is a folder; tells whether it is.
fn set_seen(seen: &mut Tree, alloc: Global, path: &Path, atom: Atom) -> Result<bool, AllocError>
    ensures may { IfOk result (λ may. may ≡ may_stand seen.old path.now) }
    ensures set { OnOk result (seen.new ≡ seen_with seen.old path.now atom) }
{
    match seen.set(alloc, path, atom) {
        Ok(()) => Ok(true),
        Err(TreeError::Memory) => Err(AllocError),
        Err(TreeError::NoParent) => Ok(false),
        Err(TreeError::NotDir) => Ok(false),
    }
}

// Whether the entry at the path isn't looked at further: the rules ignore it, or it is never tracked.
fn is_left_alone(rules: &Rules, path: &Path, entry: &Entry) -> bool
    ensures { result ≡ left_alone rules.now path.now entry.now }
{
    match entry {
        Entry::Dir => is_ignored(rules, path, true),
        Entry::File(_, _) => is_ignored(rules, path, false),
        Entry::Link(_) => is_ignored(rules, path, false),
        Entry::Other => true,
    }
}

// Whether the rules ignore what lies at the path.
fn is_ignored(rules: &Rules, path: &Path, is_dir: bool) -> bool
    ensures { result ≡ ignores rules.now path.now is_dir }
{
    rules.decide(path, is_dir)
}
