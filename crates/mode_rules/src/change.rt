//! Changes, and which files they place.
ghost use Rattle.std.specs.Prelude.{◌≡◌, IfOk};
ghost use Rattle.std.specs.List.{filter_map};
ghost use Rattle.std.specs.Option.{option_copied};
ghost use Rattle.mode_rules.specs.Placing.{is_one_content, placed_file, placed_files, sets_bit_alone};

use entry_tree::{Atom, Digest, Side, Subtree};
use sqlite_items::Items;
use std::alloc::{AllocError, Global};
use sync_path::Path;

/// A change of one side: what it holds at and below a path becomes what the other side holds there, or nothing.
#[derive(Drop)]
pub struct Change {
    /// The side that is changed.
    pub side: Side,
    /// Where it is changed.
    pub at: Path,
    /// All that the side holds at and below the path. What the session leaves alone and what it couldn't see are in it too.
    pub old: Subtree,
    /// All that the side is to hold there: what the other side holds, or nothing.
    pub new: Subtree,
}

/// A file that a change places, by the content that it is to have.
#[derive(Debug, Drop)]
pub struct PlacedFile {
    /// Where it is placed.
    pub path: Path,
    /// The digest of its content.
    pub digest: Digest,
    /// Whether it is executable.
    pub executable: bool,
}

impl Change {
    /// Whether a file with one content is there before and after. Only its executable bit is changed then, and no file is placed. It takes no memory.
    pub fn sets_bit_alone(&self) -> bool
        ensures { result ≡ sets_bit_alone self.now }
    {
        is_one_content(self.old.get(&self.at), self.new.get(&self.at))
    }

    /// The files that the change places, in path order. Cost: the number of its entries, and the lengths of these files' paths.
    pub fn placed_files(&self, alloc: Global) -> Result<Items<PlacedFile>, AllocError>
        ensures { IfOk result (λ files. files ≡ placed_files self.now) }
    {
        if self.sets_bit_alone() {
            return Ok(Items::new(alloc));
        }
        files_in(alloc, self.new.entries())
    }
}

// Whether two files with one content stand there.
fn is_one_content(old: Option<&Atom>, new: Option<&Atom>) -> bool
    ensures { result ≡ is_one_content (option_copied old.entry) (option_copied new.entry) }
{
    match (old, new) {
        (Some(Atom::File(old, _)), Some(Atom::File(new, _))) => old == new,
        _ => false,
    }
}

// The file that stands at a path, if one does.
fn placed_file(alloc: Global, path: &Path, atom: &Atom) -> Result<Option<PlacedFile>, AllocError>
    ensures { IfOk result (λ file. file ≡ placed_file (path.now, atom.now)) }
{
    match atom {
        Atom::File(digest, executable) => {
            let path = path.copy(alloc)?;
            Ok(Some(PlacedFile {
                path,
                digest: *digest,
                executable: *executable,
            }))
        }
        _ => Ok(None),
    }
}

// The files among these entries.
fn files_in(alloc: Global, entries: &[(Path, Atom)]) -> Result<Items<PlacedFile>, AllocError>
    ensures { IfOk result (λ files. files ≡ filter_map placed_file entries.now) }
{
    let mut files = Items::new(alloc);
    for (path, atom) in entries {
        if let Some(file) = placed_file(alloc, path, atom)? {
            files.push(file)?;
        }
    }
    Ok(files)
}
