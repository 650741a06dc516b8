//! What has an executable bit.
ghost use Rattle.std.specs.Prelude.{◌≡◌, cond, Some, None, IsTrue};
ghost use Rattle.entry_tree.specs.declared.entry.Entry.TheVariants.{File};
ghost use Rattle.roots_api.specs.Expected.{is_file};

use entry_tree::{Entry, Stamp};
use std::marker::Model;

/// An entry that is a file, which alone has an executable bit. Contracts see the entry.
#[derive(Debug, Drop)]
pub struct FileEntry {
    stamp: Stamp,
    exec: bool,
}

impl Model for FileEntry {
    ghost use Rattle.entry_tree.specs.declared.entry.Entry.{Entry};
    ghost use Rattle.entry_tree.specs.declared.entry.Entry.TheVariants.{File};

    ghost Value = { Entry };

    ghost view = { λ f. File f.stamp f.exec };
}

impl FileEntry {
    /// The file with this stamp and executable bit. It takes no memory.
    pub fn new(stamp: Stamp, exec: bool) -> FileEntry
        ensures { result ≡ File stamp exec }
    {
        FileEntry { stamp, exec }
    }

    /// The entry as a file; none where it is something else. It takes no memory.
    pub fn of(entry: &Entry) -> Option<FileEntry>
        ensures { result ≡ cond (is_file entry.now) (Some entry.now) None }
    {
        match entry {
            Entry::File(stamp, exec) => Some(FileEntry::new(*stamp, *exec)),
            _ => None,
        }
    }

    /// The entry. It takes no memory.
    pub fn entry(&self) -> Entry
        ensures value { result ≡ self.now }
        ensures file { IsTrue (is_file self.now) }
    {
        Entry::File(self.stamp, self.exec)
    }

    /// An equal one. It takes no memory.
    pub fn copy(&self) -> FileEntry
        ensures { result ≡ self.now }
    {
        FileEntry::new(self.stamp, self.exec)
    }
}
