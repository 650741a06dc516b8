//! A file that is read piece by piece.
ghost use Rattle.std.specs.Prelude.{◌≡◌, ◌+◌, ◌<◌, ◌^◌, ◌++◌, ℕ, List, [], length};
ghost use Rattle.scan_core.specs.Reading.{IsReading};
ghost use Rattle.sha2.specs.Sha256.{sha256};

use entry_tree::{Digest, PieceHasher};

/// What was read of a file: its pieces went into a hasher, and are counted. `IsReading` of `specs/Reading.antt` says which
/// bytes they were.
#[derive(Drop)]
pub struct Reading {
    pub(crate) hasher: PieceHasher,
    pub(crate) length: u64,
}

impl Reading {
    /// Nothing was read. It takes no memory.
    pub(crate) fn new() -> Reading
        ensures { IsReading result [] }
    {
        Reading {
            hasher: PieceHasher::new(),
            length: 0,
        }
    }

    /// Reads a piece behind what was read. It takes no memory. Cost: its bytes.
    pub(crate) fn read(&mut self, piece: &[u8])
        requires { self.old.length + length piece.now < 2 ^ 64 }
        ensures { (bytes : List ℕ) → IsReading self.old bytes → IsReading self.new (bytes ++ piece.now) }
    {
        self.hasher.take(piece);
        self.length += piece.len() as u64;
    }

    /// The digest of all that was read. It takes no memory.
    pub(crate) fn finish(self) -> Digest
        ensures { (bytes : List ℕ) → IsReading self bytes → result ≡ sha256 bytes }
    {
        let Reading { hasher, .. } = self;
        hasher.finish()
    }
}
