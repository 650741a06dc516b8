//! The digest of bytes that come in pieces.
ghost use Rattle.std.specs.Prelude.{◌≡◌, ℕ, List, [], ◌++◌};
ghost use Rattle.entry_tree.specs.PieceHasher.{HasTaken};
ghost use Rattle.sha2.specs.Sha256.{sha256};

use crate::digest::Digest;
use sha2::Sha256;

/// Takes bytes piece by piece, and gives the digest of them all, so that a long file is never held whole.
///
/// `HasTaken hasher bytes` of `specs/PieceHasher.antt` says which bytes it has taken.
#[derive(Drop)]
pub struct PieceHasher {
    inner: Sha256,
}

impl PieceHasher {
    /// A hasher that has taken nothing. It takes no memory.
    pub fn new() -> PieceHasher
        ensures { HasTaken result [] }
    {
        PieceHasher {
            inner: <Sha256 as sha2::Digest>::new(),
        }
    }

    /// Takes these bytes behind those that it has. It takes no memory. Cost: their number.
    pub fn take(&mut self, piece: &[u8])
        ensures { (bytes : List ℕ) → HasTaken self.old bytes → HasTaken self.new (bytes ++ piece.now) }
    {
        sha2::Digest::update(&mut self.inner, piece);
    }

    /// The digest of all bytes that it has taken. It takes no memory.
    pub fn finish(self) -> Digest
        ensures { (bytes : List ℕ) → HasTaken self bytes → result ≡ sha256 bytes }
    {
        Digest::from_bytes(sha2::Digest::finalize(self.inner))
    }
}
