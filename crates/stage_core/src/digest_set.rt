//! Sets of digests.
ghost use Rattle.std.specs.Prelude.{◌≡◌, OnOk, OnErr};
ghost use Rattle.std.specs.FinMap as map;

use entry_tree::Digest;
use std::alloc::{AllocError, Global};
use std::collections::BTreeMap;
use std::marker::Model;

/// A set of digests. Contracts see a finite map from them. A call costs O(log n) comparisons of digests.
#[derive(Drop)]
pub struct DigestSet {
    digests: BTreeMap<[u8; 32], ()>,
}

impl Model for DigestSet {
    ghost use Rattle.std.specs.FinMap as map;
    ghost use Rattle.std.specs.FinSet as set;
    ghost use Rattle.std.specs.Coded.{coded_ℕ, coded_list};
    ghost use Rattle.std.specs.Cmp.Lexicographic.{slice_cmp};
    ghost use Rattle.std.specs.Ordering.{nat_cmp};

    ghost Value = { set.FinSet (slice_cmp nat_cmp) };

    ghost coded = { set.code (coded_list coded_ℕ) };

    ghost view = { λ s. map.from_entries s.digests.entries };
}

impl DigestSet {
    /// No digests. It takes no memory.
    pub(crate) fn new(alloc: Global) -> DigestSet
        ensures { result ≡ map.empty }
    {
        DigestSet {
            digests: BTreeMap::new(alloc),
        }
    }

    /// Whether the digest is in the set. It takes no memory.
    pub(crate) fn contains(&self, digest: &Digest) -> bool
        ensures { result ≡ map.contains_key self.now digest.now }
    {
        self.digests.get(digest.as_bytes()).is_some()
    }

    /// Adds the digest. After an `Err` nothing is changed.
    pub(crate) fn insert(&mut self, digest: &Digest) -> Result<(), AllocError>
        ensures ok { OnOk result (self.new ≡ map.insert self.old digest.now tt) }
        ensures err { OnErr result (self.new ≡ self.old) }
    {
        self.digests.insert(*digest.as_bytes(), ())?;
        Ok(())
    }
}
