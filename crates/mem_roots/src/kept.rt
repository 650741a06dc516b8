//! The files that a session keeps, by digest.
ghost use Rattle.std.specs.Prelude.{◌≡◌, IfErr, OnOk, OnErr};
ghost use Rattle.std.specs.FinMap as map;
ghost use Rattle.std.specs.Option.{option_copied};

use entry_tree::Digest;
use roots_api::Content;
use std::alloc::Global;
use std::collections::BTreeMap;
use std::marker::Model;

/// Files by their digests. Contracts see a finite map. A call costs O(log n) comparisons of digests.
#[derive(Drop)]
pub(crate) struct Kept {
    files: BTreeMap<[u8; 32], Content>,
}

impl Model for Kept {
    ghost use Rattle.std.specs.Prelude.{ℕ, List};
    ghost use Rattle.std.specs.FinMap as map;
    ghost use Rattle.std.specs.Coded.{coded_ℕ, coded_list};
    ghost use Rattle.std.specs.Cmp.Lexicographic.{slice_cmp};
    ghost use Rattle.std.specs.Ordering.{nat_cmp};

    ghost Value = { map.FinMap (slice_cmp nat_cmp) (List ℕ) };

    ghost coded = { map.code (coded_list coded_ℕ) (coded_list coded_ℕ) };

    ghost view = { λ k. map.from_entries k.files.entries };
}

impl Kept {
    /// No files. It takes no memory.
    pub(crate) fn new(alloc: Global) -> Kept
        ensures { result ≡ map.empty }
    {
        Kept {
            files: BTreeMap::new(alloc),
        }
    }

    /// The file that is kept under the digest. It takes no memory.
    pub(crate) fn get(&self, digest: &Digest) -> Option<&Content>
        ensures { option_copied result ≡ map.get self.now digest.now }
    {
        self.files.get(digest.as_bytes())
    }

    /// Keeps the file under the digest. Where there is no memory it comes back.
    pub(crate) fn insert(&mut self, digest: &Digest, file: Content) -> Result<(), Content>
        ensures ok { OnOk result (self.new ≡ map.insert self.old digest.now file) }
        ensures err { OnErr result (self.new ≡ self.old) }
        ensures back { IfErr result (λ back. back ≡ file) }
    {
        match self.files.insert(*digest.as_bytes(), file) {
            Ok(_) => Ok(()),
            Err(failed) => {
                let (_, file) = failed.value;
                Err(file)
            }
        }
    }
}
