//! The stamps of files, by path.
ghost use Rattle.std.specs.Prelude.{◌≡◌, OnOk, OnErr};
ghost use Rattle.std.specs.FinMap as map;

use entry_tree::Stamp;
use std::alloc::{AllocError, Global};
use std::collections::BTreeMap;
use std::marker::Model;
use sync_path::Path;

/// The stamps of files, by path. Contracts see a finite map from paths.
#[derive(Drop)]
pub struct Stamps {
    map: BTreeMap<Path, Stamp>,
}

impl Model for Stamps {
    ghost use Rattle.std.specs.FinMap as finite;
    ghost use Rattle.sync_path.specs.Path.{path_cmp};
    ghost use Rattle.std.specs.Coded.{coded_ℕ, coded_list};
    ghost use Rattle.entry_tree.specs.declared.entry.Stamp.{Stamp};
    ghost use Rattle.entry_tree.specs.contracts.entry.Stamp as stamp;

    ghost Value = { finite.FinMap path_cmp Stamp };

    ghost coded = { finite.code (coded_list (coded_list coded_ℕ)) stamp.the_row.coded };

    ghost view = { λ s. finite.from_entries s.map.entries };
}

impl Stamps {
    /// No stamps. It takes no memory.
    pub fn new(alloc: Global) -> Stamps
        ensures { result ≡ map.empty }
    {
        Stamps {
            map: BTreeMap::new(alloc),
        }
    }

    /// The stamp at the path. It takes no memory. Cost: O(log n) comparisons of paths.
    pub fn get(&self, path: &Path) -> Option<Stamp>
        ensures { result ≡ map.get self.now path.now }
    {
        self.map.get(path).copied()
    }

    /// Puts the stamp at the path, in place of one that was there. After an `Err` nothing is changed.
    /// Cost: O(log n) comparisons of paths.
    pub fn set(&mut self, path: Path, stamp: Stamp) -> Result<(), AllocError>
        ensures ok { OnOk result (self.new ≡ map.insert self.old path stamp) }
        ensures err { OnErr result (self.new ≡ self.old) }
    {
        self.map.insert(path, stamp)?;
        Ok(())
    }
}
