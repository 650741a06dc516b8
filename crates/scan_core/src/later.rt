//! What a scan asks for later.
ghost use Rattle.std.specs.Prelude.{◌≡◌, OnOk};
ghost use Rattle.std.specs.FinMap as map;
ghost use Rattle.scan_core.specs.Board.{first_of, without_first};

use crate::wanted::{Next, Wanted};
use std::alloc::{AllocError, Global};
use std::collections::BTreeMap;
use std::marker::Model;
use sync_path::Path;

/// What is asked for later, by path. Contracts see a finite map from paths.
#[derive(Drop)]
pub struct Later {
    map: BTreeMap<Path, Wanted>,
}

impl Model for Later {
    ghost use Rattle.std.specs.FinMap as finite;
    ghost use Rattle.sync_path.specs.Path.{path_cmp};
    ghost use Rattle.std.specs.Coded.{coded_ℕ, coded_list};
    ghost use Rattle.scan_core.specs.declared.wanted.Wanted.{Wanted};
    ghost use Rattle.scan_core.specs.contracts.wanted.Wanted as wanted;

    ghost Value = { finite.FinMap path_cmp Wanted };

    ghost coded = { finite.code (coded_list (coded_list coded_ℕ)) wanted.the_row.coded };

    ghost view = { λ l. finite.from_entries l.map.entries };
}

impl Later {
    /// Nothing is asked for. It takes no memory.
    pub(crate) fn new(alloc: Global) -> Later
        ensures { result ≡ map.empty }
    {
        Later {
            map: BTreeMap::new(alloc),
        }
    }

    /// Puts what is asked for at the path.
    pub(crate) fn insert(&mut self, path: Path, wanted: Wanted) -> Result<(), AllocError>
        ensures { OnOk result (self.new ≡ map.insert self.old path wanted) }
    {
        self.map.insert(path, wanted)?;
        Ok(())
    }

    /// Takes off the first in path order. It takes no memory.
    pub(crate) fn pop_first(&mut self) -> Option<Next>
        ensures first { result ≡ first_of self.old }
        ensures rest { self.new ≡ without_first self.old }
    {
        let _ = self.map.len();
        let Some((path, wanted)) = self.map.pop_first() else {
            return None;
        };
        Some(Next { path, wanted })
    }
}
