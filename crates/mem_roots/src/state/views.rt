//! What a root shows.
ghost use Rattle.std.specs.Prelude.{◌≡◌, IfOk};
ghost use Rattle.std.specs.Option.{option_map};
ghost use Rattle.roots_api.specs.Views.{atom_of, view_of};

use crate::setting::set_allowed;
use crate::state::State;
use entry_tree::{Atom, Digest, Entry, Tree};
use std::alloc::{AllocError, Global};

impl State {
    /// The tree as atoms. Cost: O(n log n) comparisons of paths, and the bytes of all files.
    pub(crate) fn view(&self, alloc: Global) -> Result<Tree, AllocError>
        ensures { IfOk result (λ tree. tree ≡ view_of self.now) }
    {
        let mut view = Tree::new(alloc);
        for (path, entry) in self.tree.iter() {
            let atom = self.atom_of(alloc, entry)?;
            set_allowed(&mut view, alloc, path, atom)?;
        }
        Ok(view)
    }

    /// The entry as an atom. Cost: the bytes of the file.
    pub(crate) fn atom_of(&self, alloc: Global, entry: &Entry) -> Result<Atom, AllocError>
        ensures { IfOk result (λ atom. atom ≡ atom_of self.now.ledger entry.now) }
    {
        match entry {
            Entry::Dir => Ok(Atom::Dir),
            Entry::File(stamp, exec) => { Ok(Atom::File(Digest::of(self.content(*stamp)), *exec)) }
            Entry::Link(text) => match text.copy(alloc) {
                Ok(text) => Ok(Atom::Link(text)),
                Err(error) => Err(error),
            },
            Entry::Other => Ok(Atom::Untracked),
        }
    }

    /// What was found, as an atom.
    pub(crate) fn found_atom(
        &self,
        alloc: Global,
        found: Option<Entry>,
    ) -> Result<Option<Atom>, AllocError>
        ensures { IfOk result (λ atom. atom ≡ option_map (atom_of self.now.ledger) found) }
    {
        match found {
            None => Ok(None),
            Some(entry) => match self.atom_of(alloc, &entry) {
                Ok(atom) => Ok(Some(atom)),
                Err(error) => Err(error),
            },
        }
    }
}
