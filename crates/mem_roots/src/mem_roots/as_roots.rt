//! Roots in memory are roots, whose logs are told.
ghost use Rattle.std.specs.Prelude.{◌≡◌, ◌∷◌, []};
ghost use Rattle.mem_roots.specs.Named.{named_root};

use crate::mem_roots::MemRoots;
use entry_tree::Tree;
use roots_api::{Answer, Edit, EditError, Op, RootId, Roots, Who};
use std::alloc::{AllocError, Global};

impl Roots for MemRoots {
    ghost use Rattle.std.specs.Prelude.{true};
    ghost use Rattle.mem_roots.specs.Named.{named_root, log_at, faults_at, fulls_at, names_apart, RootLeads, RootEdits};

    ghost named = { λ _. named_root };

    ghost told = { log_at };

    ghost faults = { faults_at };

    ghost full_answers = { fulls_at };

    ghost leads = { RootLeads };

    ghost edits = { RootEdits };

    ghost is_bounded = { true };

    ghost keeps_links = { true };

    ghost keeps_bits = { true };

    ghost apart = { names_apart };

    #[tactic(auto, unfolding(crate::specs::Named::named_root))]
    fn find(&self, name: &str) -> Option<RootId> {
        self.are_legal();
        match name.as_bytes() {
            [] => None,
            [letter] => root_of(*letter),
            [_, _, ..] => None,
        }
    }

    fn call(
        &mut self,
        alloc: Global,
        root: RootId,
        who: &Who,
        op: &Op,
    ) -> Result<Answer, AllocError> {
        MemRoots::call(self, alloc, root, who, op)
    }

    fn edit(&mut self, alloc: Global, root: RootId, change: &Edit) -> Result<(), EditError> {
        MemRoots::edit(self, alloc, root, change)
    }

    fn view(&self, alloc: Global, root: RootId) -> Result<Tree, AllocError> {
        self.view_at(alloc, root)
    }
}

// The root of a letter.
#[tactic(auto, unfolding(crate::specs::Named::named_root))]
fn root_of(letter: u8) -> Option<RootId>
    ensures { result ≡ named_root (letter ∷ []) }
{
    if b'A' <= letter && letter <= b'H' {
        Some(RootId(letter - b'A'))
    } else {
        None
    }
}
