//! The contents that a root's files ever had.
ghost use Rattle.std.specs.Prelude.{◌≡◌, ◌++◌, ◌∷◌, [], length, slice_get, take, ◌-◌, OnOk, OnErr};
ghost use Rattle.std.specs.Option.{option_copied};

use entry_tree::Stamp;
use roots_api::Content;
use std::alloc::{AllocError, Global};
use std::marker::Model;

/// The contents that a root's files ever had. A stamp is the index of a content. Contracts see the list of them.
#[derive(Drop)]
pub(crate) struct Ledger {
    contents: Vec<Content>,
}

impl Model for Ledger {
    ghost use Rattle.std.specs.Prelude.{ℕ, List};

    ghost Value = { List (List ℕ) };

    ghost view = { λ l. l.contents.items };
}

impl Ledger {
    /// No contents. It takes no memory.
    pub(crate) fn new(alloc: Global) -> Ledger
        ensures { result ≡ [] }
    {
        Ledger {
            contents: Vec::new(alloc),
        }
    }

    /// The stamp of the next content. It takes no memory.
    pub(crate) fn next(&self) -> Stamp
        ensures { result.0 ≡ length self.now }
    {
        Stamp(self.contents.len() as u128)
    }

    /// The content that the stamp names; none where it names none. It takes no memory.
    pub(crate) fn get(&self, stamp: Stamp) -> Option<&Content>
        ensures { option_copied result ≡ slice_get self.now stamp.0 }
    {
        match usize::try_from(stamp.0) {
            Ok(at) => self.contents.get(at),
            Err(_) => None,
        }
    }

    /// Adds a content at the end. After an `Err` all is as it was.
    pub(crate) fn push(&mut self, content: Content) -> Result<(), AllocError>
        ensures ok { OnOk result (self.new ≡ self.old ++ content ∷ []) }
        ensures err { OnErr result (self.new ≡ self.old) }
    {
        self.contents.push(content)?;
        Ok(())
    }

    /// Takes the last content off. It takes no memory.
    pub(crate) fn pop(&mut self)
        ensures { self.new ≡ take (length self.old - 1) self.old }
    {
        let _ = self.contents.pop();
    }
}
