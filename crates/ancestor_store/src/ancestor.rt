//! The ancestor of a session.
ghost use Rattle.std.specs.Prelude.{◌≡◌, ◌≢◌, ◌≤◌, ℕ, IfOk, IfSome, IsSome, OnOk, OnErr, Err, Some};
ghost use Rattle.fault_count.specs.Rose.{Rose};
ghost use Rattle.finite_maps.specs.Told.{WhereTold};
ghost use Rattle.frame_text.specs.Folds.{FoldsTo, IsBadFrame, unfolded};
ghost use Rattle.frame_text.specs.Frames.{frame_bytes, payload_of};
ghost use Rattle.frame_text.specs.Payloads.{Spells};
ghost use Rattle.frame_text.specs.declared.frame.KeepKey.{KeepKey};
ghost use Rattle.frame_text.specs.declared.frame.KeepKey.TheVariants.{Session};
ghost use Rattle.frame_text.specs.declared.payload.Payload.{Payload};
ghost use Rattle.ancestor_store.specs.Committing.{with_frame};
ghost use Rattle.ancestor_store.specs.Keeping.{Appends};
ghost use Rattle.ancestor_store.specs.declared.ancestor.OpenError.TheVariants.{BadFrame};
ghost use Rattle.ancestor_store.specs.declared.keeper.KeepError.TheVariants.{Fault};

use crate::fold::Fold;
use crate::keeper::{Archive, KeepError, Keeper};
use crate::opening::folded;
use entry_tree::Tree;
use frame_text::{Frame, KeepKey};
use std::alloc::{AllocError, Global};
use thiserror::Error;

/// What both sides of a session came to agree on, as its kept frames say: a tree, and the number of the reset that was served last.
/// Contracts see the session's identifier, and the fold of its frames (`specs/Folds.antt` of `frame_text`).
#[derive(Drop)]
pub struct Ancestor {
    id: u128,
    fold: Fold,
}

/// Why an ancestor was not opened.
#[derive(Clone, Copy, Debug, PartialEq, Eq, Error)]
pub enum OpenError {
    /// The frame with this number, counted from 0 among those of the session, is outside the grammar.
    #[error("frame {number} is outside the grammar")]
    BadFrame { number: u64 },
    /// There was no memory.
    #[error("out of memory")]
    Memory,
}

impl From<AllocError> for OpenError {
    ghost use Rattle.ancestor_store.specs.declared.ancestor.OpenError.TheVariants.{Memory};

    ghost from_gives = { λ _ e. e ≡ Memory };

    fn from(_error: AllocError) -> OpenError {
        OpenError::Memory
    }
}

impl Ancestor {
    /// The ancestor of the session: the fold of its kept frames. Cost: their bytes once, and O(n log n) comparisons of paths.
    ///
    /// `BadFrame` names the first frame that spells no payload, or one that can't stand where it does.
    pub fn open_from<A: Archive>(alloc: Global, keeper: &A, id: u128) -> Result<Ancestor, OpenError>
        ensures session { IfOk result (λ ancestor. ancestor.id ≡ id) }
        ensures value { IfOk result (λ ancestor. IfSome (A.told keeper.now (Session id)) (λ frames. FoldsTo frames ancestor.fold)) }
        ensures bad { (number : ℕ) → result ≡ Err (BadFrame number) → IfSome (A.told keeper.now (Session id)) (λ frames. IsBadFrame frames number) }
    {
        let frames = keeper.frames(alloc, KeepKey::Session(id))?;
        match folded(alloc, frames.as_slice()) {
            Ok(fold) => Ok(Ancestor { id, fold }),
            Err(error) => Err(error),
        }
    }

    /// What both sides agreed on. It takes no memory.
    pub fn tree(&self) -> &Tree
        ensures { result.now ≡ self.now.fold.tree }
    {
        self.fold.tree()
    }

    /// The number of the reset that was served last, or 0. It takes no memory.
    pub fn served(&self) -> u64
        ensures { result ≡ self.now.fold.served }
    {
        self.fold.served()
    }

    /// The ancestor of a session without frames. It takes no memory.
    pub fn new(alloc: Global, id: u128) -> Ancestor
        ensures session { result.id ≡ id }
        ensures value { result.fold ≡ unfolded }
    {
        Ancestor {
            id,
            fold: Fold::new(alloc),
        }
    }

    /// Appends a frame behind those of the session, and takes it up.
    ///
    /// The caller sees to it that the fold takes the frame: it is a session's, and its lines can be taken up. After an `Err` the ancestor is as it was,
    /// and so are the kept frames; with want of memory nothing is appended.
    ///
    /// Cost: the frame's bytes, O(log n) comparisons of paths for each of its lines and each entry that goes, and one more for each folder above a line's path.
    /// Nothing copies the tree: new paths are put in before the append, and what goes is taken out behind it.
    pub fn commit<K: Keeper>(
        &mut self,
        alloc: Global,
        keeper: &mut K,
        frame: &Frame,
    ) -> Result<(), KeepError>
        requires { IsSome (with_frame self.old.fold frame.now) }
        ensures session { self.new.id ≡ self.old.id }
        ensures taken { OnOk result (with_frame self.old.fold frame.now ≡ Some self.new.fold) }
        ensures refused { OnErr result (self.new.fold ≡ self.old.fold) }
        ensures frames { WhereTold (K.told keeper.old (Session self.old.id)) (K.told keeper.new (Session self.old.id)) (Appends frame.now result) }
        ensures others { (other : KeepKey) → other ≢ Session self.old.id → K.told keeper.new other ≡ K.told keeper.old other }
        ensures counts { K.faults keeper.old ≤ K.faults keeper.new }
        ensures fault { result ≡ Err Fault → Rose (K.faults keeper.old) (K.faults keeper.new) }
        ensures no_fault { result ≢ Err Fault → K.faults keeper.new ≡ K.faults keeper.old }
        ensures fold { WhereTold (K.told keeper.old (Session self.old.id)) (K.told keeper.new (Session self.old.id)) (λ old new. FoldsTo old self.old.fold → FoldsTo new self.new.fold) }
    {
        can_be_spelt(frame);
        self.fold
            .commit(alloc, keeper, KeepKey::Session(self.id), frame)
    }
}

// What a frame holds can be spelt. It does nothing.
fn can_be_spelt(frame: &Frame)
    ensures { (payload : Payload) → payload_of frame.now ≡ Some payload → Spells (frame_bytes frame.now) payload }
{
    match frame {
        Frame::Agree { run, cycle, lines } => {
            let _run = *run;
            let _cycle = *cycle;
            let _ = lines.as_slice();
        }
        Frame::Reset(number) => {
            let _ = number.get();
        }
        Frame::Table(_) => {}
    }
}
