//! What keeps frames.
ghost use Rattle.std.specs.Prelude.{◌≡◌, ◌≢◌, ◌≤◌, ℕ, Bool, List, Option, Err, IfOk, IfSome, IsSome, IsOk, IsTrue, IsFalse, OnOk, OnErr};
ghost use Rattle.fault_count.specs.Rose.{Rose};
ghost use Rattle.finite_maps.specs.Told.{WhereTold};
ghost use Rattle.frame_text.specs.declared.frame.KeepKey.{KeepKey};
ghost use Rattle.frame_text.specs.declared.frame.KeepKey.TheVariants.{Session, Table};
ghost use Rattle.ancestor_store.specs.Compacting.{Compacts, run_of};
ghost use Rattle.ancestor_store.specs.Counting.{IsCount};
ghost use Rattle.ancestor_store.specs.Keeping.{Appends, bytes_of};
ghost use Rattle.ancestor_store.specs.declared.keeper.KeepError.TheVariants.{Fault};

use frame_text::{Frame, KeepKey};
use std::alloc::{AllocError, Global};
use thiserror::Error;

/// Why a keeper refused a frame.
#[derive(Clone, Copy, Debug, PartialEq, Eq, Error)]
pub enum KeepError {
    /// What the keeper stands on failed, and the keeper counted it.
    #[error("the keeper failed")]
    Fault,
    /// There was no memory.
    #[error("out of memory")]
    Memory,
}

impl From<AllocError> for KeepError {
    ghost use Rattle.ancestor_store.specs.declared.keeper.KeepError.TheVariants.{Memory};

    ghost from_gives = { λ _ e. e ≡ Memory };

    fn from(_error: AllocError) -> KeepError {
        KeepError::Memory
    }
}

/// Keeps frames, each among those of its key, in order.
pub trait Keeper {
    // The frames of a key, the oldest first, each as its bytes, where they are told.
    ghost told: { Self → KeepKey → Option (List (List ℕ)) };

    // How many faults there were so far, as far as they were counted.
    ghost faults: { Self → ℕ };

    /// Appends a frame to those of its key. Where it is refused, they stay, and so do those of all other keys in either case.
    fn append(&mut self, alloc: Global, key: KeepKey, frame: &Frame) -> Result<(), KeepError>
        ensures frames { WhereTold (told self.old key) (told self.new key) (Appends frame.now result) }
        ensures others { (other : KeepKey) → other ≢ key → told self.new other ≡ told self.old other }
        ensures counts { faults self.old ≤ faults self.new }
        ensures fault { result ≡ Err Fault → Rose (faults self.old) (faults self.new) }
        ensures no_fault { result ≢ Err Fault → faults self.new ≡ faults self.old };
}

/// A keeper whose frames can be read.
pub trait Archive: Keeper {
    /// The frames of a key, the oldest first, each as its bytes.
    fn frames(&self, alloc: Global, key: KeepKey) -> Result<Vec<Vec<u8>>, AllocError>
        ensures { IfOk result (λ frames. IfSome (Self.told self.now key) (λ kept. bytes_of frames.items ≡ kept)) };

    // Whether a compaction is made. A keeper on a device may come to an end of its compactions; it then answers Ok, and leaves all as it is.
    ghost compacts: { Self → Bool };

    /// How many frames of sessions there are.
    fn kept(&self) -> u64
        ensures { ((id : ℕ) → IsSome (Self.told self.now (Session id))) → IsCount (λ id. Self.told self.now (Session id)) result };

    /// Puts one frame in place of all those of a session, for each session whose frames have a fold: a payload `v2 whole` with the same fold. The others
    /// keep their frames, and so does the table. The payload names the run that is the number of the table's frames `v1 opened`, and the greatest cycle. After an
    /// `Err` the frames of all keys are as they were.
    fn compact(&mut self, alloc: Global) -> Result<(), KeepError>
        ensures sessions { IsTrue (compacts self.old) → OnOk result ((id : ℕ) → WhereTold (Self.told self.old (Session id)) (Self.told self.new (Session id)) (λ old new. IfSome (Self.told self.old Table) (λ table. Compacts (run_of table) old new))) }
        ensures table { OnOk result (Self.told self.new Table ≡ Self.told self.old Table) }
        ensures left { IsFalse (compacts self.old) → (key : KeepKey) → Self.told self.new key ≡ Self.told self.old key }
        ensures ended { IsFalse (compacts self.old) → IsOk result }
        ensures refused { OnErr result ((key : KeepKey) → Self.told self.new key ≡ Self.told self.old key) }
        ensures counts { Self.faults self.old ≤ Self.faults self.new }
        ensures fault { result ≡ Err Fault → Rose (Self.faults self.old) (Self.faults self.new) }
        ensures no_fault { result ≢ Err Fault → Self.faults self.new ≡ Self.faults self.old };
}
