//! A keeper in memory.
ghost use Rattle.std.specs.Prelude.{◌≡◌, ◌≢◌, ◌↔◌, ◌≤◌, ℕ, true, [], Some, Err, IfOk, OnOk, OnErr, IsTrue};
ghost use Rattle.fault_count.specs.Rose.{Rose};
ghost use Rattle.finite_maps.specs.Told.{WhereTold};
ghost use Rattle.frame_text.specs.declared.frame.KeepKey.{KeepKey};
ghost use Rattle.frame_text.specs.declared.frame.KeepKey.TheVariants.{Session, Table};
ghost use Rattle.ancestor_store.specs.Compacting.{Compacts, run_of};
ghost use Rattle.ancestor_store.specs.Keeping.{Appends, bytes_of};
ghost use Rattle.ancestor_store.specs.MemCompacting.{sessions_in, sessions_of};
ghost use Rattle.ancestor_store.specs.MemKept.{after_call, frames_of, is_to_fail, same_key, with_kept};
ghost use Rattle.ancestor_store.specs.declared.keeper.KeepError.TheVariants.{Fault};

use crate::keeper::{Archive, KeepError, Keeper};
use crate::mem_compacting::compacted_kept;
use fault_count::count_fault;
use frame_text::{Frame, KeepKey};
use sqlite_items::Items;
use std::alloc::{AllocError, Global};
use std::marker::Model;

/// A frame that is kept: whose it is, and its bytes.
#[derive(Debug, Drop)]
pub struct Kept {
    pub key: KeepKey,
    pub bytes: Items<u8>,
}

/// A keeper in memory, which tells its frames. The appends with the numbers that it was given, counted from 0, fail; that is counted as a fault.
#[derive(Drop)]
pub struct MemKeeper {
    kept: Vec<Kept>,
    failing: Vec<u64>,
    made: u64,
    faults: u64,
}

impl Model for MemKeeper {
    ghost use Rattle.ancestor_store.specs.MemKept.{MemKept};
    ghost use Rattle.ancestor_store.specs.MemCodes.{kept_code};

    ghost Value = { MemKept };

    ghost coded = { kept_code };

    ghost view = { λ m. record { kept = m.kept.items; failing = m.failing.items; made = m.made; faults = m.faults } };
}

impl MemKeeper {
    /// A keeper without frames, of whose appends none is to fail. It takes no memory.
    pub fn new(alloc: Global) -> MemKeeper
        ensures { result ≡ record { kept = []; failing = []; made = 0; faults = 0 } }
    {
        MemKeeper {
            kept: Vec::new(alloc),
            failing: Vec::new(alloc),
            made: 0,
            faults: 0,
        }
    }

    /// A keeper with these frames, in their order, of whose appends those with these numbers are to fail.
    pub fn of(alloc: Global, kept: Vec<Kept>, calls: &[u64]) -> Result<MemKeeper, AllocError>
        ensures { IfOk result (λ m. m ≡ record { kept = kept.items; failing = calls.now; made = 0; faults = 0 }) }
    {
        let failing = Vec::from_slice(alloc, calls)?;
        Ok(MemKeeper {
            kept,
            failing,
            made: 0,
            faults: 0,
        })
    }

    // Counts an append, and answers whether it is to fail.
    fn is_to_fail(&mut self) -> bool
        ensures fails { result ≡ is_to_fail self.old }
        ensures counted { self.new ≡ after_call self.old }
    {
        let fails = self.failing.contains(&self.made);
        self.made = self.made.saturating_add(1);
        fails
    }

    // Puts bytes behind all that is kept.
    fn keep(&mut self, key: KeepKey, bytes: Vec<u8>) -> Result<(), KeepError>
        ensures ok { OnOk result (self.new ≡ with_kept self.old key bytes.items) }
        ensures err { OnErr result (self.new ≡ self.old) }
        ensures memory { result ≢ Err Fault }
    {
        let bytes = Items::from_vec(bytes);
        match self.kept.push(Kept { key, bytes }) {
            Ok(()) => Ok(()),
            Err(_) => Err(KeepError::Memory),
        }
    }
}

// Whether two keys are the same.
pub(crate) fn same_key(key: KeepKey, other: KeepKey) -> bool
    ensures { result ≡ same_key key other }
{
    match (key, other) {
        (KeepKey::Table, KeepKey::Table) => true,
        (KeepKey::Table, KeepKey::Session(_)) => false,
        (KeepKey::Session(_), KeepKey::Table) => false,
        (KeepKey::Session(id), KeepKey::Session(other)) => id == other,
    }
}

// Copies of the bytes of a key's frames.
pub(crate) fn frames_of(
    alloc: Global,
    key: KeepKey,
    kept: &[Kept],
) -> Result<Vec<Vec<u8>>, AllocError>
    ensures { IfOk result (λ frames. bytes_of frames.items ≡ frames_of key kept.now) }
{
    let mut frames = Vec::new(alloc);
    let mut rest = kept;
    while let [one, behind @ ..] = rest {
        if same_key(one.key, key) {
            frames.push(Vec::from_slice(alloc, one.bytes.as_slice())?)?;
        }
        rest = behind;
    }
    Ok(frames)
}

// How many frames of sessions a frame of this key is.
fn sessions_in(key: KeepKey) -> u64
    ensures value { result ≡ sessions_in key }
    ensures bound { result ≤ 1 }
{
    match key {
        KeepKey::Table => 0,
        KeepKey::Session(_) => 1,
    }
}

// How many frames of sessions there are.
fn sessions_of(kept: &[Kept]) -> u64
    ensures { result ≡ sessions_of kept.now }
{
    let mut number: u64 = 0;
    let mut rest = kept;
    while let Some((one, behind)) = rest.split_first() {
        number += sessions_in(one.key);
        rest = behind;
    }
    number
}

impl Keeper for MemKeeper {
    ghost told = { λ m key. Some (frames_of key m.kept) };

    ghost faults = { λ m. m.faults };

    fn append(&mut self, alloc: Global, key: KeepKey, frame: &Frame) -> Result<(), KeepError>
        ensures frames { WhereTold (Some (frames_of key self.old.kept)) (Some (frames_of key self.new.kept)) (Appends frame.now result) }
        ensures others { (other : KeepKey) → other ≢ key → Some (frames_of other self.new.kept) ≡ Some (frames_of other self.old.kept) }
        ensures counts { self.old.faults ≤ self.new.faults }
        ensures fault { result ≡ Err Fault → Rose self.old.faults self.new.faults }
        ensures no_fault { result ≢ Err Fault → self.new.faults ≡ self.old.faults }

        // The appends that are to fail do, and no others.
        ensures fails { (result ≡ Err Fault) ↔ IsTrue (is_to_fail self.old) }
        ensures called { self.new.made ≡ (after_call self.old).made }
        ensures failing { self.new.failing ≡ self.old.failing }
    {
        if self.is_to_fail() {
            count_fault(&mut self.faults);
            return Err(KeepError::Fault);
        }
        match frame.bytes(alloc) {
            Ok(bytes) => self.keep(key, bytes),
            Err(_) => Err(KeepError::Memory),
        }
    }
}

impl Archive for MemKeeper {
    fn frames(&self, alloc: Global, key: KeepKey) -> Result<Vec<Vec<u8>>, AllocError> {
        frames_of(alloc, key, self.kept.as_slice())
    }

    ghost compacts = { λ _. true };

    fn kept(&self) -> u64 {
        sessions_of(self.kept.as_slice())
    }

    fn compact(&mut self, alloc: Global) -> Result<(), KeepError>
        ensures sessions { OnOk result ((id : ℕ) → Compacts (run_of (frames_of Table self.old.kept)) (frames_of (Session id) self.old.kept) (frames_of (Session id) self.new.kept)) }
        ensures table { OnOk result (Some (frames_of Table self.new.kept) ≡ Some (frames_of Table self.old.kept)) }
        ensures refused { OnErr result ((key : KeepKey) → Some (frames_of key self.new.kept) ≡ Some (frames_of key self.old.kept)) }
        ensures counts { self.old.faults ≤ self.new.faults }
        ensures fault { result ≡ Err Fault → Rose self.old.faults self.new.faults }
        ensures no_fault { result ≢ Err Fault → self.new.faults ≡ self.old.faults }

        // It never fails but for want of memory, and counts as no append.
        ensures memory { result ≢ Err Fault }
        ensures made { self.new.made ≡ self.old.made }
        ensures failing { self.new.failing ≡ self.old.failing }
    {
        match compacted_kept(alloc, self.kept.as_slice()) {
            Ok(kept) => {
                self.kept = kept;
                Ok(())
            }
            Err(_) => Err(KeepError::Memory),
        }
    }
}
