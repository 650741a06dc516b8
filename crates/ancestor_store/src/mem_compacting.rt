//! Compaction of a keeper in memory.
ghost use Rattle.std.specs.Prelude.{◌≡◌, ◌++◌, ℕ, List, IfOk, OnOk};
ghost use Rattle.frame_text.specs.declared.frame.KeepKey.TheVariants.{Table, Session};
ghost use Rattle.ancestor_store.specs.Compacting.{Compacts, run_of};
ghost use Rattle.ancestor_store.specs.Keeping.{bytes_of};
ghost use Rattle.ancestor_store.specs.MemCompacting.{AfterKey, has_key, kept_as};
ghost use Rattle.ancestor_store.specs.MemKept.{frames_of};

use crate::compacting::{compacted, run_of};
use crate::mem_keeper::{Kept, frames_of, same_key};
use frame_text::KeepKey;
use sqlite_items::Items;
use std::alloc::{AllocError, Global};

/// What compaction makes of all that is kept. Cost: for each frame, what is kept anew, and for each session all that is kept and its fold.
pub(crate) fn compacted_kept(alloc: Global, kept: &[Kept]) -> Result<Vec<Kept>, AllocError>
    ensures table { IfOk result (λ new. frames_of Table new.items ≡ frames_of Table kept.now) }
    ensures sessions { IfOk result (λ new. (id : ℕ) → Compacts (run_of (frames_of Table kept.now)) (frames_of (Session id) kept.now) (frames_of (Session id) new.items)) }
{
    let table = frames_of(alloc, KeepKey::Table, kept)?;
    let opened = run_of(table.as_slice());
    let mut new = Vec::new(alloc);
    keep_all(&mut new, KeepKey::Table, table)?;
    let mut rest = kept;
    while let Some((one, behind)) = rest.split_first() {
        compact_key(alloc, opened, &mut new, one.key, kept)?;
        rest = behind;
    }
    Ok(new)
}

// Puts what compaction makes of a session's frames behind others, where none of the session is there.
fn compact_key(
    alloc: Global,
    run: u32,
    new: &mut Vec<Kept>,
    key: KeepKey,
    kept: &[Kept],
) -> Result<(), AllocError>
    ensures { OnOk result (AfterKey run key kept.now new.old.items new.new.items) }
{
    match key {
        KeepKey::Table => Ok(()),
        KeepKey::Session(_) => {
            if has_key(new.as_slice(), key) {
                return Ok(());
            }
            compact_new(alloc, run, new, key, kept)
        }
    }
}

// The same, where none of the session is there.
fn compact_new(
    alloc: Global,
    run: u32,
    new: &mut Vec<Kept>,
    key: KeepKey,
    kept: &[Kept],
) -> Result<(), AllocError>
    ensures { OnOk result ((frames : List (List ℕ)) × Compacts run (frames_of key kept.now) frames × (new.new.items ≡ new.old.items ++ kept_as key frames)) }
{
    let frames = compacted(alloc, run, frames_of(alloc, key, kept)?)?;
    keep_all(new, key, frames)
}

// Whether a frame of the key is among these.
fn has_key(kept: &[Kept], key: KeepKey) -> bool
    ensures { result ≡ has_key key kept.now }
{
    let mut rest = kept;
    while let Some((one, behind)) = rest.split_first() {
        if same_key(one.key, key) {
            return true;
        }
        rest = behind;
    }
    false
}

// Puts frames of a key behind others.
fn keep_all(kept: &mut Vec<Kept>, key: KeepKey, frames: Vec<Vec<u8>>) -> Result<(), AllocError>
    ensures { OnOk result (kept.new.items ≡ kept.old.items ++ kept_as key (bytes_of frames.items)) }
{
    for bytes in frames {
        let bytes = Items::from_vec(bytes);
        kept.push(Kept { key, bytes })?;
    }
    Ok(())
}
