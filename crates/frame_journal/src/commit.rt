//! A frame goes to the disk.
ghost use Rattle.std.specs.Prelude.{◌≡◌, ℕ, ◌+◌, ◌^◌, ◌<◌, ◌≤◌, ◌++◌, [], ◌∷◌, List, length, IfOk, OnOk, OnErr};
ghost use Rattle.fault_count.specs.Rose.{Rose};
ghost use Rattle.frame_journal.specs.Steps.{TellsOn};
ghost use Rattle.disk_model.specs.Disk.{OnTold, calls_after};
ghost use Rattle.disk_model.specs.Moments.{LeavesSince};
ghost use Rattle.frame_journal.specs.Layout.{block, IsPayload, OpensWithOneMore};
ghost use Rattle.frame_journal.specs.Resting.{IsResting};
ghost use Rattle.frame_journal.specs.Steps.{CommitLeaves};

use crate::device::write_synced;
use crate::frames::{OPEN, SHUT};
use disk_model::Disk;
use std::alloc::{AllocError, Global};

/// At which of an append's two writes or the sync behind it the disk failed.
#[derive(Clone, Copy, Debug, PartialEq, Eq)]
pub enum CommitFault {
    /// The block: the gate stays shut.
    AtBlock,
    /// The gate: it may be open.
    AtGate,
}

/// A payload, and what is written of it behind a gate.
#[derive(Drop)]
pub struct Entry {
    pub payload: Vec<u8>,
    pub block: Vec<u8>,
}

/// The entry of a payload that is `head` with `body` behind it. The block is the payload's length, the
/// payload, and a shut gate.
pub fn entry_of(alloc: Global, head: &[u8], body: &[u8]) -> Result<Entry, AllocError>
    ensures payload { IfOk result (λ entry. entry.payload.items ≡ head.now ++ body.now) }
    ensures block { IfOk result (λ entry. entry.block.items ≡ block (head.now ++ body.now) ++ 0 ∷ []) }
    ensures fits { IfOk result (λ entry. IsPayload (head.now ++ body.now)) }
{
    let payload = joined(alloc, head, body)?;
    let block = block_of(alloc, &payload)?;
    Ok(Entry { payload, block })
}

fn joined(alloc: Global, head: &[u8], body: &[u8]) -> Result<Vec<u8>, AllocError>
    ensures bytes { IfOk result (λ v. v.items ≡ head.now ++ body.now) }
{
    let mut payload = Vec::with_capacity(alloc, head.len().saturating_add(body.len()))?;
    payload.extend_from_slice(head)?;
    payload.extend_from_slice(body)?;
    Ok(payload)
}

fn block_of(alloc: Global, payload: &[u8]) -> Result<Vec<u8>, AllocError>
    ensures bytes { IfOk result (λ v. v.items ≡ block payload.now ++ 0 ∷ []) }
    ensures fits { length payload.now < 2 ^ 64 }
{
    let mut block = Vec::with_capacity(alloc, payload.len().saturating_add(9))?;
    block.extend_from_slice(&(payload.len() as u64).to_be_bytes())?;
    block.extend_from_slice(payload)?;
    block.push(SHUT)?;
    Ok(block)
}

/// Writes a block behind the shut gate of a disk at rest, and then opens the gate: four device calls.
pub fn commit<D: Disk>(disk: &mut D, gate: u64, bytes: &[u8]) -> Result<(), CommitFault>
    requires { gate + 1 < 2 ^ 63 }
    ensures room { OnOk result (gate + 1 + length bytes.now < 2 ^ 63) }

    // What stands then, whatever the frames and the payload are.
    ensures leaves { (payloads : List (List ℕ)) (payload : List ℕ) → IsPayload payload → bytes.now ≡ block payload ++ 0 ∷ []
        → OnTold (D.history disk.old) (λ now. IsResting payloads gate now)
        → OnTold (D.history disk.new) (λ now. CommitLeaves result payloads payload gate now) }
    ensures moments { (payloads : List (List ℕ)) (payload : List ℕ) → IsPayload payload → bytes.now ≡ block payload ++ 0 ∷ []
        → OnTold (D.history disk.old) (λ now. IsResting payloads gate now)
        → LeavesSince (D.history disk.old) (D.history disk.new) (OpensWithOneMore payloads payload) }
    ensures calls { OnOk result (D.calls disk.new ≡ calls_after (D.calls disk.old) 4) }
    ensures counts { D.faults disk.old ≤ D.faults disk.new }
    ensures quiet { OnOk result (D.faults disk.new ≡ D.faults disk.old) }
    ensures tells { TellsOn (D.history disk.old) (D.history disk.new) }
    ensures failed { OnErr result (Rose (D.faults disk.old) (D.faults disk.new)) }
{
    if write_synced(disk, gate + 1, bytes).is_err() {
        return Err(CommitFault::AtBlock);
    }
    if write_synced(disk, gate, &[OPEN]).is_err() {
        return Err(CommitFault::AtGate);
    }
    Ok(())
}
