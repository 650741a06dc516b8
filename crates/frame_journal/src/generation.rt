//! The generation of a journal, and the frames of a checkpoint.
ghost use Rattle.std.specs.Prelude.{◌≡◌, ◌+◌, ◌<◌, ◌++◌, [], ◌∷◌, length, drop, IfOk, IsTrue};
ghost use Rattle.frame_journal.specs.Layout.{frame, frames, IsPayload, ArePayloads};
ghost use Rattle.frame_journal.specs.Reading.{payloads_of};
ghost use Rattle.frame_journal.specs.Generation.{is_generation, number_in, generation_payload, generation_of, checkpoint_of};

use crate::frames::{OPEN, SHUT};
use std::alloc::{AllocError, Global};

/// How many bytes the payload of a generation has.
const GENERATION_BYTES: usize = 25;

/// What the payload of a generation has before its number: the key, and sixteen zero bytes.
const GENERATION_HEAD: [u8; 17] = [2, 0, 0, 0, 0, 0, 0, 0, 0, 0, 0, 0, 0, 0, 0, 0, 0];

/// Whether a payload is one of a generation: a journal on two disks whose first frame it is takes it
/// for its generation.
#[tactic(auto, unfolding(crate::specs::Generation::is_generation))]
pub fn is_generation(payload: &[u8]) -> bool
    ensures is { result ≡ is_generation payload.now }
    ensures long { IsTrue result → length payload.now ≡ 25 }
{
    if payload.len() != GENERATION_BYTES {
        return false;
    }
    &payload[..17] == GENERATION_HEAD.as_slice()
}

/// The generation that the frames of a journal tell.
pub(crate) fn generation_of(payloads: &[Vec<u8>]) -> u64
    ensures { result ≡ generation_of (payloads_of payloads.now) }
{
    match payloads.first() {
        Some(payload) if is_generation(payload) => number_in(payload),
        _ => 0,
    }
}

#[tactic(auto, unfolding(crate::specs::Generation::number_in))]
fn number_in(payload: &[u8]) -> u64
    requires { length payload.now ≡ 25 }
    ensures { result ≡ number_in payload.now }
{
    let number = &payload[17..];
    u64::from_be_bytes([
        number[0], number[1], number[2], number[3], number[4], number[5], number[6], number[7],
    ])
}

#[tactic(auto, unfolding(crate::specs::Generation::generation_payload))]
fn generation_payload(alloc: Global, number: u64) -> Result<Vec<u8>, AllocError>
    ensures { IfOk result (λ payload. payload.items ≡ generation_payload number) }
{
    let mut payload = Vec::with_capacity(alloc, GENERATION_BYTES)?;
    payload.extend_from_slice(&GENERATION_HEAD)?;
    payload.extend_from_slice(&number.to_be_bytes())?;
    Ok(payload)
}

/// The payloads of a checkpoint's frames, and the bytes of these with a shut gate behind them.
#[derive(Drop)]
pub struct CheckpointEntry {
    pub frames: Vec<Vec<u8>>,
    pub bytes: Vec<u8>,
}

/// The frames of a checkpoint: its generation, and these payloads.
pub(crate) fn checkpoint_entry(
    alloc: Global,
    number: u64,
    payloads: &[Vec<u8>],
) -> Result<CheckpointEntry, AllocError>
    ensures frames { IfOk result (λ entry. payloads_of entry.frames.items ≡ checkpoint_of number (payloads_of payloads.now)) }
    ensures bytes { IfOk result (λ entry. entry.bytes.items ≡ frames (payloads_of entry.frames.items) ++ 0 ∷ []) }
    ensures fit { IfOk result (λ entry. ArePayloads (payloads_of entry.frames.items)) }
{
    let frames = with_generation(alloc, number, payloads)?;
    let bytes = spelt(alloc, &frames)?;
    Ok(CheckpointEntry { frames, bytes })
}

/// The bytes behind a first gate.
pub(crate) fn behind_gate(bytes: &[u8]) -> &[u8]
    requires { 0 < length bytes.now }
    ensures { result.now ≡ drop 1 bytes.now }
{
    &bytes[1..]
}

// The payloads of a checkpoint's frames.
fn with_generation(
    alloc: Global,
    number: u64,
    payloads: &[Vec<u8>],
) -> Result<Vec<Vec<u8>>, AllocError>
    ensures { IfOk result (λ all. payloads_of all.items ≡ checkpoint_of number (payloads_of payloads.now)) }
{
    let mut all = Vec::with_capacity(alloc, payloads.len().saturating_add(1))?;
    all.push(generation_payload(alloc, number)?)?;
    for payload in payloads {
        all.push(Vec::from_slice(alloc, payload)?)?;
    }
    Ok(all)
}

// The bytes of these frames, and a shut gate behind them.
fn spelt(alloc: Global, payloads: &[Vec<u8>]) -> Result<Vec<u8>, AllocError>
    ensures bytes { IfOk result (λ bytes. bytes.items ≡ frames (payloads_of payloads.now) ++ 0 ∷ []) }
    ensures fit { IfOk result (λ bytes. ArePayloads (payloads_of payloads.now)) }
{
    let mut bytes = Vec::new(alloc);
    for payload in payloads {
        push_frame(&mut bytes, payload)?;
    }
    bytes.push(SHUT)?;
    Ok(bytes)
}

fn push_frame(bytes: &mut Vec<u8>, payload: &[u8]) -> Result<(), AllocError>
    ensures bytes { IfOk result (λ _. bytes.new.items ≡ bytes.old.items ++ frame payload.now) }
    ensures fits { IsPayload payload.now }
{
    bytes.push(OPEN)?;
    bytes.extend_from_slice(&(payload.len() as u64).to_be_bytes())?;
    bytes.extend_from_slice(payload)?;
    Ok(())
}
