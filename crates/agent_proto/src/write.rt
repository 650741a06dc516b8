//! Writing a message.
ghost use Rattle.std.specs.Prelude.{◌≡◌, ℕ, ◌<◌, ◌≤◌, ◌++◌, [], ◌∷◌, length, drop, Err, IfOk, OnOk};
ghost use Rattle.roots_api.specs.Told.{IsSession};
ghost use Rattle.agent_proto.specs.Fields.{number_field, found_field};
ghost use Rattle.agent_proto.specs.Messages.{who_field, op_kind, op_fields, answer_kind, answer_fields, body, spelling, IsMessage, IsTellable};
ghost use Rattle.agent_proto.specs.declared.message.Message.TheVariants as messages;

use crate::kept::{kept_answer, kept_op, kept_who};
use crate::limits::MAX_MESSAGE;
use crate::wire::{
    KIND_CHANGED, KIND_CLEARED, KIND_DIFFERS, KIND_DIGEST_DIFFERS, KIND_DONE, KIND_FAILED,
    KIND_FETCH, KIND_FULL, KIND_HELD, KIND_KEPT, KIND_LIST, KIND_LISTED, KIND_MAKE_DIR,
    KIND_MAKE_LINK, KIND_NO_EXEC, KIND_NO_LINK, KIND_NO_MEMORY, KIND_NO_PARENT, KIND_NOT_EMPTY,
    KIND_NOT_STAGED, KIND_OPENED, KIND_PIECE, KIND_PLACE, KIND_REMOVE, KIND_SET_EXEC,
    KIND_STAGE_APPEND, KIND_STAGE_CLEAR, KIND_STAGE_KEEP, KIND_STAGE_OPEN, KIND_TOO_LARGE,
    KIND_TOO_LONG,
};
use crate::write_fields::{
    push_bit, push_bytes, push_done, push_entry, push_found, push_path, push_rows, push_stamp,
    push_text, push_u32, push_u64, push_u128,
};
use bytes::Bytes;
use roots_api::{Answer, Leaf, Op, Who};
use std::alloc::{AllocError, Global};

// How much room the fields of a message have, other than bytes, paths and rows.
const FIELDS: usize = 96;

/// Why a message wasn't written.
#[derive(Clone, Copy, Debug, PartialEq, Eq)]
pub enum WriteFault {
    /// The message would have so many bytes behind its length, more than `MAX_MESSAGE`.
    TooLong(u64),
    /// Want of memory.
    Memory,
}

impl From<AllocError> for WriteFault {
    ghost use Rattle.std.specs.Prelude.{◌≡◌};
    ghost use Rattle.agent_proto.specs.declared.write.WriteFault.TheVariants.{Memory};

    ghost from_gives = { λ _ e. e ≡ Memory };

    fn from(_error: AllocError) -> WriteFault {
        WriteFault::Memory
    }
}

/// The one spelling of a session's request, which is a message.
///
/// Cost: the length of what is written; the bytes to be staged are copied once. A request that is too long is spelt out before it
/// is refused.
pub fn write_ask(alloc: Global, who: &Who, op: &Op) -> Result<Bytes, WriteFault>
    requires { IsSession who.now }
    ensures spelled { IfOk result (λ bytes. bytes ≡ spelling (messages.Ask who.now op.now)) }
    ensures fits { IfOk result (λ bytes. length (body (messages.Ask who.now op.now)) ≤ MAX_MESSAGE) }
    ensures too_long { (size : ℕ) → result ≡ Err (WriteFault.TooLong size)
        → (size ≡ length (body (messages.Ask who.now op.now))) × (MAX_MESSAGE < size) }
    ensures message { IfOk result (λ bytes. IsMessage (messages.Ask who.now op.now)) }
{
    let mut out = begin(alloc, op_kind(op), op.appended_len())?;
    push_who(&mut out, who)?;
    push_op(alloc, &mut out, op)?;
    let bytes = finish(out)?;
    kept_who(who);
    kept_op(op);
    Ok(bytes)
}

/// The one spelling of an answer, which is a message unless it is a piece with more than 65,536 bytes. No root answers such a piece.
///
/// Cost: the length of what is written; a piece's bytes are copied once. An answer that is too long is spelt out before it is refused.
pub fn write_answer(alloc: Global, answer: &Answer) -> Result<Bytes, WriteFault>
    ensures spelled { IfOk result (λ bytes. bytes ≡ spelling (messages.Answer answer.now)) }
    ensures fits { IfOk result (λ bytes. length (body (messages.Answer answer.now)) ≤ MAX_MESSAGE) }
    ensures too_long { (size : ℕ) → result ≡ Err (WriteFault.TooLong size)
        → (size ≡ length (body (messages.Answer answer.now))) × (MAX_MESSAGE < size) }
    ensures message { IfOk result (λ bytes. IsTellable answer.now → IsMessage (messages.Answer answer.now)) }
{
    let mut out = begin(alloc, answer_kind(answer), piece_len(answer))?;
    push_answer(&mut out, answer)?;
    let bytes = finish(out)?;
    kept_answer(answer);
    Ok(bytes)
}

/// The message that there was no memory.
#[tactic(auto, unfolding(crate::specs::Fields::number_field))]
pub fn write_no_memory(alloc: Global) -> Result<Bytes, AllocError>
    ensures { IfOk result (λ bytes. bytes ≡ spelling messages.NoMemory) }
{
    Bytes::copy_from_slice(alloc, &[0, 0, 0, 1, KIND_NO_MEMORY])
}

/// The message that an answer would have so many bytes behind its length.
#[tactic(auto, unfolding(crate::specs::Fields::number_field))]
pub fn write_too_long(alloc: Global, size: u64) -> Result<Bytes, AllocError>
    ensures { IfOk result (λ bytes. bytes ≡ spelling (messages.TooLong size)) }
{
    let mut out = Vec::with_capacity(alloc, 13)?;
    out.extend_from_slice(&[0, 0, 0, 9, KIND_TOO_LONG])?;
    push_u64(&mut out, size)?;
    Ok(Bytes::from_vec(out)?)
}

// How many bytes a piece has.
fn piece_len(answer: &Answer) -> usize {
    match answer {
        Answer::Piece { bytes, .. } => bytes.len(),
        _ => 0,
    }
}

// Room for a length, and the kind, in a buffer that holds so many bytes behind some fields.
fn begin(alloc: Global, kind: u8, bytes: usize) -> Result<Vec<u8>, AllocError>
    ensures { IfOk result (λ v. v.items ≡ 0 ∷ 0 ∷ 0 ∷ 0 ∷ kind ∷ []) }
{
    let mut out = Vec::with_capacity(alloc, bytes.saturating_add(FIELDS))?;
    out.extend_from_slice(&[0, 0, 0, 0])?;
    out.push(kind)?;
    Ok(out)
}

// The message, once its length stands before it.
#[tactic(auto, unfolding(crate::specs::Fields::number_field))]
fn finish(mut out: Vec<u8>) -> Result<Bytes, WriteFault>
    requires { 4 ≤ length out.items }
    ensures spelled { IfOk result (λ bytes.
        bytes ≡ number_field 4 (length (drop 4 out.items)) ++ drop 4 out.items) }
    ensures fits { IfOk result (λ bytes. length (drop 4 out.items) ≤ MAX_MESSAGE) }
    ensures too_long { (size : ℕ) → result ≡ Err (WriteFault.TooLong size)
        → (size ≡ length (drop 4 out.items)) × (MAX_MESSAGE < size) }
{
    let size = out.len() - 4;
    if size > MAX_MESSAGE {
        return Err(WriteFault::TooLong(size as u64));
    }
    let digits = (size as u32).to_be_bytes();
    out[0] = digits[0];
    out[1] = digits[1];
    out[2] = digits[2];
    out[3] = digits[3];
    Ok(shared(out)?)
}

// The bytes with their buffer.
fn shared(out: Vec<u8>) -> Result<Bytes, AllocError>
    ensures { IfOk result (λ bytes. bytes ≡ out.items) }
{
    Ok(Bytes::from_vec(out)?)
}

// The kind of a request.
fn op_kind(op: &Op) -> u8
    ensures { result ≡ op_kind op.now }
{
    match op {
        Op::List { .. } => KIND_LIST,
        Op::Fetch { .. } => KIND_FETCH,
        Op::StageClear => KIND_STAGE_CLEAR,
        Op::StageOpen => KIND_STAGE_OPEN,
        Op::StageAppend { .. } => KIND_STAGE_APPEND,
        Op::StageKeep { .. } => KIND_STAGE_KEEP,
        Op::Place { .. } => KIND_PLACE,
        Op::MakeDir { .. } => KIND_MAKE_DIR,
        Op::MakeLink { .. } => KIND_MAKE_LINK,
        Op::Remove { .. } => KIND_REMOVE,
        Op::SetExec { .. } => KIND_SET_EXEC,
    }
}

// The kind of an answer.
fn answer_kind(answer: &Answer) -> u8
    ensures { result ≡ answer_kind answer.now }
{
    match answer {
        Answer::Listed(_) => KIND_LISTED,
        Answer::Held(_) => KIND_HELD,
        Answer::Piece { .. } => KIND_PIECE,
        Answer::Changed(_) => KIND_CHANGED,
        Answer::TooLarge(_) => KIND_TOO_LARGE,
        Answer::Cleared => KIND_CLEARED,
        Answer::Opened => KIND_OPENED,
        Answer::NotStaged => KIND_NOT_STAGED,
        Answer::Kept => KIND_KEPT,
        Answer::DigestDiffers { .. } => KIND_DIGEST_DIFFERS,
        Answer::Done(_) => KIND_DONE,
        Answer::NoParent(_) => KIND_NO_PARENT,
        Answer::Differs(_) => KIND_DIFFERS,
        Answer::NotEmpty => KIND_NOT_EMPTY,
        Answer::NoExec => KIND_NO_EXEC,
        Answer::Full(_) => KIND_FULL,
        Answer::Failed => KIND_FAILED,
        Answer::NoLink => KIND_NO_LINK,
    }
}

// Adds who asks.
fn push_who(out: &mut Vec<u8>, who: &Who) -> Result<(), AllocError>
    ensures { OnOk result (out.new.items ≡ out.old.items ++ who_field who.now) }
{
    match who {
        Who::Editor => Ok(()),
        Who::Session { id, run, cycle } => {
            push_u128(out, *id)?;
            push_u32(out, *run)?;
            push_u64(out, *cycle)
        }
    }
}

// Adds what may be expected where a file or a link is put.
fn push_expected(out: &mut Vec<u8>, expected: &Option<Leaf>) -> Result<(), AllocError>
    ensures { OnOk result (out.new.items ≡ out.old.items ++ found_field expected.now) }
{
    match expected {
        None => {
            out.push(0)?;
            Ok(())
        }
        Some(leaf) => push_entry(out, leaf.entry()),
    }
}

// Adds the fields of a request, behind its kind and who asks.
fn push_op(alloc: Global, out: &mut Vec<u8>, op: &Op) -> Result<(), AllocError>
    ensures { OnOk result (out.new.items ≡ out.old.items ++ op_fields op.now) }
{
    match op {
        Op::List { path } => push_path(alloc, out, path),
        Op::Fetch {
            path,
            stamp,
            offset,
        } => {
            push_path(alloc, out, path)?;
            push_stamp(out, *stamp)?;
            push_u64(out, *offset)
        }
        Op::StageClear => Ok(()),
        Op::StageOpen => Ok(()),
        Op::StageAppend { bytes } => push_bytes(out, bytes.as_slice()),
        Op::StageKeep { digest } => out.extend_from_slice(digest.as_bytes()),
        Op::Place {
            path,
            digest,
            exec,
            expected,
        } => {
            push_path(alloc, out, path)?;
            out.extend_from_slice(digest.as_bytes())?;
            push_bit(out, *exec)?;
            push_expected(out, expected)
        }
        Op::MakeDir { path } => push_path(alloc, out, path),
        Op::MakeLink {
            path,
            text,
            expected,
        } => {
            push_path(alloc, out, path)?;
            push_text(out, text.as_str().as_bytes())?;
            push_expected(out, expected)
        }
        Op::Remove { path, expected } => {
            push_path(alloc, out, path)?;
            push_entry(out, expected.entry())
        }
        Op::SetExec { path, expected, on } => {
            push_path(alloc, out, path)?;
            push_entry(out, &expected.entry())?;
            push_bit(out, *on)
        }
    }
}

// Adds the fields of an answer, behind its kind.
fn push_answer(out: &mut Vec<u8>, answer: &Answer) -> Result<(), AllocError>
    ensures { OnOk result (out.new.items ≡ out.old.items ++ answer_fields answer.now) }
{
    match answer {
        Answer::Listed(rows) => push_rows(out, rows),
        Answer::Held(found) => push_found(out, found),
        Answer::Piece { bytes, last } => {
            push_bytes(out, bytes.as_slice())?;
            push_bit(out, *last)
        }
        Answer::Changed(found) => push_found(out, found),
        Answer::TooLarge(bytes) => push_u64(out, *bytes),
        Answer::Cleared => Ok(()),
        Answer::Opened => Ok(()),
        Answer::NotStaged => Ok(()),
        Answer::Kept => Ok(()),
        Answer::DigestDiffers { wanted, got } => {
            out.extend_from_slice(wanted.as_bytes())?;
            out.extend_from_slice(got.as_bytes())
        }
        Answer::Done(stamp) => push_done(out, *stamp),
        Answer::NoParent(found) => push_found(out, found),
        Answer::Differs(found) => push_found(out, found),
        Answer::NotEmpty => Ok(()),
        Answer::NoExec => Ok(()),
        Answer::Full(room) => {
            push_u64(out, room.log)?;
            push_u64(out, room.bytes)
        }
        Answer::Failed => Ok(()),
        Answer::NoLink => Ok(()),
    }
}
