//! Reading an answer, and what is told in place of one.
ghost use Rattle.std.specs.Prelude.{IfOk};
ghost use Rattle.agent_proto.specs.Reading.{Took, answer_in};

use crate::kind::Reply;
use crate::message::Message;
use crate::read_fields::Fields;
use roots_api::{Answer, Room};
use std::alloc::{AllocError, Global};

/// What stands behind the kind of this answer.
pub(crate) fn read_reply(
    alloc: Global,
    reply: Reply,
    fields: &mut Fields<'_>,
) -> Result<Option<Message>, AllocError>
    ensures { IfOk result (λ message. Took (answer_in reply) fields.old message fields.new) }
{
    match reply {
        Reply::Listed => read_listed(alloc, fields),
        Reply::Held => read_held(alloc, fields),
        Reply::Piece => read_piece(alloc, fields),
        Reply::Changed => read_changed(alloc, fields),
        Reply::TooLarge => Ok(read_too_large(fields)),
        Reply::Cleared => Ok(Some(Message::Answer(Answer::Cleared))),
        Reply::Opened => Ok(Some(Message::Answer(Answer::Opened))),
        Reply::NotStaged => Ok(Some(Message::Answer(Answer::NotStaged))),
        Reply::Kept => Ok(Some(Message::Answer(Answer::Kept))),
        Reply::DigestDiffers => Ok(read_digest_differs(fields)),
        Reply::Done => Ok(read_done(fields)),
        Reply::NoParent => read_no_parent(alloc, fields),
        Reply::Differs => read_differs(alloc, fields),
        Reply::NotEmpty => Ok(Some(Message::Answer(Answer::NotEmpty))),
        Reply::NoExec => Ok(Some(Message::Answer(Answer::NoExec))),
        Reply::Full => Ok(read_full(fields)),
        Reply::Failed => Ok(Some(Message::Answer(Answer::Failed))),
        Reply::NoMemory => Ok(Some(Message::NoMemory)),
        Reply::TooLong => Ok(read_too_long(fields)),
        Reply::NoLink => Ok(Some(Message::Answer(Answer::NoLink))),
    }
}

fn read_listed(alloc: Global, fields: &mut Fields<'_>) -> Result<Option<Message>, AllocError>
    ensures { IfOk result (λ message. Took (answer_in Reply.Listed) fields.old message fields.new) }
{
    match fields.rows(alloc) {
        Ok(Some(value)) => Ok(Some(Message::Answer(Answer::Listed(value)))),
        Ok(None) => Ok(None),
        Err(error) => Err(error),
    }
}

fn read_held(alloc: Global, fields: &mut Fields<'_>) -> Result<Option<Message>, AllocError>
    ensures { IfOk result (λ message. Took (answer_in Reply.Held) fields.old message fields.new) }
{
    match fields.found(alloc) {
        Ok(Some(value)) => Ok(Some(Message::Answer(Answer::Held(value)))),
        Ok(None) => Ok(None),
        Err(error) => Err(error),
    }
}

fn read_piece(alloc: Global, fields: &mut Fields<'_>) -> Result<Option<Message>, AllocError>
    ensures { IfOk result (λ message. Took (answer_in Reply.Piece) fields.old message fields.new) }
{
    let Some(bytes) = fields.piece(alloc)? else {
        return Ok(None);
    };
    let Some(last) = fields.bit() else {
        return Ok(None);
    };
    Ok(Some(Message::Answer(Answer::Piece { bytes, last })))
}

fn read_changed(alloc: Global, fields: &mut Fields<'_>) -> Result<Option<Message>, AllocError>
    ensures { IfOk result (λ message. Took (answer_in Reply.Changed) fields.old message fields.new) }
{
    match fields.found(alloc) {
        Ok(Some(value)) => Ok(Some(Message::Answer(Answer::Changed(value)))),
        Ok(None) => Ok(None),
        Err(error) => Err(error),
    }
}

fn read_too_large(fields: &mut Fields<'_>) -> Option<Message>
    ensures { Took (answer_in Reply.TooLarge) fields.old result fields.new }
{
    match fields.u64() {
        Some(value) => Some(Message::Answer(Answer::TooLarge(value))),
        None => None,
    }
}

fn read_digest_differs(fields: &mut Fields<'_>) -> Option<Message>
    ensures { Took (answer_in Reply.DigestDiffers) fields.old result fields.new }
{
    let Some(wanted) = fields.digest() else {
        return None;
    };
    match fields.digest() {
        Some(got) => Some(Message::Answer(Answer::DigestDiffers { wanted, got })),
        None => None,
    }
}

fn read_done(fields: &mut Fields<'_>) -> Option<Message>
    ensures { Took (answer_in Reply.Done) fields.old result fields.new }
{
    match fields.done() {
        Some(value) => Some(Message::Answer(Answer::Done(value))),
        None => None,
    }
}

fn read_no_parent(alloc: Global, fields: &mut Fields<'_>) -> Result<Option<Message>, AllocError>
    ensures { IfOk result (λ message. Took (answer_in Reply.NoParent) fields.old message fields.new) }
{
    match fields.found(alloc) {
        Ok(Some(value)) => Ok(Some(Message::Answer(Answer::NoParent(value)))),
        Ok(None) => Ok(None),
        Err(error) => Err(error),
    }
}

fn read_differs(alloc: Global, fields: &mut Fields<'_>) -> Result<Option<Message>, AllocError>
    ensures { IfOk result (λ message. Took (answer_in Reply.Differs) fields.old message fields.new) }
{
    match fields.found(alloc) {
        Ok(Some(value)) => Ok(Some(Message::Answer(Answer::Differs(value)))),
        Ok(None) => Ok(None),
        Err(error) => Err(error),
    }
}

fn read_full(fields: &mut Fields<'_>) -> Option<Message>
    ensures { Took (answer_in Reply.Full) fields.old result fields.new }
{
    let Some(log) = fields.u64() else {
        return None;
    };
    match fields.u64() {
        Some(bytes) => Some(Message::Answer(Answer::Full(Room { log, bytes }))),
        None => None,
    }
}

fn read_too_long(fields: &mut Fields<'_>) -> Option<Message>
    ensures { Took (answer_in Reply.TooLong) fields.old result fields.new }
{
    match fields.u64() {
        Some(value) => Some(Message::TooLong(value)),
        None => None,
    }
}
