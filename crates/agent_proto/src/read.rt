//! Reading a message that is whole.
ghost use Rattle.std.specs.Prelude.{◌≡◌, ◌==◌, cond, length, Some, None, IfOk};
ghost use Rattle.agent_proto.specs.Reading.{Took, who_in, op_in, answer_in, ask_in, other_in, fields_in, message_in, whole};
ghost use Rattle.agent_proto.specs.Bodies.{ReadsBody};
ghost use Rattle.agent_proto.specs.Kinds.{request_of, reply_of};

use crate::kind::{Request, reply_of, request_of};
use crate::limits::MAX_MESSAGE;
use crate::message::Message;
use crate::read_fields::Fields;
use crate::read_reply::read_reply;
use roots_api::{Op, Who};
use std::alloc::{AllocError, Global};

/// The message of which these bytes stand behind the length, if there is one: of more than `MAX_MESSAGE` bytes there is none.
///
/// Cost: their number. The bytes of a piece, and those to be staged, are copied once.
pub fn read_body(alloc: Global, bytes: &[u8]) -> Result<Option<Message>, AllocError>
    ensures { IfOk result (ReadsBody bytes.now) }
{
    if bytes.len() > MAX_MESSAGE {
        return Ok(None);
    }
    read_whole(alloc, bytes)
}

// The same, by the tables.
pub(crate) fn read_whole(alloc: Global, bytes: &[u8]) -> Result<Option<Message>, AllocError>
    ensures { IfOk result (λ message. message ≡ whole (message_in bytes.now)) }
{
    let mut fields = Fields::of(bytes);
    match read_message(alloc, &mut fields) {
        Ok(Some(message)) => Ok(if_done(&fields, message)),
        Ok(None) => Ok(None),
        Err(error) => Err(error),
    }
}

// The message, where no byte is left.
fn if_done(fields: &Fields<'_>, message: Message) -> Option<Message>
    ensures { result ≡ cond (length fields.now == 0) (Some message) None }
{
    if fields.is_done() {
        Some(message)
    } else {
        None
    }
}

// A kind and its fields.
fn read_message(alloc: Global, fields: &mut Fields<'_>) -> Result<Option<Message>, AllocError>
    ensures { IfOk result (λ message. Took message_in fields.old message fields.new) }
{
    match fields.byte() {
        Some(kind) => read_fields(alloc, kind, fields),
        None => Ok(None),
    }
}

// What stands behind a kind.
fn read_fields(
    alloc: Global,
    kind: u8,
    fields: &mut Fields<'_>,
) -> Result<Option<Message>, AllocError>
    ensures { IfOk result (λ message. Took (fields_in kind (request_of kind)) fields.old message fields.new) }
{
    match request_of(kind) {
        Some(request) => read_ask(alloc, request, fields),
        None => match reply_of(kind) {
            Some(reply) => read_reply(alloc, reply, fields),
            None => Ok(None),
        },
    }
}

// Who asks, and the operation.
fn read_ask(
    alloc: Global,
    request: Request,
    fields: &mut Fields<'_>,
) -> Result<Option<Message>, AllocError>
    ensures { IfOk result (λ message. Took (ask_in request) fields.old message fields.new) }
{
    let Some(who) = read_who(fields) else {
        return Ok(None);
    };
    match read_op(alloc, request, fields) {
        Ok(Some(op)) => Ok(Some(Message::Ask(who, op))),
        Ok(None) => Ok(None),
        Err(error) => Err(error),
    }
}

/// Who asks.
pub(crate) fn read_who(fields: &mut Fields<'_>) -> Option<Who>
    ensures { Took who_in fields.old result fields.new }
{
    let Some(id) = fields.u128() else {
        return None;
    };
    let Some(run) = fields.u32() else {
        return None;
    };
    match fields.u64() {
        Some(cycle) => Some(Who::Session { id, run, cycle }),
        None => None,
    }
}

// The operation of this kind.
fn read_op(
    alloc: Global,
    request: Request,
    fields: &mut Fields<'_>,
) -> Result<Option<Op>, AllocError>
    ensures { IfOk result (λ op. Took (op_in request) fields.old op fields.new) }
{
    match request {
        Request::List => read_list(alloc, fields),
        Request::Fetch => read_fetch(alloc, fields),
        Request::StageClear => Ok(Some(Op::StageClear)),
        Request::StageOpen => Ok(Some(Op::StageOpen)),
        Request::StageAppend => read_stage_append(alloc, fields),
        Request::StageKeep => Ok(read_stage_keep(fields)),
        Request::Place => read_place(alloc, fields),
        Request::MakeDir => read_make_dir(alloc, fields),
        Request::MakeLink => read_make_link(alloc, fields),
        Request::Remove => read_remove(alloc, fields),
        Request::SetExec => read_set_exec(alloc, fields),
    }
}

fn read_list(alloc: Global, fields: &mut Fields<'_>) -> Result<Option<Op>, AllocError>
    ensures { IfOk result (λ op. Took (op_in Request.List) fields.old op fields.new) }
{
    match fields.path(alloc) {
        Ok(Some(path)) => Ok(Some(Op::List { path })),
        Ok(None) => Ok(None),
        Err(error) => Err(error),
    }
}

fn read_fetch(alloc: Global, fields: &mut Fields<'_>) -> Result<Option<Op>, AllocError>
    ensures { IfOk result (λ op. Took (op_in Request.Fetch) fields.old op fields.new) }
{
    let Some(path) = fields.path(alloc)? else {
        return Ok(None);
    };
    let Some(stamp) = fields.stamp() else {
        return Ok(None);
    };
    let Some(offset) = fields.u64() else {
        return Ok(None);
    };
    Ok(Some(Op::Fetch {
        path,
        stamp,
        offset,
    }))
}

fn read_stage_append(alloc: Global, fields: &mut Fields<'_>) -> Result<Option<Op>, AllocError>
    ensures { IfOk result (λ op. Took (op_in Request.StageAppend) fields.old op fields.new) }
{
    match fields.bytes(alloc) {
        Ok(Some(bytes)) => Ok(Some(Op::StageAppend { bytes })),
        Ok(None) => Ok(None),
        Err(error) => Err(error),
    }
}

fn read_stage_keep(fields: &mut Fields<'_>) -> Option<Op>
    ensures { Took (op_in Request.StageKeep) fields.old result fields.new }
{
    match fields.digest() {
        Some(digest) => Some(Op::StageKeep { digest }),
        None => None,
    }
}

fn read_place(alloc: Global, fields: &mut Fields<'_>) -> Result<Option<Op>, AllocError>
    ensures { IfOk result (λ op. Took (op_in Request.Place) fields.old op fields.new) }
{
    let Some(path) = fields.path(alloc)? else {
        return Ok(None);
    };
    let Some(digest) = fields.digest() else {
        return Ok(None);
    };
    let Some(exec) = fields.bit() else {
        return Ok(None);
    };
    let Some(expected) = fields.replaced(alloc)? else {
        return Ok(None);
    };
    Ok(Some(Op::Place {
        path,
        digest,
        exec,
        expected,
    }))
}

fn read_make_dir(alloc: Global, fields: &mut Fields<'_>) -> Result<Option<Op>, AllocError>
    ensures { IfOk result (λ op. Took (op_in Request.MakeDir) fields.old op fields.new) }
{
    match fields.path(alloc) {
        Ok(Some(path)) => Ok(Some(Op::MakeDir { path })),
        Ok(None) => Ok(None),
        Err(error) => Err(error),
    }
}

fn read_make_link(alloc: Global, fields: &mut Fields<'_>) -> Result<Option<Op>, AllocError>
    ensures { IfOk result (λ op. Took (op_in Request.MakeLink) fields.old op fields.new) }
{
    let Some(path) = fields.path(alloc)? else {
        return Ok(None);
    };
    let Some(text) = fields.text(alloc)? else {
        return Ok(None);
    };
    let Some(expected) = fields.replaced(alloc)? else {
        return Ok(None);
    };
    Ok(Some(Op::MakeLink {
        path,
        text,
        expected,
    }))
}

fn read_remove(alloc: Global, fields: &mut Fields<'_>) -> Result<Option<Op>, AllocError>
    ensures { IfOk result (λ op. Took (op_in Request.Remove) fields.old op fields.new) }
{
    let Some(path) = fields.path(alloc)? else {
        return Ok(None);
    };
    let Some(expected) = fields.tracked(alloc)? else {
        return Ok(None);
    };
    Ok(Some(Op::Remove { path, expected }))
}

fn read_set_exec(alloc: Global, fields: &mut Fields<'_>) -> Result<Option<Op>, AllocError>
    ensures { IfOk result (λ op. Took (op_in Request.SetExec) fields.old op fields.new) }
{
    let Some(path) = fields.path(alloc)? else {
        return Ok(None);
    };
    let Some(expected) = fields.file_entry(alloc)? else {
        return Ok(None);
    };
    let Some(on) = fields.bit() else {
        return Ok(None);
    };
    Ok(Some(Op::SetExec { path, expected, on }))
}
