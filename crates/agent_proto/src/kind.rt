//! The kind of a message, the first byte behind its length.
ghost use Rattle.std.specs.Prelude.{◌≡◌};
ghost use Rattle.agent_proto.specs.Kinds.{request_of, reply_of};

use crate::wire::{
    KIND_CHANGED, KIND_CLEARED, KIND_DIFFERS, KIND_DIGEST_DIFFERS, KIND_DONE, KIND_FAILED,
    KIND_FETCH, KIND_FULL, KIND_HELD, KIND_KEPT, KIND_LIST, KIND_LISTED, KIND_MAKE_DIR,
    KIND_MAKE_LINK, KIND_NO_EXEC, KIND_NO_LINK, KIND_NO_MEMORY, KIND_NO_PARENT, KIND_NOT_EMPTY,
    KIND_NOT_STAGED, KIND_OPENED, KIND_PIECE, KIND_PLACE, KIND_REMOVE, KIND_SET_EXEC,
    KIND_STAGE_APPEND, KIND_STAGE_CLEAR, KIND_STAGE_KEEP, KIND_STAGE_OPEN, KIND_TOO_LARGE,
    KIND_TOO_LONG,
};

/// The kinds of requests.
#[derive(Clone, Copy, Debug)]
pub(crate) enum Request {
    List,
    Fetch,
    StageClear,
    StageOpen,
    StageAppend,
    StageKeep,
    Place,
    MakeDir,
    MakeLink,
    Remove,
    SetExec,
}

/// The kinds of answers, and of what is told in place of one.
#[derive(Clone, Copy, Debug)]
pub(crate) enum Reply {
    Listed,
    Held,
    Piece,
    Changed,
    TooLarge,
    Cleared,
    Opened,
    NotStaged,
    Kept,
    DigestDiffers,
    Done,
    NoParent,
    Differs,
    NotEmpty,
    NoExec,
    Full,
    Failed,
    NoMemory,
    TooLong,
    NoLink,
}

/// The request that the byte stands for.
pub(crate) fn request_of(byte: u8) -> Option<Request>
    ensures { result ≡ request_of byte }
{
    match byte {
        KIND_LIST => Some(Request::List),
        KIND_FETCH => Some(Request::Fetch),
        KIND_STAGE_CLEAR => Some(Request::StageClear),
        KIND_STAGE_OPEN => Some(Request::StageOpen),
        KIND_STAGE_APPEND => Some(Request::StageAppend),
        KIND_STAGE_KEEP => Some(Request::StageKeep),
        KIND_PLACE => Some(Request::Place),
        KIND_MAKE_DIR => Some(Request::MakeDir),
        KIND_MAKE_LINK => Some(Request::MakeLink),
        KIND_REMOVE => Some(Request::Remove),
        KIND_SET_EXEC => Some(Request::SetExec),
        _ => None,
    }
}

/// The answer that the byte stands for.
pub(crate) fn reply_of(byte: u8) -> Option<Reply>
    ensures { result ≡ reply_of byte }
{
    match byte {
        KIND_LISTED => Some(Reply::Listed),
        KIND_HELD => Some(Reply::Held),
        KIND_PIECE => Some(Reply::Piece),
        KIND_CHANGED => Some(Reply::Changed),
        KIND_TOO_LARGE => Some(Reply::TooLarge),
        KIND_CLEARED => Some(Reply::Cleared),
        KIND_OPENED => Some(Reply::Opened),
        KIND_NOT_STAGED => Some(Reply::NotStaged),
        KIND_KEPT => Some(Reply::Kept),
        KIND_DIGEST_DIFFERS => Some(Reply::DigestDiffers),
        KIND_DONE => Some(Reply::Done),
        KIND_NO_PARENT => Some(Reply::NoParent),
        KIND_DIFFERS => Some(Reply::Differs),
        KIND_NOT_EMPTY => Some(Reply::NotEmpty),
        KIND_NO_EXEC => Some(Reply::NoExec),
        KIND_FULL => Some(Reply::Full),
        KIND_FAILED => Some(Reply::Failed),
        KIND_NO_MEMORY => Some(Reply::NoMemory),
        KIND_TOO_LONG => Some(Reply::TooLong),
        KIND_NO_LINK => Some(Reply::NoLink),
        _ => None,
    }
}
