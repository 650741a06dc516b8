//! What a client asks of the table.
ghost use Rattle.std.specs.Prelude.{◌≡◌, IfOk, string_bytes};
ghost use Rattle.std.specs.Option.{option_copied, option_map};
ghost use Rattle.session_table.specs.Answers.{IsNameOf};
ghost use Rattle.session_table.specs.Replies.{is_lasting};

use crate::create::Create;
use command_words::{GivenName, Label, SessionKind, SessionWord};
use std::alloc::{AllocError, Global};

/// A command, before which a client's number may stand.
#[derive(Debug, Drop)]
pub enum TableRequest {
    /// A new session.
    Create(Create),
    /// A whole new cycle of a session that keeps two roots the same.
    Flush(SessionWord),
    /// The session is to do nothing until it is resumed.
    Pause(SessionKind, SessionWord),
    /// The session goes on, also from a halt.
    Resume(SessionKind, SessionWord),
    /// A session that keeps two roots the same forgets what they had in common.
    Reset(SessionWord),
    /// The session ends.
    Terminate(SessionKind, SessionWord),
}

/// A question, before which no client's number stands.
#[derive(Debug, Drop)]
pub enum TableQuery {
    /// The sessions that keep two roots the same, or those with the label.
    SyncList(Option<Label>),
    /// The sessions that carry streams.
    ForwardList,
    /// The last report of a session that keeps two roots the same.
    Report(SessionWord),
}

impl TableRequest {
    /// Whether the command is kept also where no client's number stands before it: all but a flush.
    pub(crate) fn is_lasting(&self) -> bool
        ensures { result ≡ is_lasting self.now }
    {
        !matches!(self, TableRequest::Flush(_))
    }

    /// The name of a create as a text, if it has one; none of any other command. Cost: its length.
    pub(crate) fn name_text(&self, alloc: Global) -> Result<Option<String>, AllocError>
        ensures { IfOk result (λ name. IsNameOf self.now (option_map string_bytes name)) }
    {
        match self {
            TableRequest::Create(create) => name_text(alloc, create.name()),
            _ => Ok(None),
        }
    }

    /// An equal request. Cost: its length.
    pub fn copy(&self, alloc: Global) -> Result<TableRequest, AllocError>
        ensures { IfOk result (λ request. request ≡ self.now) }
    {
        match self {
            TableRequest::Create(create) => Ok(TableRequest::Create(create.copy(alloc)?)),
            TableRequest::Flush(session) => Ok(TableRequest::Flush(session.copy(alloc)?)),
            TableRequest::Pause(kind, session) => {
                Ok(TableRequest::Pause(*kind, session.copy(alloc)?))
            }
            TableRequest::Resume(kind, session) => {
                Ok(TableRequest::Resume(*kind, session.copy(alloc)?))
            }
            TableRequest::Reset(session) => Ok(TableRequest::Reset(session.copy(alloc)?)),
            TableRequest::Terminate(kind, session) => {
                Ok(TableRequest::Terminate(*kind, session.copy(alloc)?))
            }
        }
    }
}

impl TableQuery {
    /// An equal question. Cost: its length.
    pub fn copy(&self, alloc: Global) -> Result<TableQuery, AllocError>
        ensures { IfOk result (λ query. query ≡ self.now) }
    {
        match self {
            TableQuery::SyncList(label) => Ok(TableQuery::SyncList(copied_label(alloc, label)?)),
            TableQuery::ForwardList => Ok(TableQuery::ForwardList),
            TableQuery::Report(session) => Ok(TableQuery::Report(session.copy(alloc)?)),
        }
    }
}

// The same label, if there is one.
fn copied_label(alloc: Global, label: &Option<Label>) -> Result<Option<Label>, AllocError>
    ensures { IfOk result (λ copy. copy ≡ label.now) }
{
    match label {
        Some(label) => Ok(Some(label.copy(alloc)?)),
        None => Ok(None),
    }
}

// A name as a text, if there is one.
fn name_text(alloc: Global, name: Option<&GivenName>) -> Result<Option<String>, AllocError>
    ensures { IfOk result (λ text. option_map string_bytes text ≡ option_copied name.entry) }
{
    match name {
        Some(name) => Ok(Some(String::from_str(alloc, name.as_str())?)),
        None => Ok(None),
    }
}
