//! Where the words that say what a line does lead.
ghost use Rattle.std.specs.Prelude.{◌≡◌};
ghost use Rattle.request_text.specs.Places.{conn_place, edit_place, forward_place, stream_place, sync_place};

use crate::options::{no_forward_options, no_sync_options};
use crate::place::{ConnVerb, EditVerb, ForwardVerb, Place, StreamVerb, SyncVerb};
use crate::request::Request;
use crate::stream_end::StreamEnd;
use crate::target::Target;
use command_words::{RootName, SessionWord, StreamSide};
use std::alloc::Global;
use sync_path::Path;

/// Behind the path of an edit.
pub(crate) fn edit_place(root: RootName, verb: EditVerb, path: Path) -> Place
    ensures { result ≡ edit_place root verb path }
{
    let target = Target { root, path };
    match verb {
        EditVerb::Put => Place::Put(target),
        EditVerb::Fill => Place::Fill(target),
        EditVerb::Link => Place::Link(target),
        EditVerb::Dir => Place::Done(Request::Dir(target)),
        EditVerb::Other => Place::Done(Request::Other(target)),
        EditVerb::Exec => Place::Exec(target),
        EditVerb::Del => Place::Done(Request::Del(target)),
    }
}

/// Behind the verb of a line on synchronisation sessions.
pub(crate) fn sync_place(alloc: Global, verb: SyncVerb) -> Place
    ensures { result ≡ sync_place verb }
{
    match verb {
        SyncVerb::Create => Place::SyncCreate(no_sync_options(alloc)),
        SyncVerb::List => Place::SyncList,
        SyncVerb::Flush => Place::SyncFlush,
        SyncVerb::Order(order) => Place::SyncOrder(order),
        SyncVerb::Report => Place::SyncReport,
    }
}

/// Behind the verb of a line on forwarding sessions.
pub(crate) fn forward_place(verb: ForwardVerb) -> Place
    ensures { result ≡ forward_place verb }
{
    match verb {
        ForwardVerb::Create => Place::ForwardCreate(no_forward_options()),
        ForwardVerb::List => Place::Done(Request::ForwardList),
        ForwardVerb::Order(order) => Place::ForwardOrder(order),
    }
}

/// Behind the verb of a line on a session's connection.
pub(crate) fn conn_place(session: SessionWord, verb: ConnVerb) -> Place
    ensures { result ≡ conn_place session verb }
{
    match verb {
        ConnVerb::Open => Place::Done(Request::Open(session)),
        ConnVerb::Stream(verb) => Place::Stream(session, verb),
        ConnVerb::Move => Place::Move(session),
        ConnVerb::Cut => Place::Done(Request::Cut(session)),
    }
}

/// Behind the side of an operation on a stream.
pub(crate) fn stream_place(
    session: SessionWord,
    verb: StreamVerb,
    number: u32,
    side: StreamSide,
) -> Place
    ensures { result ≡ stream_place session verb number side }
{
    let end = StreamEnd {
        session,
        stream: number,
        side,
    };
    match verb {
        StreamVerb::Write => Place::Write(end),
        StreamVerb::Fill => Place::StreamFill(end),
        StreamVerb::Read => Place::Read(end),
        StreamVerb::CloseWrite => Place::Done(Request::CloseWrite(end)),
        StreamVerb::Close => Place::Done(Request::Close(end)),
    }
}
