//! Where a reader of a request line is.

use crate::options::{ForwardOptions, SyncOptions};
use crate::order::{ForwardOrder, SyncOrder};
use crate::request::Request;
use crate::stream_end::StreamEnd;
use crate::target::Target;
use command_words::{
    Client, Endpoint, FillLength, GivenName, RootName, SessionWord, StreamFillLength, StreamSide,
};

/// The first word of a request.
#[derive(Clone, Copy, Debug, PartialEq, Eq)]
pub(crate) enum First {
    Edit,
    Show,
    Ancestor,
    Step,
    Until,
    Sync,
    Forward,
    Conn,
}

/// What an edit does.
#[derive(Clone, Copy, Debug, PartialEq, Eq)]
pub(crate) enum EditVerb {
    Put,
    Fill,
    Link,
    Dir,
    Other,
    Exec,
    Del,
}

/// The second word of a line on synchronisation sessions.
#[derive(Clone, Copy, Debug, PartialEq, Eq)]
pub(crate) enum SyncVerb {
    Create,
    List,
    Flush,
    Order(SyncOrder),
    Report,
}

/// The second word of a line on forwarding sessions.
#[derive(Clone, Copy, Debug, PartialEq, Eq)]
pub(crate) enum ForwardVerb {
    Create,
    List,
    Order(ForwardOrder),
}

/// What a line on a session's connection does.
#[derive(Clone, Copy, Debug, PartialEq, Eq)]
pub(crate) enum ConnVerb {
    Open,
    Stream(StreamVerb),
    Move,
    Cut,
}

/// What is done to an end of a stream.
#[derive(Clone, Copy, Debug, PartialEq, Eq)]
pub(crate) enum StreamVerb {
    Write,
    Fill,
    Read,
    CloseWrite,
    Close,
}

/// What was read of a request so far.
#[derive(Debug, Drop)]
pub(crate) enum Place {
    /// Nothing.
    Begin,
    /// Its first word.
    First(First),
    /// `edit ROOT`
    EditRoot(RootName),
    /// `edit ROOT VERB`
    EditVerb(RootName, EditVerb),
    /// `edit ROOT put PATH`
    Put(Target),
    /// `edit ROOT fill PATH`
    Fill(Target),
    /// `edit ROOT fill PATH LEN`
    FillLen(Target, FillLength),
    /// `edit ROOT link PATH`
    Link(Target),
    /// `edit ROOT exec PATH`
    Exec(Target),
    /// `step SESSION`
    Step(SessionWord),
    /// `until SESSION`
    Until(SessionWord),
    /// `sync create` and some options
    SyncCreate(SyncOptions),
    /// `sync create`, some options and ALPHA
    SyncAlpha(SyncOptions, RootName),
    /// `sync list`
    SyncList,
    /// `sync flush`
    SyncFlush,
    /// `sync flush --skip-wait`
    SyncFlushSkipWait,
    /// `sync pause`, `resume`, `reset` or `terminate`
    SyncOrder(SyncOrder),
    /// `sync report`
    SyncReport,
    /// `forward create` and some options
    ForwardCreate(ForwardOptions),
    /// `forward create`, some options and SOURCE
    ForwardSource(ForwardOptions, Endpoint),
    /// `forward pause`, `resume` or `terminate`
    ForwardOrder(ForwardOrder),
    /// `conn SESSION`
    Conn(SessionWord),
    /// `conn SESSION VERB`, where a stream is next
    Stream(SessionWord, StreamVerb),
    /// `conn SESSION VERB STREAM`
    StreamNumber(SessionWord, StreamVerb, u32),
    /// `conn SESSION write STREAM SIDE`
    Write(StreamEnd),
    /// `conn SESSION fill STREAM SIDE`
    StreamFill(StreamEnd),
    /// `conn SESSION fill STREAM SIDE LEN`
    StreamFillLen(StreamEnd, StreamFillLength),
    /// `conn SESSION read STREAM SIDE`
    Read(StreamEnd),
    /// `conn SESSION move`
    Move(SessionWord),
    /// `conn SESSION move SIDE`
    MoveSide(SessionWord, StreamSide),
    /// A whole request.
    Done(Request),
}
