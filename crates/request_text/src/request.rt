//! The requests of lines.

use crate::create::{ForwardCreate, SyncCreate};
use crate::order::{ForwardOrder, SyncOrder};
use crate::stream_end::StreamEnd;
use crate::target::Target;
use command_words::{
    Contents, FillLength, Label, ReadMost, RootName, SessionWord, StepCount, StreamBytes,
    StreamFillLength, StreamSide,
};
use entry_tree::Text;
use mode_rules::Phase;

/// What a line asks for: a variant for each request line of docs/FORMATS.md.
#[derive(Debug, Drop)]
pub enum Request {
    /// `edit ROOT put PATH BYTES`: an editor writes a file.
    Put(Target, Contents),
    /// `edit ROOT fill PATH LEN HH`: the same, with LEN times the byte HH.
    Fill(Target, FillLength, u8),
    /// `edit ROOT link PATH =TEXT`: an editor makes a link.
    Link(Target, Text),
    /// `edit ROOT dir PATH`: an editor makes a folder.
    Dir(Target),
    /// `edit ROOT other PATH`: an editor makes a thing that is never tracked.
    Other(Target),
    /// `edit ROOT exec PATH on` or `off`: an editor sets or clears a file's executable bit.
    Exec(Target, bool),
    /// `edit ROOT del PATH`: an editor removes all at and below the path.
    Del(Target),
    /// `show ROOT`: the root's entries.
    Show(RootName),
    /// `ancestor SESSION`: the session's ancestor.
    Ancestor(SessionWord),
    /// `step SESSION N`: so many turns.
    Step(SessionWord, StepCount),
    /// `until SESSION PHASE`: turns until the session is in the phase.
    Until(SessionWord, Phase),
    /// `sync create [OPTION..] ALPHA BETA`: a new session.
    SyncCreate(SyncCreate),
    /// `sync list [--label=KEY=VALUE]`: all sessions, or those with the label.
    SyncList(Option<Label>),
    /// `sync flush SESSION`: a whole new cycle, awaited.
    SyncFlush(SessionWord),
    /// `sync flush --skip-wait SESSION`: a whole new cycle, not awaited.
    SyncFlushSkipWait(SessionWord),
    /// `sync pause SESSION`, and `resume`, `reset`, `terminate`.
    SyncOrder(SyncOrder, SessionWord),
    /// `sync report SESSION`: the last report.
    SyncReport(SessionWord),
    /// `forward create [OPTION..] SOURCE DEST`: a new forwarding session.
    ForwardCreate(ForwardCreate),
    /// `forward list`: all forwarding sessions.
    ForwardList,
    /// `forward pause SESSION`, and `resume`, `terminate`.
    ForwardOrder(ForwardOrder, SessionWord),
    /// `conn SESSION open`: a new stream from the near end.
    Open(SessionWord),
    /// `conn SESSION write STREAM SIDE BYTES`: bytes into a stream.
    Write(StreamEnd, StreamBytes),
    /// `conn SESSION fill STREAM SIDE LEN HH`: LEN times the byte HH into a stream.
    StreamFill(StreamEnd, StreamFillLength, u8),
    /// `conn SESSION read STREAM SIDE MOST`: at most so many bytes out of a stream.
    Read(StreamEnd, ReadMost),
    /// `conn SESSION close-write STREAM SIDE`: the end of what a side writes.
    CloseWrite(StreamEnd),
    /// `conn SESSION close STREAM SIDE`: the end of a stream at a side.
    Close(StreamEnd),
    /// `conn SESSION move SIDE K`: so many bytes of what waits at a side go to the other.
    Move(SessionWord, StreamSide, u64),
    /// `conn SESSION cut`: the link ends.
    Cut(SessionWord),
}
