//! What a link answers.
use mux_core::ReadAnswer;

/// What was answered.
#[derive(Debug, PartialEq, Eq, Drop)]
pub enum LinkReply {
    /// The stream of this number was opened.
    Opened(u32),
    /// So many bytes were accepted, from the first on.
    Wrote(usize),
    /// What was read. A read of at most 0 bytes gets no bytes.
    Read(ReadAnswer),
    Done,
    /// So many bytes went to the other side.
    Moved(u64),
    /// So many streams are live at the near end, the most that it opens, or the last number was given.
    StreamsFull(u32),
    /// The session is paused. It never comes from a pair.
    Paused,
    /// The link was cut.
    Cut,
    /// The stream isn't live at this side.
    NoStream,
    /// Writing has ended at this side, the other side closed the stream, or the link was cut.
    WriteClosed,
    /// Want of memory. Nothing changed, or of a move fewer bytes went over than were asked for.
    NoMemory,
    /// The cell is spent, with so many tickets drawn. It never comes from a pair.
    Spent(u64),
}
