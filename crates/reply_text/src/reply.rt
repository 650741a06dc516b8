//! What is answered to a request.
ghost use Rattle.std.specs.Prelude.{◌≡◌, IfOk};

use crate::copies::copied_items;
use crate::forward_row::ForwardRow;
use crate::listed::Listed;
use crate::refusal::Refusal;
use crate::report_rows::ReportRows;
use crate::stream_read::StreamRead;
use crate::sync_row::SyncRow;
use command_words::{Identifier, RootName};
use mode_rules::Phase;
use sqlite_items::Items;
use std::alloc::{AllocError, Global};

/// What is answered to a request.
#[derive(Debug, Drop)]
pub enum Reply {
    /// The edit was made.
    Edited,
    /// The entries of a root, in path order.
    Shown {
        root: RootName,
        entries: Items<Listed>,
    },
    /// The entries of a session's ancestor, in path order.
    Ancestor {
        identifier: Identifier,
        entries: Items<Listed>,
    },
    /// The phase after the turns of a `step`.
    Stepped(Phase),
    /// The phase after the turns of an `until`.
    Reached(Phase),
    /// The session was made.
    Created(Identifier),
    /// The synchronisation sessions, in order of creation.
    SyncList(Items<SyncRow>),
    /// The forwarding sessions, in order of creation.
    ForwardList(Items<ForwardRow>),
    /// A flush that doesn't wait asked for this cycle.
    Awaits {
        identifier: Identifier,
        cycle: u64,
    },
    /// The last report, once the cycle that a flush asked for has finished.
    Flushed {
        identifier: Identifier,
        report: ReportRows,
    },
    /// The last report.
    Reported {
        identifier: Identifier,
        report: ReportRows,
    },
    /// No cycle of the session has finished in this run.
    Unreported(Identifier),
    /// The session was paused.
    Paused(Identifier),
    /// The session was resumed.
    Resumed(Identifier),
    /// The session was reset.
    Reset(Identifier),
    /// The session was terminated.
    Terminated(Identifier),
    /// This stream was opened.
    Opened(u32),
    /// So many bytes were written to a stream.
    Wrote(u64),
    /// What a read of a stream gave.
    Read(StreamRead),
    /// The stream's writing was ended.
    WriteClosed,
    /// The stream was closed.
    Closed,
    /// So many bytes went to the other end.
    Moved(u64),
    /// The link was cut.
    Cut,
    /// The request was refused.
    Refused(Refusal),
}

impl Reply {
    /// An equal reply. Cost: its length.
    pub fn copy(&self, alloc: Global) -> Result<Reply, AllocError>
        ensures { IfOk result (λ reply. reply ≡ self.now) }
    {
        match self {
            Reply::Edited => Ok(Reply::Edited),
            Reply::Shown { root, entries } => Ok(Reply::Shown {
                root: root.copy(alloc)?,
                entries: copied_items(alloc, entries.as_slice())?,
            }),
            Reply::Ancestor {
                identifier,
                entries,
            } => Ok(Reply::Ancestor {
                identifier: *identifier,
                entries: copied_items(alloc, entries.as_slice())?,
            }),
            Reply::Stepped(phase) => Ok(Reply::Stepped(*phase)),
            Reply::Reached(phase) => Ok(Reply::Reached(*phase)),
            Reply::Created(identifier) => Ok(Reply::Created(*identifier)),
            Reply::SyncList(rows) => Ok(Reply::SyncList(copied_items(alloc, rows.as_slice())?)),
            Reply::ForwardList(rows) => {
                Ok(Reply::ForwardList(copied_items(alloc, rows.as_slice())?))
            }
            Reply::Awaits { identifier, cycle } => Ok(Reply::Awaits {
                identifier: *identifier,
                cycle: *cycle,
            }),
            Reply::Flushed { identifier, report } => Ok(Reply::Flushed {
                identifier: *identifier,
                report: report.copy(alloc)?,
            }),
            Reply::Reported { identifier, report } => Ok(Reply::Reported {
                identifier: *identifier,
                report: report.copy(alloc)?,
            }),
            Reply::Unreported(identifier) => Ok(Reply::Unreported(*identifier)),
            Reply::Paused(identifier) => Ok(Reply::Paused(*identifier)),
            Reply::Resumed(identifier) => Ok(Reply::Resumed(*identifier)),
            Reply::Reset(identifier) => Ok(Reply::Reset(*identifier)),
            Reply::Terminated(identifier) => Ok(Reply::Terminated(*identifier)),
            Reply::Opened(stream) => Ok(Reply::Opened(*stream)),
            Reply::Wrote(count) => Ok(Reply::Wrote(*count)),
            Reply::Read(read) => Ok(Reply::Read(read.copy(alloc)?)),
            Reply::WriteClosed => Ok(Reply::WriteClosed),
            Reply::Closed => Ok(Reply::Closed),
            Reply::Moved(count) => Ok(Reply::Moved(*count)),
            Reply::Cut => Ok(Reply::Cut),
            Reply::Refused(refusal) => Ok(Reply::Refused(refusal.copy(alloc)?)),
        }
    }
}
