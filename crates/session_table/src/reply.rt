//! What the table answers.
ghost use Rattle.std.specs.Prelude.{◌≡◌};
ghost use Rattle.session_table.specs.Replies.{is_refused};

use crate::refusal::TableRefusal;
use command_words::{Endpoint, GivenName, Identifier, Labels, RootName};
use mode_rules::{CycleReport, Halt, Mode};
use session_control::{Standing, Wish};
use sqlite_items::Items;

/// A command whose reply says no more than that it was done.
#[derive(Clone, Copy, Debug, PartialEq, Eq)]
pub enum Order {
    Pause,
    Resume,
    Reset,
    Terminate,
}

/// The answer to a command. It is small, since it is kept for the client.
#[derive(Clone, Copy, Debug, PartialEq, Eq)]
pub enum CommandReply {
    /// The session was made.
    Created(Identifier),
    /// The flush waits for this cycle of this run.
    Awaits { id: u128, run: u32, cycle: u64 },
    /// It was done to this session.
    Ordered(Order, Identifier),
    /// It was refused.
    Refused(TableRefusal),
}

impl CommandReply {
    /// Whether the command was refused.
    pub fn is_refused(self) -> bool
        ensures { result ≡ is_refused self }
    {
        matches!(self, CommandReply::Refused(_))
    }
}

/// The answer to an operation.
#[derive(Debug, Drop)]
pub enum TableReply {
    /// The answer to a command.
    Command(CommandReply),
    /// The sessions that keep two roots the same, in order of creation.
    SyncList(Items<SyncRow>),
    /// The sessions that carry streams, in order of creation.
    ForwardList(Items<ForwardRow>),
    /// The last report of a session, if a cycle of it has ended in this run.
    Reported {
        id: u128,
        report: Option<CycleReport>,
    },
    /// The awaited cycle has finished, and this is the last report.
    Flushed {
        id: u128,
        report: CycleReport,
    },
    /// The awaited cycle hasn't finished.
    Pending {
        finished: u64,
        cycle: u64,
    },
    /// A question or a wait was refused.
    Refused(TableRefusal),
    /// How the session stands, if it is live.
    Looked(Option<Standing>),
    /// The number of the cycle that begins, if the session is live.
    Begun(Option<u64>),
    /// Whether the session is live, and its report was noted.
    Noted(bool),
    /// There was no memory. The table is as it was.
    NoMemory,
}

/// The state of a session that keeps two roots the same: the first of these that holds.
#[derive(Clone, Copy, Debug, PartialEq, Eq)]
pub enum SyncState {
    /// It is halted.
    Halted(Halt),
    /// It is paused.
    Paused,
    /// A cycle is in course.
    Cycling,
    /// A cycle is wanted.
    Due,
    /// It waits for changes.
    Resting,
}

/// A session that keeps two roots the same, as it is listed.
#[derive(Debug, Drop)]
pub struct SyncRow {
    pub id: u128,
    pub name: Option<GivenName>,
    pub mode: Mode,
    pub alpha: RootName,
    pub beta: RootName,
    pub state: SyncState,
    /// How many cycles have finished.
    pub cycles: u64,
    /// The conflicts of the last report, or 0.
    pub conflicts: u64,
    /// The problems of the last report, or 0.
    pub problems: u64,
    pub labels: Labels,
}

/// A session that carries streams, as it is listed.
#[derive(Debug, Drop)]
pub struct ForwardRow {
    pub id: u128,
    pub name: Option<GivenName>,
    pub source: Endpoint,
    pub dest: Endpoint,
    /// Whether it runs or is paused.
    pub wish: Wish,
}
