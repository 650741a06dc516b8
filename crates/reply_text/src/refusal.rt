//! Why a request is refused.
ghost use Rattle.std.specs.Prelude.{◌≡◌, IfOk};

use command_words::{Identifier, RootName};
use entry_tree::Atom;
use mode_rules::Halt;
use std::alloc::{AllocError, Global};
use sync_path::Path;

/// How many sessions, of both kinds, may be live.
pub const MAX_SESSIONS: u64 = 256;

/// How many clients' last numbers are kept.
pub const MAX_CLIENTS: u64 = 64;

/// Why a request is refused. Each has a number, by which docs/FORMATS.md lists it.
#[derive(Debug, Drop)]
pub enum Refusal {
    /// 5: The line has more than 65,536 bytes.
    LineTooLong,
    /// 12: This pattern, counted from 0, is outside the grammar, at this byte of it.
    BadPattern { index: u64, place: u64 },
    /// 13: No root has this name.
    NoRoot(RootName),
    /// 14: The edit needs something else at this path. What was found stands there, or nothing.
    EditRefused { path: Path, found: Option<Atom> },
    /// 15: The root's log has this size, and takes no more.
    LogFull(u64),
    /// 16: The root holds so many bytes, and has no room for the edit's.
    BytesFull(u64),
    /// 19: The keeper failed.
    KeeperFault,
    /// 20: No live session of the kind has the name or identifier.
    NoSession,
    /// 21: Alpha and beta are one root.
    SameRoot,
    /// 22: `MAX_SESSIONS` sessions are live.
    TableFull,
    /// 23: This live session of the kind has the name.
    NameTaken(Identifier),
    /// 24: This session, of either kind, live or terminated, has the drawn identifier.
    IdTaken(Identifier),
    /// 25: The client's last number is this one, and is greater.
    OldNumber(u64),
    /// 26: The client is new, and `MAX_CLIENTS` are kept.
    ClientsFull,
    /// 27: The session is halted.
    Halted(Halt),
    /// 28: The session is paused.
    Paused,
    /// 29: The dice failed.
    DiceFault,
    /// 30: No request is spelt so, by what stands at this byte of the line.
    BadLine(u64),
    /// 32: So many streams are live at the near end, and no more can be opened.
    StreamsFull(u32),
    /// 34: The stream isn't live at that end.
    NoStream,
    /// 35: The line is one of the script's, and this is the daemon.
    ScriptOnly,
    /// 36: The flush with this number was kept in an earlier run. This is the present one.
    OldRun(u32),
    /// 37: The link was cut.
    Cut,
    /// 38: The stream's writing has ended.
    WriteClosed,
}

impl Refusal {
    /// An equal refusal. Cost: its length.
    pub fn copy(&self, alloc: Global) -> Result<Refusal, AllocError>
        ensures { IfOk result (λ refusal. refusal ≡ self.now) }
    {
        match self {
            Refusal::LineTooLong => Ok(Refusal::LineTooLong),
            Refusal::BadPattern { index, place } => Ok(Refusal::BadPattern {
                index: *index,
                place: *place,
            }),
            Refusal::NoRoot(root) => Ok(Refusal::NoRoot(root.copy(alloc)?)),
            Refusal::EditRefused { path, found } => Ok(Refusal::EditRefused {
                path: path.copy(alloc)?,
                found: copied_atom(alloc, found)?,
            }),
            Refusal::LogFull(size) => Ok(Refusal::LogFull(*size)),
            Refusal::BytesFull(bytes) => Ok(Refusal::BytesFull(*bytes)),
            Refusal::KeeperFault => Ok(Refusal::KeeperFault),
            Refusal::NoSession => Ok(Refusal::NoSession),
            Refusal::SameRoot => Ok(Refusal::SameRoot),
            Refusal::TableFull => Ok(Refusal::TableFull),
            Refusal::NameTaken(identifier) => Ok(Refusal::NameTaken(*identifier)),
            Refusal::IdTaken(identifier) => Ok(Refusal::IdTaken(*identifier)),
            Refusal::OldNumber(last) => Ok(Refusal::OldNumber(*last)),
            Refusal::ClientsFull => Ok(Refusal::ClientsFull),
            Refusal::Halted(halt) => Ok(Refusal::Halted(*halt)),
            Refusal::Paused => Ok(Refusal::Paused),
            Refusal::DiceFault => Ok(Refusal::DiceFault),
            Refusal::BadLine(place) => Ok(Refusal::BadLine(*place)),
            Refusal::StreamsFull(live) => Ok(Refusal::StreamsFull(*live)),
            Refusal::NoStream => Ok(Refusal::NoStream),
            Refusal::ScriptOnly => Ok(Refusal::ScriptOnly),
            Refusal::OldRun(run) => Ok(Refusal::OldRun(*run)),
            Refusal::Cut => Ok(Refusal::Cut),
            Refusal::WriteClosed => Ok(Refusal::WriteClosed),
        }
    }
}

// An equal atom, if there is one.
fn copied_atom(alloc: Global, atom: &Option<Atom>) -> Result<Option<Atom>, AllocError>
    ensures { IfOk result (λ copy. copy ≡ atom.now) }
{
    match atom {
        Some(atom) => Ok(Some(atom.copy(alloc)?)),
        None => Ok(None),
    }
}
