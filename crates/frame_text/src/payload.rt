//! A session's payload.
ghost use Rattle.std.specs.Prelude.{◌≡◌, MatchOption, false, true};
ghost use Rattle.frame_text.specs.Payloads.{is_set, stands_before, is_whole, has_lines, is_shaped, head_of, body_of, path_of_line};

use crate::head::Head;
use crate::version::Version;
use mode_rules::AncestorLine;
use sqlite_items::Items;
use std::alloc::AllocError;
use sync_path::Path;
use thiserror::Error;

/// What one kept frame of a session says.
///
/// `specs/Payloads.antt` has the bytes of each, and says which of these values the grammar has: an `agree` has at least one line,
/// the number of a `reset` is at least 1, and the lines of a `whole` set paths that rise.
#[derive(Debug, Drop)]
pub enum Payload {
    /// `agree`: what the ancestor takes up of a cycle of a run, with the version in which it is written.
    Agree {
        version: Version,
        run: u32,
        cycle: u64,
        lines: Items<AncestorLine>,
    },
    /// `reset`: the ancestor holds nothing from here on. The number is that of the reset.
    Reset(u64),
    /// `whole`: all that the ancestor holds, and the number of the last reset. It stands for all cycles up to this one of this run.
    Whole {
        run: u32,
        cycle: u64,
        served: u64,
        lines: Items<AncestorLine>,
    },
}

/// Why a payload was not read.
#[derive(Clone, Copy, Debug, PartialEq, Eq, Error)]
pub enum PayloadError {
    /// The bytes spell no payload of a session.
    #[error("no payload of a session")]
    Bad,
    /// There was no memory.
    #[error("out of memory")]
    Memory,
}

impl From<AllocError> for PayloadError {
    ghost use Rattle.frame_text.specs.declared.payload.PayloadError.TheVariants.{Memory};

    ghost from_gives = { λ _ e. e ≡ Memory };

    fn from(_error: AllocError) -> PayloadError {
        PayloadError::Memory
    }
}

// Whether a line sets something.
fn is_set(line: &AncestorLine) -> bool
    ensures { result ≡ is_set line.now }
{
    match line {
        AncestorLine::Set(_, _) => true,
        AncestorLine::Drop(_) => false,
    }
}

// The path of a line.
fn path_of(line: &AncestorLine) -> &Path
    ensures { result.now ≡ path_of_line line.now }
{
    match line {
        AncestorLine::Set(path, _) => path,
        AncestorLine::Drop(path) => path,
    }
}

// Whether the line's path stands before that of the next one.
fn stands_before(line: &AncestorLine, behind: &[AncestorLine]) -> bool
    ensures { result ≡ stands_before line.now behind.now }
{
    match behind {
        [next, ..] => path_of(line) < path_of(next),
        [] => true,
    }
}

// Whether the lines are those of a whole tree.
fn is_whole(lines: &[AncestorLine]) -> bool
    ensures { result ≡ is_whole lines.now }
{
    let mut rest = lines;
    while let [line, behind @ ..] = rest {
        if !(is_set(line) && stands_before(line, behind)) {
            return false;
        }
        rest = behind;
    }
    true
}

// Whether these lines may stand behind the first one.
fn is_shaped(head: Head, lines: &[AncestorLine]) -> bool
    ensures { result ≡ is_shaped head lines.now }
{
    match head {
        Head::Agree { .. } => !lines.is_empty(),
        Head::Reset(_) => lines.is_empty(),
        Head::Whole { .. } => is_whole(lines),
    }
}

/// The payload of a first line and the further ones, if they fit one another.
pub(crate) fn payload_by(head: Head, lines: Items<AncestorLine>) -> Option<Payload>
    ensures { MatchOption result (is_shaped head lines ≡ false) (λ payload. (head_of payload ≡ head) × (body_of payload ≡ lines) × (is_shaped head lines ≡ true)) }
{
    if !is_shaped(head, lines.as_slice()) {
        return None;
    }
    Some(made_of(head, lines))
}

// The payload of a first line and the further ones that fit it.
fn made_of(head: Head, lines: Items<AncestorLine>) -> Payload
    requires { is_shaped head lines ≡ true }
    ensures head { head_of result ≡ head }
    ensures body { body_of result ≡ lines }
{
    match head {
        Head::Agree {
            version,
            run,
            cycle,
        } => Payload::Agree {
            version,
            run,
            cycle,
            lines,
        },
        Head::Reset(number) => Payload::Reset(number),
        Head::Whole { run, cycle, served } => Payload::Whole {
            run,
            cycle,
            served,
            lines,
        },
    }
}
