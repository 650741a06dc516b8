//! A frame that a keeper is to keep.
ghost use Rattle.std.specs.Prelude.{◌≡◌, ◌<◌, ◌^◌, true, false, IfOk, IsTrue, MatchOption};
ghost use Rattle.std.specs.List.{AllByRecursion, list_all};
ghost use Rattle.line_words.specs.Lines.{AreBytes};
ghost use Rattle.entry_tree.specs.AtomText.{IsAtom};
ghost use Rattle.frame_text.specs.Agreed.{AreAgreed, are_agreed, sets_tracked};
ghost use Rattle.frame_text.specs.Frames.{frame_bytes};
ghost use Rattle.frame_text.specs.LineText.{IsLine};
ghost use Rattle.frame_text.specs.declared.version.Version.TheVariants.{V2};

use crate::version::{Version, fits};
use crate::write::{agree_text, reset_text};
use entry_tree::Atom;
use mode_rules::AncestorLine;
use sqlite_items::Items;
use std::alloc::{AllocError, Global};
use std::marker::Model;

/// Whose frames a frame stands among.
#[derive(Clone, Copy, Debug, PartialEq, Eq)]
pub enum KeepKey {
    /// Those of the table of sessions.
    Table,
    /// Those of the session with this identifier.
    Session(u128),
}

/// The lines of an `agree` that is to be written: at least one, and each atom that one sets is tracked. Contracts see them as a list.
#[derive(Debug, Drop)]
pub struct AgreedLines {
    lines: Items<AncestorLine>,
}

impl Model for AgreedLines {
    ghost use Rattle.std.specs.Prelude.{List};
    ghost use Rattle.std.specs.Coded.{coded_list};
    ghost use Rattle.mode_rules.specs.declared.ancestor_line.AncestorLine.{AncestorLine};
    ghost use Rattle.mode_rules.specs.contracts.ancestor_line.AncestorLine as line;
    ghost use Rattle.frame_text.specs.Agreed.{AreAgreed};

    ghost Value = { List AncestorLine };

    ghost coded = { coded_list line.the_row.coded };

    ghost view = { λ a. a.lines };

    ghost invariant = { λ a. AreAgreed a.lines };
}

impl AgreedLines {
    /// These lines, if there is at least one and each atom that one sets is tracked. Cost: O(n).
    pub fn of(lines: Items<AncestorLine>) -> Option<AgreedLines>
        ensures { MatchOption result (are_agreed lines ≡ false) (λ agreed. (agreed ≡ lines) × (are_agreed lines ≡ true)) }
    {
        if !are_agreed(lines.as_slice()) {
            return None;
        }
        Some(AgreedLines { lines })
    }

    /// The lines. It takes no memory.
    pub fn as_slice(&self) -> &[AncestorLine]
        ensures lines { result.now ≡ self.now }
        ensures agreed { AreAgreed self.now }
    {
        self.lines.as_slice()
    }

    /// The same lines. Cost: their number, and the lengths of their paths and links.
    pub fn copy(&self, alloc: Global) -> Result<AgreedLines, AllocError>
        ensures { IfOk result (λ copy. copy ≡ self.now) }
    {
        let lines = copied(alloc, self.lines.as_slice())?;
        Ok(AgreedLines { lines })
    }
}

// Copies of these lines.
fn copied(alloc: Global, lines: &[AncestorLine]) -> Result<Items<AncestorLine>, AllocError>
    ensures { IfOk result (λ copies. copies ≡ lines.now) }
{
    let mut copies = Items::new(alloc);
    for line in lines {
        copies.push(copied_line(alloc, line)?)?;
    }
    Ok(copies)
}

// A copy of a line.
fn copied_line(alloc: Global, line: &AncestorLine) -> Result<AncestorLine, AllocError>
    ensures { IfOk result (λ copy. copy ≡ line.now) }
{
    match line {
        AncestorLine::Set(path, atom) => {
            let path = path.copy(alloc)?;
            Ok(AncestorLine::Set(path, atom.copy(alloc)?))
        }
        AncestorLine::Drop(path) => Ok(AncestorLine::Drop(path.copy(alloc)?)),
    }
}

// Whether there are lines that are of version 2.
fn are_agreed(lines: &[AncestorLine]) -> bool
    ensures value { result ≡ are_agreed lines.now }
    ensures agreed { IsTrue result → AreAgreed lines.now }
{
    !lines.is_empty() && all_tracked(lines)
}

// Whether each line sets nothing, or a tracked atom.
fn all_tracked(lines: &[AncestorLine]) -> bool
    ensures value { result ≡ list_all sets_tracked lines.now }
    ensures lines { IsTrue result → AllByRecursion (IsLine V2) lines.now }
{
    let mut rest = lines;
    while let [line, behind @ ..] = rest {
        if !sets_tracked(line) {
            return false;
        }
        rest = behind;
    }
    true
}

// Whether a line sets nothing, or a tracked atom.
fn sets_tracked(line: &AncestorLine) -> bool
    ensures value { result ≡ sets_tracked line.now }
    ensures line { IsTrue result → IsLine V2 line.now }
{
    match line {
        AncestorLine::Set(path, atom) => {
            let _ = path.names();
            can_be(atom);
            fits(Version::V2, atom)
        }
        AncestorLine::Drop(path) => {
            let _ = path.names();
            true
        }
    }
}

// Each atom keeps what its types keep. It does nothing.
fn can_be(atom: &Atom)
    ensures { IsAtom atom.now }
{
    match atom {
        Atom::Dir => {}
        Atom::File(digest, _) => are_bytes(digest.as_bytes()),
        Atom::Link(text) => {
            let _ = text.as_str();
        }
        Atom::Untracked => {}
        Atom::Problem(_) => {}
    }
}

// Each item of a slice of bytes is a byte. It does nothing.
fn are_bytes(bytes: &[u8])
    ensures { AreBytes bytes.now }
{
    let _ = bytes.len();
}

/// The number of a reset, which is at least 1. Contracts see it as a number.
#[derive(Debug, Drop)]
pub struct ResetNumber {
    number: u64,
}

impl Model for ResetNumber {
    ghost use Rattle.std.specs.Prelude.{ℕ, ◌<◌, ◌^◌};

    ghost Value = { ℕ };

    ghost view = { λ r. r.number };

    ghost invariant = { λ r. (0 < r.number) × (r.number < 2 ^ 64) };
}

impl ResetNumber {
    /// The number, if it is at least 1.
    pub fn of(number: u64) -> Option<ResetNumber>
        ensures { MatchOption result (number ≡ 0) (λ r. (r ≡ number) × (0 < number)) }
    {
        if number == 0 {
            return None;
        }
        Some(ResetNumber { number })
    }

    /// The same number. It takes no memory.
    pub fn copy(&self) -> ResetNumber
        ensures { result ≡ self.now }
    {
        ResetNumber {
            number: self.number,
        }
    }

    /// The number.
    pub fn get(&self) -> u64
        ensures value { result ≡ self.now }
        ensures range { (0 < self.now) × (self.now < 2 ^ 64) }
    {
        self.number
    }
}

/// A frame that a keeper is to keep.
#[derive(Debug, Drop)]
pub enum Frame {
    /// A payload `v2 agree` of a session.
    Agree {
        run: u32,
        cycle: u64,
        lines: AgreedLines,
    },
    /// A payload `v1 reset` of a session.
    Reset(ResetNumber),
    /// A payload of the table, as its bytes.
    Table(Items<u8>),
}

impl Frame {
    /// An equal frame. Cost: what it holds.
    pub fn copy(&self, alloc: Global) -> Result<Frame, AllocError>
        ensures { IfOk result (λ copy. copy ≡ self.now) }
    {
        match self {
            Frame::Agree { run, cycle, lines } => Ok(Frame::Agree {
                run: *run,
                cycle: *cycle,
                lines: lines.copy(alloc)?,
            }),
            Frame::Reset(number) => Ok(Frame::Reset(number.copy())),
            Frame::Table(bytes) => Ok(Frame::Table(Items::from_slice(alloc, bytes.as_slice())?)),
        }
    }

    /// The bytes that a keeper keeps of it. Cost: their number.
    pub fn bytes(&self, alloc: Global) -> Result<Vec<u8>, AllocError>
        ensures { IfOk result (λ bytes. bytes.items ≡ frame_bytes self.now) }
    {
        match self {
            Frame::Agree { run, cycle, lines } => {
                Ok(agree_text(alloc, Version::V2, *run, *cycle, lines.as_slice())?.into_bytes())
            }
            Frame::Reset(number) => Ok(reset_text(alloc, number.get())?.into_bytes()),
            Frame::Table(bytes) => Vec::from_slice(alloc, bytes.as_slice()),
        }
    }
}
